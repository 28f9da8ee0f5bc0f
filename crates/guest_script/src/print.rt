//! The line that is printed for an event and its answer.

ghost use Rattle.std.specs.Prelude.{◌≡◌, ◌+◌, ◌≤◌, ◌++◌, ◌∷◌, [], length, OnOk, OnErr, decimal};
ghost use Rattle.world_model.specs.Transcripts.{said_line, event_words, said_words, spaced, hex_or_dash, byte_or_end};
ghost use Rattle.guest_script.specs.Views.{event_view};
ghost use Rattle.guest_script.specs.Printed.{spaced_behind};

use crate::event::Event;
use crate::line_text::{LINE_ROOM, LineText, NUMBER_ROOM};
use world_model::Said;
use xs_base::{Bytes, NoMemory, hex_pair, push_hex_between};

/// Appends the line of an event and its answer, its line feed included. `taken` are the bytes that the
/// guest took, for an answer [`Said::Got`].
///
/// Refused, the lines are as before. O(length of the line); it takes memory once at most, and before it appends any
/// of it.
pub fn print_said(
    lines: &mut Bytes,
    event: &Event,
    said: &Said,
    taken: &[u8],
) -> Result<(), NoMemory>
    ensures ok { OnOk result (lines.new ≡ lines.old ++ said_line (event_view event.now) said.now taken.now) }
    ensures err { OnErr result (lines.new ≡ lines.old) }
{
    match said {
        Said::Got(_) => print_taken(lines, event, taken),
        said => print_words(lines, event, said),
    }
}

/// The line of an answer with bytes.
fn print_taken(lines: &mut Bytes, event: &Event, taken: &[u8]) -> Result<(), NoMemory>
    ensures ok { OnOk result (lines.new ≡ lines.old ++ (spaced (event_words (event_view event.now)) ++ (32 ∷ (hex_or_dash taken.now ++ 10 ∷ [])))) }
    ensures err { OnErr result (lines.new ≡ lines.old) }
{
    let mut text = LineText::new();
    if taken.is_empty() {
        text.put_words(b" -\n");
        put_event(&mut text, event);
        return lines.push(text.as_slice());
    }
    text.put_words(b" ");
    put_event(&mut text, event);
    push_hex_between(lines, text.as_slice(), taken, b"\n")
}

/// The line of an answer in words and numbers.
fn print_words(lines: &mut Bytes, event: &Event, said: &Said) -> Result<(), NoMemory>
    ensures ok { OnOk result (lines.new ≡ lines.old ++ (spaced (event_words (event_view event.now)) ++ (spaced_behind (said_words said.now []) ++ 10 ∷ []))) }
    ensures err { OnErr result (lines.new ≡ lines.old) }
{
    let mut text = LineText::new();
    text.put_words(b"\n");
    put_said(&mut text, said);
    put_event(&mut text, event);
    lines.push(text.as_slice())
}

/// The verb and the domain.
fn put_event(text: &mut LineText, event: &Event)
    requires { 30 + length text.old ≤ LINE_ROOM }
    ensures { text.new ≡ spaced (event_words (event_view event.now)) ++ text.old }
{
    match event {
        Event::Send { domid, .. } => put_counted(text, b"send ", u64::from(*domid)),
        Event::Put { domid, .. } => put_counted(text, b"put ", u64::from(*domid)),
        Event::Intake { domid, .. } => put_counted(text, b"intake ", u64::from(*domid)),
        Event::Do { domid } => put_counted(text, b"do ", u64::from(*domid)),
        Event::Out { domid, .. } => put_counted(text, b"out ", u64::from(*domid)),
        Event::Take { domid, .. } => put_counted(text, b"take ", u64::from(*domid)),
        Event::Poke { domid, .. } => put_counted(text, b"poke ", u64::from(*domid)),
        Event::Page { domid } => put_counted(text, b"page ", u64::from(*domid)),
        Event::Handover => text.put_words(b"handover"),
    }
}

/// The words of an answer, with a space before each, where no bytes were taken.
fn put_said(text: &mut LineText, said: &Said)
    requires { 120 + length text.old ≤ LINE_ROOM }
    ensures text { text.new ≡ spaced_behind (said_words said.now []) ++ text.old }
    ensures len { length text.new ≤ 120 + length text.old }
{
    match said {
        Said::Gone => text.put_words(b" gone"),
        Said::Queued(n) | Said::Put(n) | Said::Took(n) | Said::Sent(n) => {
            put_counted(text, b" ", *n as u64);
        }
        Said::InFull => text.put_words(b" full"),
        Said::DroppedIndex { prod, cons } => put_indices(text, *prod, *cons),
        Said::Part => text.put_words(b" part"),
        Said::DroppedLength { len } => put_counted(text, b" dropped length ", u64::from(*len)),
        Said::Held { unsent } => put_counted(text, b" held ", *unsent as u64),
        Said::Crowded { conn } => put_counted(text, b" crowded ", u64::from(*conn)),
        Said::Done => text.put_words(b" done"),
        Said::NoneQueued => text.put_words(b" none"),
        Said::NoSpace => text.put_words(b" nospace"),
        Said::Got(_) => text.put_words(b" -"),
        Said::Poked => text.put_words(b" ok"),
        Said::Page {
            req_cons,
            req_prod,
            rsp_cons,
            rsp_prod,
            error,
        } => {
            put_counted(text, b" ", u64::from(*error));
            put_counted(text, b" ", u64::from(*rsp_prod));
            put_counted(text, b" ", u64::from(*rsp_cons));
            put_counted(text, b" ", u64::from(*req_prod));
            put_counted(text, b" ", u64::from(*req_cons));
        }
        Said::Handed => text.put_words(b" new"),
        Said::RefusedFault => text.put_words(b" refused fault"),
        Said::RefusedChanged { at, put, got } => put_changed(text, *at, *put, *got),
        Said::NoMemory => {}
    }
}

/// Words and a number behind them.
fn put_counted(text: &mut LineText, words: &[u8], number: u64)
    requires { length words.now + NUMBER_ROOM + length text.old ≤ LINE_ROOM }
    ensures text { text.new ≡ words.now ++ (decimal number ++ text.old) }
    ensures len { length text.new ≤ length words.now + NUMBER_ROOM + length text.old }
{
    text.put_number(number);
    text.put_words(words);
}

/// The indices for which a connection was dropped.
fn put_indices(text: &mut LineText, prod: u32, cons: u32)
    requires { 60 + length text.old ≤ LINE_ROOM }
    ensures text { text.new ≡ spaced_behind (said_words (Said.DroppedIndex prod cons) []) ++ text.old }
    ensures len { length text.new ≤ 60 + length text.old }
{
    put_counted(text, b" ", u64::from(cons));
    put_counted(text, b" dropped index ", u64::from(prod));
}

/// Where two texts differ, and the bytes there.
fn put_changed(text: &mut LineText, at: usize, put: Option<u8>, got: Option<u8>)
    requires { 60 + length text.old ≤ LINE_ROOM }
    ensures text { text.new ≡ spaced_behind (said_words (Said.RefusedChanged at put got) []) ++ text.old }
    ensures len { length text.new ≤ 60 + length text.old }
{
    put_byte(text, got);
    put_byte(text, put);
    put_counted(text, b" refused changed ", at as u64);
}

/// A byte, or the end of a text.
fn put_byte(text: &mut LineText, byte: Option<u8>)
    requires { 4 + length text.old ≤ LINE_ROOM }
    ensures text { text.new ≡ 32 ∷ (byte_or_end byte ++ text.old) }
    ensures len { length text.new ≤ 4 + length text.old }
{
    match byte {
        None => text.put_words(b" end"),
        Some(byte) => {
            text.put_words(&hex_pair(byte));
            text.put_words(b" ");
        }
    }
}
