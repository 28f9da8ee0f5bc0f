//! Event messages (xenstore.txt, "Watches"; xs_wire.h).

ghost use Rattle.std.specs.Prelude.{◌≡◌, ◌+◌, ◌≤◌, ◌++◌, ℕ, length, take, drop, OnOk, OnErr};
ghost use Rattle.xs_model.specs.declared.message.kind.TheConstants.{WATCH_EVENT};
ghost use Rattle.xs_model.specs.Messages.{message_bytes, header_bytes, string};
ghost use Rattle.xs_model.specs.Watches.{event_message, first_event};

use byteorder::{ByteOrder, LittleEndian};
use xs_base::{Bytes, NoMemory};
use xs_model::message::{HEADER_SIZE, MESSAGE_MAX, PAYLOAD_MAX, kind};

/// Appends the message of an event: the path as the watch names it, and the token of the watch. Refused, the list is as
/// before. Costs O(bytes of the longest message).
pub fn push_event(into: &mut Bytes, path: &[u8], token: &[u8]) -> Result<(), NoMemory>
    requires { length path.now + length token.now + 2 ≤ PAYLOAD_MAX }
    ensures ok { OnOk result (into.new ≡ into.old ++ message_bytes (event_message path.now token.now)) }
    ensures err { OnErr result (into.new ≡ into.old) }
{
    let mut message = [0; MESSAGE_MAX];
    let len = write_event(path, token, &mut message);
    into.push(&message[..len])
}

/// Appends the message that a new watch gets at once: its path and its token as they were given. Refused, the list is as
/// before. Costs O(bytes of the longest message).
pub fn push_first(into: &mut Bytes, wpath: &[u8], token: &[u8]) -> Result<(), NoMemory>
    requires { length wpath.now + length token.now + 2 ≤ PAYLOAD_MAX }
    ensures ok { OnOk result (into.new ≡ into.old ++ message_bytes (first_event (record { wpath = wpath.now; token = token.now }))) }
    ensures err { OnErr result (into.new ≡ into.old) }
{
    push_event(into, wpath, token)
}

/// Writes the message of an event to the first bytes of `into`, and says how many these are.
fn write_event(path: &[u8], token: &[u8], into: &mut [u8; MESSAGE_MAX]) -> usize
    requires { length path.now + length token.now + 2 ≤ PAYLOAD_MAX }
    ensures within { result ≤ MESSAGE_MAX }
    ensures bytes { take result into.new ≡ message_bytes (event_message path.now token.now) }
{
    let len = path.len() + token.len() + 2;
    let end = put(into, 0, &event_head(len as u32));
    let end = put_string(into, end, path);
    put_string(into, end, token)
}

/// The header of an event with so many bytes of payload. Events answer no request and belong to no transaction.
fn event_head(len: u32) -> [u8; HEADER_SIZE]
    ensures { result ≡ header_bytes (record { kind = WATCH_EVENT; req_id = 0; tx_id = 0; len = len }) }
{
    let mut bytes = [0; HEADER_SIZE];
    LittleEndian::write_u32(&mut bytes[0..4], kind::WATCH_EVENT);
    LittleEndian::write_u32(&mut bytes[4..8], 0);
    LittleEndian::write_u32(&mut bytes[8..12], 0);
    LittleEndian::write_u32(&mut bytes[12..16], len);
    bytes
}

/// Writes bytes and the NUL that ends them to a place on, and gives the place behind them.
fn put_string(into: &mut [u8; MESSAGE_MAX], at: usize, bytes: &[u8]) -> usize
    requires { at + length bytes.now + 1 ≤ MESSAGE_MAX }
    ensures end { result ≡ at + length bytes.now + 1 }
    ensures front { take result into.new ≡ take at into.old ++ string bytes.now }
{
    let end = put(into, at, bytes);
    put(into, end, b"\0")
}

/// Writes bytes from a place on, and gives the place behind them.
fn put(into: &mut [u8; MESSAGE_MAX], at: usize, bytes: &[u8]) -> usize
    requires { at + length bytes.now ≤ MESSAGE_MAX }
    ensures end { result ≡ at + length bytes.now }
    ensures front { take result into.new ≡ take at into.old ++ bytes.now }
{
    let end = at + bytes.len();
    into[at..end].copy_from_slice(bytes);
    end
}
