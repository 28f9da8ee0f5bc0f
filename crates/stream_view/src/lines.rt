//! The line of each record.

ghost use Rattle.std.specs.Prelude.{◌≡◌, ◌++◌, ◌≤◌, ◌∷◌, [], length, drop, codes, OnOk, decimal};
ghost use Rattle.std.specs.Fmt.{signed_decimal};
ghost use Rattle.std.specs.List.{flat_map};
ghost use Rattle.stream_model.specs.View.{field, hex_or_dash, entry_text, entries_text, kind_text, kind_words, fields_text, record_line};
ghost use Rattle.mig_records.specs.RecordView.{record_of};

use mig_records::fields::{u16_at, u32_at};
use mig_records::{RawPerm, RawPerms, Record};
use xs_base::{Bytes, NoMemory, push_decimal, push_hex};

fn push_number(line: &mut Bytes, words: &[u8], number: u64) -> Result<(), NoMemory>
    ensures { OnOk result (line.new ≡ line.old ++ field words.now (decimal number)) }
{
    line.push(words)?;
    push_decimal(line, number)
}

fn push_signed(line: &mut Bytes, words: &[u8], number: i32) -> Result<(), NoMemory>
    ensures { OnOk result (line.new ≡ line.old ++ field words.now (signed_decimal number)) }
{
    line.push(words)?;
    if number < 0 {
        line.push(b"-")?;
    }
    push_decimal(line, u64::from(number.unsigned_abs()))
}

fn push_bytes(line: &mut Bytes, words: &[u8], bytes: &[u8]) -> Result<(), NoMemory>
    ensures { OnOk result (line.new ≡ line.old ++ field words.now (hex_or_dash bytes.now)) }
{
    line.push(words)?;
    if bytes.is_empty() {
        line.push(b"-")
    } else {
        push_hex(line, bytes)
    }
}

fn push_entry(line: &mut Bytes, entry: RawPerm) -> Result<(), NoMemory>
    ensures { OnOk result (line.new ≡ line.old ++ entry_text entry) }
{
    push_hex(line, &[entry.letter])?;
    line.push(b".")?;
    push_hex(line, &[entry.flags])?;
    push_number(line, b".", u64::from(entry.domid))
}

fn push_entries(line: &mut Bytes, words: &[u8], perms: &RawPerms) -> Result<(), NoMemory>
    ensures { OnOk result (line.new ≡ line.old ++ field words.now (entries_text perms.now)) }
{
    line.push(words)?;
    match perms.as_slice().split_first() {
        None => line.push(b"-"),
        Some((first, others)) => {
            push_entry(line, *first)?;
            push_others(line, others)
        }
    }
}

// The entries behind the first, a comma before each.
fn push_others(line: &mut Bytes, entries: &[RawPerm]) -> Result<(), NoMemory>
    ensures { OnOk result (line.new ≡ line.old ++ flat_map (λ q. field (codes ",") (entry_text q)) entries.now) }
{
    for entry in entries {
        line.push(b",")?;
        push_entry(line, *entry)?;
    }
    Ok(())
}

fn push_kind(line: &mut Bytes, kind: u16, spec: &[u8; 8]) -> Result<(), NoMemory>
    ensures { OnOk result (line.new ≡ line.old ++ kind_text kind spec.now) }
{
    match kind {
        0 => {
            push_number(line, b" ring ", u64::from(u16_at(spec, 0)))?;
            push_number(line, b" target ", u64::from(u16_at(spec, 2)))?;
            push_number(line, b" evtchn ", u64::from(u32_at(spec, 4)))
        }
        1 => push_number(line, b" socket ", u64::from(u32_at(spec, 0))),
        _ => push_number(line, b" type ", u64::from(kind)),
    }
}

fn kind_words(item: &Record) -> &'static [u8]
    ensures { result.now ≡ kind_words (record_of item.now) }
{
    match item {
        Record::Global { .. } => b" global rw-socket-fd ",
        Record::Connection { .. } => b" connection ",
        Record::Watch { .. } => b" watch ",
        Record::Transaction { .. } => b" transaction ",
        Record::Node { .. } => b" node conn ",
        Record::End => b" end",
    }
}

fn push_globals(line: &mut Bytes, rw_socket_fd: i32, evtchn_fd: i32) -> Result<(), NoMemory>
    ensures { OnOk result (line.new
        ≡ line.old ++ (signed_decimal rw_socket_fd ++ field (codes " evtchn-fd ") (signed_decimal evtchn_fd))) }
{
    push_signed(line, b"", rw_socket_fd)?;
    push_signed(line, b" evtchn-fd ", evtchn_fd)
}

// What the line of a record says of its fields, behind the words of its kind.
fn push_fields(line: &mut Bytes, item: &Record) -> Result<(), NoMemory>
    ensures { OnOk result (line.new ≡ line.old ++ fields_text (record_of item.now)) }
{
    match item {
        Record::End => Ok(()),
        Record::Global {
            rw_socket_fd,
            evtchn_fd,
        } => push_globals(line, *rw_socket_fd, *evtchn_fd),
        Record::Connection {
            conn,
            kind,
            spec,
            rest,
            inbox,
            unsent,
        } => {
            push_number(line, b"", u64::from(*conn))?;
            push_kind(line, *kind, spec)?;
            push_bytes(line, b" in ", inbox.as_slice())?;
            push_number(line, b" resp ", u64::from(*rest))?;
            push_bytes(line, b" out ", unsent.as_slice())
        }
        Record::Watch { conn, wpath, token } => {
            push_number(line, b"", u64::from(*conn))?;
            push_bytes(line, b" wpath ", wpath.as_slice())?;
            push_bytes(line, b" token ", token.as_slice())
        }
        Record::Transaction { conn, tx, .. } => {
            push_number(line, b"", u64::from(*conn))?;
            push_number(line, b" ", u64::from(*tx))
        }
        Record::Node {
            conn,
            tx,
            access,
            perms,
            path,
            value,
        } => {
            push_number(line, b"", u64::from(*conn))?;
            push_number(line, b" tx ", u64::from(*tx))?;
            push_number(line, b" access ", u64::from(*access))?;
            push_entries(line, b" perms ", perms)?;
            push_bytes(line, b" path ", path.as_slice())?;
            push_bytes(line, b" value ", value.as_slice())
        }
    }
}

/// Appends the line of a record that stands at this place. O(length of the line).
pub fn push_line(line: &mut Bytes, at: usize, item: &Record) -> Result<(), NoMemory>
    ensures { OnOk result (line.new ≡ line.old ++ record_line at (record_of item.now)) }
{
    push_decimal(line, at as u64)?;
    line.push(kind_words(item))?;
    push_fields(line, item)?;
    line.push(b"\n")
}
