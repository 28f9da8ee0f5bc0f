//! The record of a body that was tested.
ghost use Rattle.std.specs.Prelude.{◌≡◌, ◌+◌, ◌*◌, ◌^◌, ◌<◌, ◌≤◌, length, drop, IfOk, OnOk, OnErr};
ghost use Rattle.stream_model.specs.Fields.{u32_at, part};
ghost use Rattle.stream_model.specs.Record.{is_end};
ghost use Rattle.stream_model.specs.Spelling.{IsStream, whole_size, count_in};
ghost use Rattle.stream_model.specs.Reading.{type_with, fixed_part, whole_need, need_in, entry_in, entries_in, record_in, body_record, typed_record, record_at};
ghost use Rattle.mig_records.specs.RecordView.{record_of, records_of, Reads};

use crate::fields::{behind, i32_at, part, u16_at, u32_at};
use crate::places::whole_size;
use crate::record::{RawPerms, Record};
use std::alloc::Global;
use stream_model::{RawPerm, RecordType, StreamFault};
use xs_base::{Bytes, NoMemory};

fn entry_in(bytes: &[u8]) -> RawPerm
    requires { 4 ≤ length bytes.now }
    ensures { result ≡ entry_in bytes.now }
{
    RawPerm {
        letter: bytes[0],
        flags: bytes[1],
        domid: u16_at(bytes, 2),
    }
}

// So many permission entries.
fn entries_in(alloc: Global, count: usize, bytes: &[u8]) -> Result<RawPerms, NoMemory>
    requires { 4 * count ≤ length bytes.now }
    ensures { IfOk result (λ perms. perms ≡ entries_in count bytes.now) }
{
    let mut perms = RawPerms::new(alloc);
    for number in 0..count {
        perms.push(entry_in(behind(bytes, 4 * number)))?;
    }
    Ok(perms)
}

fn connection_in(alloc: Global, body: &[u8]) -> Result<Record, NoMemory>
    requires fixed { fixed_part RecordType.Connection ≤ length body.now }
    requires whole { whole_need RecordType.Connection body.now ≤ length body.now }
    ensures { IfOk result (λ found. record_of found ≡ record_in RecordType.Connection body.now) }
{
    let inbox_len = u32_at(body, 16) as usize;
    let unsent_len = u32_at(body, 24) as usize;
    let mut spec = [0; 8];
    spec.copy_from_slice(part(body, 8, 8));
    Ok(Record::Connection {
        conn: u32_at(body, 0),
        kind: u16_at(body, 4),
        spec,
        rest: u32_at(body, 20),
        inbox: Bytes::copy(alloc, part(body, 28, inbox_len))?,
        unsent: Bytes::copy(alloc, part(body, 28 + inbox_len, unsent_len))?,
    })
}

fn watch_in(alloc: Global, body: &[u8]) -> Result<Record, NoMemory>
    requires fixed { fixed_part RecordType.Watch ≤ length body.now }
    requires whole { whole_need RecordType.Watch body.now ≤ length body.now }
    ensures { IfOk result (λ found. record_of found ≡ record_in RecordType.Watch body.now) }
{
    let wpath_len = u16_at(body, 4) as usize;
    let token_len = u16_at(body, 6) as usize;
    Ok(Record::Watch {
        conn: u32_at(body, 0),
        wpath: Bytes::copy(alloc, part(body, 8, wpath_len))?,
        token: Bytes::copy(alloc, part(body, 8 + wpath_len, token_len))?,
    })
}

fn node_in(alloc: Global, body: &[u8]) -> Result<Record, NoMemory>
    requires fixed { fixed_part RecordType.Node ≤ length body.now }
    requires whole { whole_need RecordType.Node body.now ≤ length body.now }
    ensures { IfOk result (λ found. record_of found ≡ record_in RecordType.Node body.now) }
{
    let path_len = u16_at(body, 8) as usize;
    let value_len = u16_at(body, 10) as usize;
    let count = u16_at(body, 14) as usize;
    let texts = 16 + 4 * count;
    Ok(Record::Node {
        conn: u32_at(body, 0),
        tx: u32_at(body, 4),
        access: u16_at(body, 12),
        perms: entries_in(alloc, count, behind(body, 16))?,
        path: Bytes::copy(alloc, part(body, texts, path_len))?,
        value: Bytes::copy(alloc, part(body, texts + path_len, value_len))?,
    })
}

// The count of a transaction, by the bytes behind its two ids.
fn count_in(more: &[u8]) -> u32
    ensures { result ≡ count_in more.now }
{
    if more.len() < 4 { 0 } else { u32_at(more, 0) }
}

fn transaction_in(body: &[u8]) -> Record
    requires { 8 ≤ length body.now }
    ensures { record_of result ≡ record_in RecordType.Transaction body.now }
{
    Record::Transaction {
        conn: u32_at(body, 0),
        tx: u32_at(body, 4),
        count: count_in(behind(body, 8)),
    }
}

// The record of a body that has what its fields ask for.
pub(crate) fn record_in(alloc: Global, kind: RecordType, body: &[u8]) -> Result<Record, NoMemory>
    requires { need_in kind body.now ≤ length body.now }
    ensures { IfOk result (λ found. record_of found ≡ record_in kind body.now) }
{
    match kind {
        RecordType::End => Ok(Record::End),
        RecordType::Global => Ok(Record::Global {
            rw_socket_fd: i32_at(body, 0),
            evtchn_fd: i32_at(body, 4),
        }),
        RecordType::Connection => connection_in(alloc, body),
        RecordType::Watch => watch_in(alloc, body),
        RecordType::Transaction => Ok(transaction_in(body)),
        RecordType::Node => node_in(alloc, body),
    }
}
