//! Writing a stream: each record by its parts, which may stand anywhere, and all records of a list. Where there is no
//! memory, a part of a record may have been appended.
ghost use Rattle.std.specs.Prelude.{◌≡◌, ◌+◌, ◌-◌, ◌^◌, ◌<◌, ◌≤◌, ◌++◌, length, replicate, IfOk, OnOk};
ghost use Rattle.std.specs.List.{concat, flat_map, AllByRecursion};
ghost use Rattle.stream_model.specs.Fields.{u16_bytes, u32_bytes, i32_bytes};
ghost use Rattle.stream_model.specs.Record.{global_data, connection_data, watch_data, transaction_data, node_data, end_record};
ghost use Rattle.stream_model.specs.Spelling.{header, type_number, entry_bytes, fields, whole_size, canonical_record, NumbersFit, LengthsFit, canonical, EndsOnce, IsStream};
ghost use Rattle.mig_records.specs.RecordView.{record_of, records_of};

use crate::places::whole_size;
use crate::record::{Record, Records};
use byteorder::{ByteOrder, LittleEndian};
use std::alloc::Global;
use stream_model::{RawPerm, RecordType};
use xs_base::{Bytes, NoMemory};

fn push_u16(out: &mut Bytes, number: u16) -> Result<(), NoMemory>
    ensures { OnOk result (out.new ≡ out.old ++ u16_bytes number) }
{
    let mut cells = [0; 2];
    LittleEndian::write_u16(&mut cells, number);
    out.push(&cells)
}

fn push_u32(out: &mut Bytes, number: u32) -> Result<(), NoMemory>
    ensures { OnOk result (out.new ≡ out.old ++ u32_bytes number) }
{
    let mut cells = [0; 4];
    LittleEndian::write_u32(&mut cells, number);
    out.push(&cells)
}

fn push_i32(out: &mut Bytes, number: i32) -> Result<(), NoMemory>
    ensures { OnOk result (out.new ≡ out.old ++ i32_bytes number) }
{
    push_u32(out, number.cast_unsigned())
}

fn push_entry(out: &mut Bytes, entry: RawPerm) -> Result<(), NoMemory>
    ensures text { OnOk result (out.new ≡ out.old ++ entry_bytes entry) }
    ensures fits { entry.domid < 2 ^ 16 }
{
    out.push(&[entry.letter, entry.flags])?;
    push_u16(out, entry.domid)
}

fn push_entries(out: &mut Bytes, perms: &[RawPerm]) -> Result<(), NoMemory>
    ensures text { OnOk result (out.new ≡ out.old ++ flat_map entry_bytes perms.now) }
    ensures fit { OnOk result (AllByRecursion (λ p. p.domid < 2 ^ 16) perms.now) }
{
    for entry in perms {
        push_entry(out, *entry)?;
    }
    Ok(())
}

// The fields of a connection, with a zero pad.
fn push_connection(
    out: &mut Bytes,
    conn: u32,
    kind: u16,
    spec: &[u8; 8],
    rest: u32,
    inbox: &[u8],
    unsent: &[u8],
) -> Result<(), NoMemory>
    requires { 28 + length inbox.now + length unsent.now < 2 ^ 32 }
    ensures text { OnOk result (out.new ≡ out.old ++ concat (fields (u16_bytes 0) (connection_data
        (record { conn = conn; kind = kind; spec = spec.now; rest = rest; inbox = inbox.now; unsent = unsent.now })))) }
    ensures fit { length spec.now ≡ 8 }
{
    push_u32(out, conn)?;
    push_u16(out, kind)?;
    push_u16(out, 0)?;
    out.push(spec)?;
    push_u32(out, inbox.len() as u32)?;
    push_u32(out, rest)?;
    push_u32(out, unsent.len() as u32)?;
    out.push(inbox)?;
    out.push(unsent)
}

fn push_watch(out: &mut Bytes, conn: u32, wpath: &[u8], token: &[u8]) -> Result<(), NoMemory>
    requires wpath { length wpath.now < 2 ^ 16 }
    requires token { length token.now < 2 ^ 16 }
    ensures { OnOk result (out.new ≡ out.old ++ concat (fields (u16_bytes 0) (watch_data
        (record { conn = conn; wpath = wpath.now; token = token.now })))) }
{
    push_u32(out, conn)?;
    push_u16(out, wpath.len() as u16)?;
    push_u16(out, token.len() as u16)?;
    out.push(wpath)?;
    out.push(token)
}

// The ids of a transaction, and its count behind them.
fn push_transaction(out: &mut Bytes, conn: u32, tx: u32, count: u32) -> Result<(), NoMemory>
    ensures { OnOk result (out.new ≡ out.old ++ (concat (fields (u16_bytes 0) (transaction_data
        (record { conn = conn; tx = tx; count = count }))) ++ u32_bytes count)) }
{
    push_u32(out, conn)?;
    push_u32(out, tx)?;
    push_u32(out, count)
}

fn push_node(
    out: &mut Bytes,
    conn: u32,
    tx: u32,
    access: u16,
    perms: &[RawPerm],
    path: &[u8],
    value: &[u8],
) -> Result<(), NoMemory>
    requires perms { length perms.now < 2 ^ 16 }
    requires path { length path.now < 2 ^ 16 }
    requires value { length value.now < 2 ^ 16 }
    ensures text { OnOk result (out.new ≡ out.old ++ concat (fields (u16_bytes 0) (node_data
        (record { conn = conn; tx = tx; access = access; perms = perms.now; path = path.now; value = value.now })))) }
    ensures fit { OnOk result (AllByRecursion (λ p. p.domid < 2 ^ 16) perms.now) }
{
    push_u32(out, conn)?;
    push_u32(out, tx)?;
    push_u16(out, path.len() as u16)?;
    push_u16(out, value.len() as u16)?;
    push_u16(out, access)?;
    push_u16(out, perms.len() as u16)?;
    push_entries(out, perms)?;
    out.push(path)?;
    out.push(value)
}

fn type_number(kind: RecordType) -> u32
    ensures { result ≡ type_number kind }
{
    match kind {
        RecordType::End => 0,
        RecordType::Global => 1,
        RecordType::Connection => 2,
        RecordType::Watch => 3,
        RecordType::Transaction => 4,
        RecordType::Node => 5,
    }
}

// The type of a record and the length of its body.
fn push_head(out: &mut Bytes, kind: RecordType, len: u32) -> Result<(), NoMemory>
    ensures { OnOk result (out.new ≡ out.old ++ (u32_bytes (type_number kind) ++ u32_bytes len)) }
{
    push_u32(out, type_number(kind))?;
    push_u32(out, len)
}

// Zero bytes behind a body of this length.
fn push_padding(out: &mut Bytes, len: u32) -> Result<(), NoMemory>
    ensures { OnOk result (out.new ≡ out.old ++ replicate (whole_size len - (8 + len)) 0) }
{
    push_zeros(out, whole_size(len) - (8 + len as usize))
}

// At most eight zero bytes.
fn push_zeros(out: &mut Bytes, count: usize) -> Result<(), NoMemory>
    requires { count ≤ 8 }
    ensures { OnOk result (out.new ≡ out.old ++ replicate count 0) }
{
    out.push(&[0; 8][..count])
}

/// Appends the header of a stream, 16 bytes.
pub fn write_header(out: &mut Bytes) -> Result<(), NoMemory>
    ensures { OnOk result (out.new ≡ out.old ++ header) }
{
    out.push(b"xenstore\x00\x00\x00\x01\x00\x00\x00\x00")
}

/// Appends the canonical text of GLOBAL_DATA.
pub fn write_global(out: &mut Bytes, rw_socket_fd: i32, evtchn_fd: i32) -> Result<(), NoMemory>
    ensures text { OnOk result (out.new ≡ out.old ++ canonical_record (global_data
        (record { rw_socket_fd = rw_socket_fd; evtchn_fd = evtchn_fd }))) }
    ensures fit { NumbersFit (global_data (record { rw_socket_fd = rw_socket_fd; evtchn_fd = evtchn_fd })) }
{
    push_head(out, RecordType::Global, 8)?;
    push_i32(out, rw_socket_fd)?;
    push_i32(out, evtchn_fd)
}

/// Appends the canonical text of CONNECTION_DATA. O(length of its bytes).
pub fn write_connection(
    out: &mut Bytes,
    conn: u32,
    kind: u16,
    spec: &[u8; 8],
    rest: u32,
    inbox: &[u8],
    unsent: &[u8],
) -> Result<(), NoMemory>
    requires { 28 + length inbox.now + length unsent.now < 2 ^ 32 }
    ensures text { OnOk result (out.new ≡ out.old ++ canonical_record (connection_data
        (record { conn = conn; kind = kind; spec = spec.now; rest = rest; inbox = inbox.now; unsent = unsent.now }))) }
    ensures fit { NumbersFit (connection_data
        (record { conn = conn; kind = kind; spec = spec.now; rest = rest; inbox = inbox.now; unsent = unsent.now })) }
{
    let len = 28 + (inbox.len() + unsent.len()) as u32;
    push_head(out, RecordType::Connection, len)?;
    push_connection(out, conn, kind, spec, rest, inbox, unsent)?;
    push_padding(out, len)
}

/// Appends the canonical text of WATCH_DATA. A text is given with the NUL that its length counts. O(length of its bytes).
pub fn write_watch(out: &mut Bytes, conn: u32, wpath: &[u8], token: &[u8]) -> Result<(), NoMemory>
    requires wpath { length wpath.now < 2 ^ 16 }
    requires token { length token.now < 2 ^ 16 }
    ensures text { OnOk result (out.new ≡ out.old ++ canonical_record (watch_data
        (record { conn = conn; wpath = wpath.now; token = token.now }))) }
    ensures fit { NumbersFit (watch_data (record { conn = conn; wpath = wpath.now; token = token.now })) }
{
    let len = 8 + (wpath.len() + token.len()) as u32;
    push_head(out, RecordType::Watch, len)?;
    push_watch(out, conn, wpath, token)?;
    push_padding(out, len)
}

/// Appends the canonical text of TRANSACTION_DATA, with its count.
pub fn write_transaction(out: &mut Bytes, conn: u32, tx: u32, count: u32) -> Result<(), NoMemory>
    ensures text { OnOk result (out.new ≡ out.old ++ canonical_record (transaction_data
        (record { conn = conn; tx = tx; count = count }))) }
    ensures fit { NumbersFit (transaction_data (record { conn = conn; tx = tx; count = count })) }
{
    push_head(out, RecordType::Transaction, 12)?;
    push_transaction(out, conn, tx, count)?;
    push_padding(out, 12)
}

/// Appends the canonical text of NODE_DATA. The path is given with the NUL that its length counts. O(length of its bytes
/// and entries).
pub fn write_node(
    out: &mut Bytes,
    conn: u32,
    tx: u32,
    access: u16,
    perms: &[RawPerm],
    path: &[u8],
    value: &[u8],
) -> Result<(), NoMemory>
    requires perms { length perms.now < 2 ^ 16 }
    requires path { length path.now < 2 ^ 16 }
    requires value { length value.now < 2 ^ 16 }
    ensures text { OnOk result (out.new ≡ out.old ++ canonical_record (node_data
        (record { conn = conn; tx = tx; access = access; perms = perms.now; path = path.now; value = value.now }))) }
    ensures fit { OnOk result (NumbersFit (node_data
        (record { conn = conn; tx = tx; access = access; perms = perms.now; path = path.now; value = value.now }))) }
{
    let len = 16 + (4 * perms.len() + path.len() + value.len()) as u32;
    push_head(out, RecordType::Node, len)?;
    push_node(out, conn, tx, access, perms, path, value)?;
    push_padding(out, len)
}

/// Appends END, which comes last.
pub fn write_end(out: &mut Bytes) -> Result<(), NoMemory>
    ensures { OnOk result (out.new ≡ out.old ++ canonical_record end_record) }
{
    push_head(out, RecordType::End, 0)
}

// A record without surplus, its padding zero.
fn write_record(out: &mut Bytes, item: &Record) -> Result<(), NoMemory>
    requires { LengthsFit (record_of item.now) }
    ensures text { OnOk result (out.new ≡ out.old ++ canonical_record (record_of item.now)) }
    ensures fit { OnOk result (NumbersFit (record_of item.now)) }
{
    match item {
        Record::End => write_end(out),
        Record::Global {
            rw_socket_fd,
            evtchn_fd,
        } => write_global(out, *rw_socket_fd, *evtchn_fd),
        Record::Connection {
            conn,
            kind,
            spec,
            rest,
            inbox,
            unsent,
        } => write_connection(
            out,
            *conn,
            *kind,
            spec,
            *rest,
            inbox.as_slice(),
            unsent.as_slice(),
        ),
        Record::Watch { conn, wpath, token } => {
            write_watch(out, *conn, wpath.as_slice(), token.as_slice())
        }
        Record::Transaction { conn, tx, count } => write_transaction(out, *conn, *tx, *count),
        Record::Node {
            conn,
            tx,
            access,
            perms,
            path,
            value,
        } => write_node(
            out,
            *conn,
            *tx,
            *access,
            perms.as_slice(),
            path.as_slice(),
            value.as_slice(),
        ),
    }
}

/// The canonical stream of the records: pads, padding and flags are zero, and no body has surplus bytes.
///
/// END has to be the last record and no other one, and the lengths of the records have to fit their fields: 16
/// bits for a text, the value and the number of entries of a watch or a node, 32 bits for the body of a
/// connection, which has 28 bytes beside its two rows of bytes. O(length of the stream).
pub fn write_stream(alloc: Global, records: &Records) -> Result<Bytes, NoMemory>
    requires ends { EndsOnce (records_of records.now) }
    requires lengths { AllByRecursion LengthsFit (records_of records.now) }
    ensures text { IfOk result (λ bytes. bytes ≡ canonical (records_of records.now)) }
    ensures stream { IfOk result (λ bytes. IsStream bytes (records_of records.now)) }
{
    let mut out = Bytes::new(alloc);
    write_header(&mut out)?;
    for item in records.as_slice() {
        write_record(&mut out, item)?;
    }
    Ok(out)
}
