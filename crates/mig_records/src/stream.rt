//! Reading a stream, record by record.
ghost use Rattle.std.specs.Prelude.{◌≡◌, ◌≢◌, ◌+◌, ◌≤◌, ◌⊎◌, ℕ, List, length, drop, IfOk, IfErr, IfSome, IsOk, MatchResult};
ghost use Rattle.std.specs.Result.{result_err};
ghost use Rattle.stream_model.specs.declared.fault.StreamFault.{StreamFault as Fault};
ghost use Rattle.stream_model.specs.Record.{StreamRecord, is_end};
ghost use Rattle.stream_model.specs.Spelling.{IsStream};
ghost use Rattle.stream_model.specs.Reading.{header_fault, record_in, records_from, stream_of};
ghost use Rattle.stream_model.specs.Faults.{IsFirstFault};
ghost use Rattle.mig_records.specs.RecordView.{records_of, Reads};

use crate::fields::{behind, part, u32_at};
use crate::places::whole_size;
use crate::reader::Reader;
use crate::record::Records;
use crate::testing::kind_at;
use byteorder::{BigEndian, ByteOrder};
use std::alloc::Global;
use stream_model::{RecordType, StreamFault};

fn header_fault(bytes: &[u8]) -> Option<StreamFault>
    ensures is { result ≡ header_fault bytes.now }
    ensures named { IfSome result (λ fault. fault ≢ StreamFault.NoMemory) }
{
    if !bytes.starts_with(b"xenstore") {
        return Some(StreamFault::BadIdent);
    }
    if bytes.len() < 16 {
        return Some(StreamFault::Cut { at: 0 });
    }
    let version = BigEndian::read_u32(behind(bytes, 8));
    if version != 1 {
        return Some(StreamFault::BadVersion(version));
    }
    if !part(bytes, 12, 4).iter().all(|byte| *byte == 0) {
        return Some(StreamFault::BadFlags);
    }
    None
}

fn is_end(kind: RecordType) -> bool
    ensures { (body : List ℕ) → result ≡ is_end (record_in kind body) }
{
    match kind {
        RecordType::End => true,
        RecordType::Global
        | RecordType::Connection
        | RecordType::Watch
        | RecordType::Transaction
        | RecordType::Node => false,
    }
}

// The first fault behind the header, if one is there.
fn fault_behind(bytes: &[u8]) -> Option<StreamFault>
    requires { 16 ≤ length bytes.now }
    ensures is { result ≡ result_err (records_from 16 0 (drop 16 bytes.now)) }
    ensures named { IfSome result (λ fault. fault ≢ StreamFault.NoMemory) }
{
    let mut at = 16;
    loop {
        let rest = behind(bytes, at);
        let kind = match kind_at(at, rest) {
            Ok(kind) => kind,
            Err(fault) => return Some(fault),
        };
        at += whole_size(u32_at(rest, 4));
        if is_end(kind) {
            break;
        }
    }
    if at < bytes.len() {
        return Some(StreamFault::AfterEnd { at });
    }
    None
}

// The first fault of the bytes, if they are no stream.
pub(crate) fn first_fault(bytes: &[u8]) -> Option<StreamFault>
    ensures is { result ≡ result_err (stream_of bytes.now) }
    ensures named { IfSome result (λ fault. fault ≢ StreamFault.NoMemory) }
{
    match header_fault(bytes) {
        Some(fault) => Some(fault),
        None => fault_behind(bytes),
    }
}

/// The records that the bytes are a stream of, or the first fault of the bytes and its place.
///
/// A body may be up to seven bytes longer than its fields ask for; those bytes, pads and padding may hold
/// anything. Each record is tested in this order: its eight bytes of type and length are there, the type is
/// known, the whole record is there with its padding, its length is one that its fields allow. All records are
/// tested before any memory is taken, so a fault is never told as want of memory. O(length of the bytes) in two
/// passes.
pub fn read_stream(alloc: Global, bytes: &[u8]) -> Result<Records, StreamFault>
    // The bytes are a stream of what was read.
    ensures found { IfOk result (λ records. IsStream bytes.now (records_of records)) }
    // A stream of records is read as these, unless no memory is found.
    ensures only { (records : List StreamRecord) → IsStream bytes.now records
        → MatchResult result (λ found. records_of found ≡ records) (λ fault. fault ≡ StreamFault.NoMemory) }
    // Where the bytes have a fault, the answer is their first one.
    ensures always { (fault : Fault) → IsFirstFault bytes.now fault → result ≡ Err fault }
    // A refusal names the first fault; want of memory is told of a stream alone.
    ensures fault { IfErr result (λ fault. (fault ≡ StreamFault.NoMemory) ⊎ IsFirstFault bytes.now fault) }
    ensures no_memory { result ≡ Err StreamFault.NoMemory → (records : List StreamRecord) × IsStream bytes.now records }
    // What was read or refused is what the bytes read as.
    ensures exact { Reads records_of result (stream_of bytes.now) }
{
    all_records(alloc, bytes)
}

fn all_records(alloc: Global, bytes: &[u8]) -> Result<Records, StreamFault>
    ensures exact { Reads records_of result (stream_of bytes.now) }
    ensures no_memory { result ≡ Err StreamFault.NoMemory → IsOk (stream_of bytes.now) }
{
    let mut reader = Reader::new(bytes)?;
    let mut records = Records::new(alloc);
    while let Some(item) = reader.next(alloc)? {
        records.push(item)?;
    }
    Ok(records)
}
