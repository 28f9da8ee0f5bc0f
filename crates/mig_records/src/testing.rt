//! Whether a record stands at a place, and its first fault if none does. No memory is taken.
ghost use Rattle.std.specs.Prelude.{◌≡◌, ◌≢◌, ◌+◌, ◌^◌, ◌<◌, ◌≤◌, length, IfOk, IfErr, OnOk};
ghost use Rattle.stream_model.specs.Fields.{u32_at, part};
ghost use Rattle.stream_model.specs.Spelling.{whole_size};
ghost use Rattle.stream_model.specs.Reading.{type_with, fixed_part, need_in, record_in, body_record, typed_record, record_at};

use crate::fields::{part, u16_at, u32_at};
use crate::places::whole_size;
use stream_model::{RecordType, StreamFault};

fn type_with(number: u32) -> Option<RecordType>
    ensures { result ≡ type_with number }
{
    match number {
        0 => Some(RecordType::End),
        1 => Some(RecordType::Global),
        2 => Some(RecordType::Connection),
        3 => Some(RecordType::Watch),
        4 => Some(RecordType::Transaction),
        5 => Some(RecordType::Node),
        _ => None,
    }
}

fn fixed_part(kind: RecordType) -> usize
    ensures { result ≡ fixed_part kind }
{
    match kind {
        RecordType::End => 0,
        RecordType::Global | RecordType::Watch | RecordType::Transaction => 8,
        RecordType::Connection => 28,
        RecordType::Node => 16,
    }
}

// How many bytes the fields of a body ask for; where the fixed part is not there, that part.
fn need_in(kind: RecordType, body: &[u8]) -> u64
    ensures { result ≡ need_in kind body.now }
{
    let fixed = fixed_part(kind);
    if body.len() < fixed {
        return fixed as u64;
    }
    match kind {
        RecordType::End => 0,
        RecordType::Global | RecordType::Transaction => 8,
        RecordType::Connection => 28 + u64::from(u32_at(body, 16)) + u64::from(u32_at(body, 24)),
        RecordType::Watch => 8 + u64::from(u16_at(body, 4)) + u64::from(u16_at(body, 6)),
        RecordType::Node => {
            16 + 4 * u64::from(u16_at(body, 14))
                + u64::from(u16_at(body, 8))
                + u64::from(u16_at(body, 10))
        }
    }
}

// A body has what its fields ask for, and up to seven bytes more.
fn test_body(at: usize, kind: RecordType, body: &[u8]) -> Result<(), StreamFault>
    requires { length body.now < 2 ^ 32 }
    ensures read { OnOk result (body_record at kind (need_in kind body.now) body.now ≡ Ok (record_in kind body.now)) }
    ensures need { OnOk result (need_in kind body.now ≤ length body.now) }
    ensures fault { IfErr result (λ fault. body_record at kind (need_in kind body.now) body.now ≡ Err fault) }
    ensures named { IfErr result (λ fault. fault ≢ StreamFault.NoMemory) }
{
    let need = need_in(kind, body);
    let len = body.len() as u32;
    if u64::from(len) < need || need + 7 < u64::from(len) {
        return Err(StreamFault::BadLength { at, need, len });
    }
    Ok(())
}

// A record of that type, whose type and length are there.
fn test_typed(at: usize, kind: RecordType, bytes: &[u8]) -> Result<(), StreamFault>
    requires { 8 ≤ length bytes.now }
    ensures read { OnOk result (typed_record at (Some kind) bytes.now ≡ Ok (record_in kind (part 8 (u32_at 4 bytes.now) bytes.now))) }
    ensures need { OnOk result (need_in kind (part 8 (u32_at 4 bytes.now) bytes.now) ≤ length (part 8 (u32_at 4 bytes.now) bytes.now)) }
    ensures whole { OnOk result (whole_size (u32_at 4 bytes.now) ≤ length bytes.now) }
    ensures fault { IfErr result (λ fault. typed_record at (Some kind) bytes.now ≡ Err fault) }
    ensures named { IfErr result (λ fault. fault ≢ StreamFault.NoMemory) }
{
    let len = u32_at(bytes, 4);
    if bytes.len() < whole_size(len) {
        return Err(StreamFault::Cut { at });
    }
    test_body(at, kind, part(bytes, 8, len as usize))
}

// The type of the record that the bytes begin with, which stand from the place `at` on, or its first fault.
pub(crate) fn kind_at(at: usize, bytes: &[u8]) -> Result<RecordType, StreamFault>
    ensures read { IfOk result (λ kind. record_at at bytes.now ≡ Ok (record_in kind (part 8 (u32_at 4 bytes.now) bytes.now))) }
    ensures need { IfOk result (λ kind. need_in kind (part 8 (u32_at 4 bytes.now) bytes.now) ≤ length (part 8 (u32_at 4 bytes.now) bytes.now)) }
    ensures whole { OnOk result (whole_size (u32_at 4 bytes.now) ≤ length bytes.now) }
    ensures fault { IfErr result (λ fault. record_at at bytes.now ≡ Err fault) }
    ensures named { IfErr result (λ fault. fault ≢ StreamFault.NoMemory) }
{
    if bytes.len() < 8 {
        return Err(StreamFault::Cut { at });
    }
    let number = u32_at(bytes, 0);
    match type_with(number) {
        None => Err(StreamFault::UnknownType { at, kind: number }),
        Some(kind) => {
            test_typed(at, kind, bytes)?;
            Ok(kind)
        }
    }
}
