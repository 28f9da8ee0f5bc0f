//! What fields mean: numbers, bytes and words.

ghost use Rattle.std.specs.Prelude.{◌≡◌, codes};
ghost use Rattle.world_model.specs.Scripts.{domid_field, word_field, count_field, hex_field, which_field, the_word};
ghost use Rattle.guest_script.specs.Views.{Reads, seen};

use crate::fault::LineFault;
use std::alloc::Global;
use world_model::{LineKind, Which};
use xs_base::{Bytes, HexFault, read_decimal, read_hex};

/// The greatest domid.
const DOMID_MAX: u64 = 32_751;

/// The most bytes that one event may move.
const COUNT_MAX: u64 = 65_536;

/// A domid: at most 32751.
pub fn domid_field(field: &[u8]) -> Result<u16, LineKind>
    ensures { result ≡ domid_field field.now }
{
    match read_decimal(field, DOMID_MAX) {
        Ok(domid) => Ok(domid as u16),
        Err(_) => Err(LineKind::Number),
    }
}

/// A number of 32 bits.
pub fn word_field(field: &[u8]) -> Result<u32, LineKind>
    ensures { result ≡ word_field field.now }
{
    match read_decimal(field, u64::from(u32::MAX)) {
        Ok(value) => Ok(value as u32),
        Err(_) => Err(LineKind::Number),
    }
}

/// How many bytes an event moves at the most: 1 to 65536.
pub fn count_field(field: &[u8]) -> Result<u32, LineKind>
    ensures { result ≡ count_field field.now }
{
    match read_decimal(field, COUNT_MAX) {
        Ok(0) | Err(_) => Err(LineKind::Number),
        Ok(count) => Ok(count as u32),
    }
}

/// One or more bytes in hexadecimal. O(their number).
pub fn hex_field(alloc: Global, field: &[u8]) -> Result<Bytes, LineFault>
    ensures { Reads (λ bytes. bytes) result (hex_field field.now) }
{
    match read_hex(alloc, field) {
        Ok(bytes) if bytes.is_empty() => Err(LineFault::Kind(LineKind::Hex)),
        Ok(bytes) => Ok(bytes),
        Err(HexFault::NoMemory) => Err(LineFault::NoMemory),
        Err(_) => Err(LineFault::Kind(LineKind::Hex)),
    }
}

/// The name of an index word.
pub fn which_field(field: &[u8]) -> Result<Which, LineKind>
    ensures { result ≡ which_field field.now }
{
    if field == b"req_cons".as_slice() {
        return Ok(Which::ReqCons);
    }
    if field == b"req_prod".as_slice() {
        return Ok(Which::ReqProd);
    }
    if field == b"rsp_cons".as_slice() {
        return Ok(Which::RspCons);
    }
    if field == b"rsp_prod".as_slice() {
        return Ok(Which::RspProd);
    }
    Err(LineKind::Word)
}

/// The word `at`.
pub fn at_field(field: &[u8]) -> Result<(), LineKind>
    ensures { seen (λ _. field.now) result ≡ the_word (codes "at") field.now }
{
    if field == b"at".as_slice() {
        Ok(())
    } else {
        Err(LineKind::Word)
    }
}
