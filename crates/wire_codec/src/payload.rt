//! The strings, paths and permission entries of a payload.

ghost use Rattle.std.specs.Prelude.{◌≡◌, ◌≤◌, ◌+◌, List, [], ℕ, Some, true, length, drop, take, is_some, option_map, option_and_then, IfOk};
ghost use Rattle.xs_model.specs.Requests.{cut_string, one_string, two_strings, last_field, ok_value, one_path, perms_of};
ghost use Rattle.text_model.specs.Decimal.{number_of};
ghost use Rattle.xs_model.specs.Paths.{path_of};
ghost use Rattle.wire_codec.specs.Codec.{cut_view, strings_view, is_root_text, IsPathOf, IsPart};

use crate::request::RequestErr;
use std::alloc::Global;
use xs_base::{NoMemory, read_decimal};
use xs_path::{Path, PathFault};
use xs_perms::{Perms, read_perm};

/// The bytes before the first NUL, and those after it. O(the former).
pub fn cut_string(payload: &[u8]) -> Option<(&[u8], &[u8])>
    ensures { option_map cut_view result ≡ cut_string payload.now }
{
    for (i, byte) in payload.iter().enumerate() {
        if *byte == 0 {
            return Some((&payload[..i], after(payload, i)));
        }
    }
    None
}

/// The bytes behind a place.
fn after(bytes: &[u8], i: usize) -> &[u8]
    requires { i + 1 ≤ length bytes.now }
    ensures { result.now ≡ drop (i + 1) bytes.now }
{
    &bytes[i + 1..]
}

/// The bytes of a payload that is exactly one string.
pub fn one_string(payload: &[u8]) -> Option<&[u8]>
    ensures { option_map (λ s. s.now) result ≡ one_string payload.now }
{
    let (string, rest) = cut_string(payload)?;
    if rest.is_empty() { Some(string) } else { None }
}

/// Two strings, and the bytes after them. O(the former).
pub fn two_strings(payload: &[u8]) -> Option<(&[u8], &[u8], &[u8])>
    ensures { option_map strings_view result ≡ two_strings payload.now }
{
    let (first, behind) = cut_string(payload)?;
    let (second, rest) = cut_string(behind)?;
    Some((first, second, rest))
}

/// The last field of a payload: its bytes to the end, or to a NUL behind which nothing stands.
pub fn last_field(bytes: &[u8]) -> Option<&[u8]>
    ensures { option_map (λ field. field.now) result ≡ last_field bytes.now }
{
    let Some((field, behind)) = cut_string(bytes) else {
        return Some(bytes);
    };
    if behind.is_empty() { Some(field) } else { None }
}

/// The offset that the last field of a payload is: a number of 64 bits.
pub fn offset(bytes: &[u8]) -> Option<u64>
    ensures { result ≡ option_and_then (λ digits. ok_value (number_of 18446744073709551615 digits)) (last_field bytes.now) }
{
    let digits = last_field(bytes)?;
    match read_decimal(digits, u64::MAX) {
        Ok(offset) => Some(offset),
        Err(_) => None,
    }
}

/// Whether bytes are the text of the path `/`.
pub fn is_root(bytes: &[u8]) -> bool
    ensures { result ≡ is_root_text bytes.now }
{
    bytes.len() == 1 && bytes[0] == b'/'
}

/// The path that a domain's bytes are. Bytes that are none are refused as such, before memory is taken.
pub fn path(alloc: Global, bytes: &[u8], domid: u16) -> Result<Path, RequestErr>
    requires { domid ≤ 32751 }
    ensures { IsPathOf result (path_of bytes.now domid) }
{
    match Path::read(alloc, bytes, domid) {
        Ok(path) => Ok(path),
        Err(PathFault::NoMemory) => Err(RequestErr::NoMemory),
        Err(_) => Err(RequestErr::Einval),
    }
}

/// The path of a payload that is exactly one string.
pub fn one_path(alloc: Global, payload: &[u8], domid: u16) -> Result<Path, RequestErr>
    requires { domid ≤ 32751 }
    ensures { IsPart result (one_path payload.now domid) }
{
    let Some(bytes) = one_string(payload) else {
        return Err(RequestErr::Einval);
    };
    path(alloc, bytes, domid)
}

/// Whether bytes are entries, of which each is a string, one or more, to the end. It takes no memory. O(bytes).
pub fn are_perms(bytes: &[u8]) -> bool
    ensures { result ≡ is_some (perms_of [] bytes.now) }
{
    let mut rest = bytes;
    'entries: loop {
        let Some((string, behind)) = cut_string(rest) else {
            return false;
        };
        let Ok(_perm) = read_perm(string) else {
            return false;
        };
        if behind.is_empty() {
            return true;
        }
        rest = behind;
    }
}

/// The entries that bytes are. O(bytes).
pub fn perms(alloc: Global, bytes: &[u8]) -> Result<Perms, NoMemory>
    requires { is_some (perms_of [] bytes.now) ≡ true }
    ensures { IfOk result (λ perms. perms_of [] bytes.now ≡ Some perms) }
{
    let mut perms = Perms::new(alloc);
    let mut rest = bytes;
    'entries: loop {
        let Some((string, behind)) = cut_string(rest) else {
            unreachable!()
        };
        let Ok(perm) = read_perm(string) else {
            unreachable!()
        };
        perms.push(perm)?;
        if behind.is_empty() {
            return Ok(perms);
        }
        rest = behind;
    }
}
