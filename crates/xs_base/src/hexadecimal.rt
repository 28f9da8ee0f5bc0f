//! Bytes in hexadecimal.
ghost use Rattle.std.specs.Prelude.{◌≡◌, ◌+◌, ◌*◌, ◌≤◌, ◌<◌, ◌++◌, ◌∷◌, [], length, IfSome, IsOk, IsTrue, None, OnOk, OnErr};
ghost use Rattle.text_model.specs.Hex.{hex, hex_digit, hex_value, bad_hex_from, bytes_of_hex};
ghost use Rattle.xs_base.specs.Memory.{Gives};
ghost use Rattle.xs_base.specs.Digits.{digit_or_16};

use crate::{Bytes, HexFault, NoMemory};
use std::alloc::Global;

/// More than any digit stands for.
const NO_DIGIT: u8 = 16;

/// The bytes that a text spells, two digits each, the high one first. Digits of both cases are read.
///
/// The first byte that is no digit is answered before an odd number of digits. O(length of the text); it takes
/// memory once, for the bytes alone, and a text with a fault is answered by its fault also where there is none.
pub fn read_hex(alloc: Global, text: &[u8]) -> Result<Bytes, HexFault>
    ensures value { Gives HexFault.NoMemory result (bytes_of_hex text.now) }
    ensures fault { (e : HexFault) → bytes_of_hex text.now ≡ Err e → result ≡ Err e }
{
    if let Some(bytes) = spelled(alloc, text) {
        return Ok(Bytes::from_vec(bytes));
    }
    match hex_fault(text) {
        Some(fault) => Err(fault),
        None => Err(HexFault::NoMemory),
    }
}

/// Appends two lower case digits for each byte, the high one first. Refused, the line is as before.
///
/// O(number of bytes); it takes memory once at most.
pub fn push_hex(line: &mut Bytes, bytes: &[u8]) -> Result<(), NoMemory>
    ensures ok { OnOk result (line.new ≡ line.old ++ hex bytes.now) }
    ensures err { OnErr result (line.new ≡ line.old) }
{
    push_hex_between(line, b"", bytes, b"")
}

/// Appends a text, two lower case digits for each byte, and another text. Refused, the line is as before.
///
/// O(number of bytes); it takes memory once at most, and before it appends any of them.
pub fn push_hex_between(
    line: &mut Bytes,
    before: &[u8],
    bytes: &[u8],
    after: &[u8],
) -> Result<(), NoMemory>
    ensures ok { OnOk result (line.new ≡ line.old ++ (before.now ++ (hex bytes.now ++ after.now))) }
    ensures err { OnErr result (line.new ≡ line.old) }
{
    let texts = before.len() + after.len();
    let Some(more) = texts.checked_add(2 * bytes.len()) else {
        return Err(NoMemory);
    };
    line.items.reserve(more)?;
    line.items.extend_from_slice(before).unwrap();
    let start = line.items.len();
    line.items.resize(start + 2 * bytes.len(), 0).unwrap();
    write_digits(&mut line.items[start..], bytes);
    line.items.extend_from_slice(after).unwrap();
    Ok(())
}

/// The two lower case digits of a byte, the high one first.
pub fn hex_pair(byte: u8) -> [u8; 2]
    ensures { result ≡ hex (byte ∷ []) }
{
    [digit_of(byte / 16), digit_of(byte % 16)]
}

// Why a text spells no bytes, if it does not.
fn hex_fault(text: &[u8]) -> Option<HexFault>
    ensures none { result ≡ None → IsOk (bytes_of_hex text.now) }
    ensures fault { IfSome result (λ e. bytes_of_hex text.now ≡ Err e) }
{
    if let Some(at) = bad_digit(text) {
        return Some(HexFault::BadDigit { at });
    }
    if !text.len().is_multiple_of(2) {
        return Some(HexFault::Odd);
    }
    None
}

// The place of the first byte that is no digit.
fn bad_digit(text: &[u8]) -> Option<usize>
    ensures { result ≡ bad_hex_from 0 text.now }
{
    for (at, byte) in text.iter().enumerate() {
        if value_of(*byte) == NO_DIGIT {
            return Some(at);
        }
    }
    None
}

// What a digit stands for, and 16 for a byte that is none.
fn value_of(byte: u8) -> u8
    ensures value { result ≡ digit_or_16 (hex_value byte) }
    ensures bound { result ≤ 16 }
{
    let digit = byte.wrapping_sub(b'0');
    let lower = byte.wrapping_sub(b'a');
    let upper = byte.wrapping_sub(b'A');
    if digit < 10 {
        digit
    } else if lower < 6 {
        10 + lower
    } else if upper < 6 {
        10 + upper
    } else {
        NO_DIGIT
    }
}

// The bytes that a text spells; none where it has a fault, or no memory was found.
fn spelled(alloc: Global, text: &[u8]) -> Option<Vec<u8>>
    ensures { IfSome result (λ bytes. bytes_of_hex text.now ≡ Ok bytes.items) }
{
    if !text.len().is_multiple_of(2) {
        return None;
    }
    let mut bytes = vec![in alloc; 0u8; text.len() / 2].ok()?;
    if read_pairs(text, &mut bytes) {
        Some(bytes)
    } else {
        None
    }
}

// Writes the byte of each two digits, and says whether all of them were digits.
fn read_pairs(text: &[u8], into: &mut [u8]) -> bool
    requires { length text.now ≡ 2 * length into.old }
    ensures { IsTrue result → bytes_of_hex text.now ≡ Ok into.new }
{
    let mut most = 0u8;
    for i in 0..into.len() {
        let high = value_of(text[2 * i]);
        let low = value_of(text[2 * i + 1]);
        into[i] = high % 16 * 16 + low % 16;
        most = most.max(high).max(low);
    }
    most < NO_DIGIT
}

fn digit_of(value: u8) -> u8
    requires { value < 16 }
    ensures { result ≡ hex_digit value }
{
    if value < 10 {
        b'0' + value
    } else {
        b'a' + (value - 10)
    }
}

// Writes the two digits of each byte.
fn write_digits(into: &mut [u8], bytes: &[u8])
    requires { length into.old ≡ 2 * length bytes.now }
    ensures { into.new ≡ hex bytes.now }
{
    for i in 0..bytes.len() {
        into[2 * i] = digit_of(bytes[i] / 16);
        into[2 * i + 1] = digit_of(bytes[i] % 16);
    }
}
