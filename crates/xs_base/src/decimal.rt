//! Numbers in decimal.
ghost use Rattle.std.specs.Prelude.{◌≡◌, ◌++◌, ◌≤◌, length, IfOk, OnOk, OnErr};
ghost use Rattle.std.specs.Fmt.{decimal};
ghost use Rattle.text_model.specs.Decimal.{bad_digit_from, digits_number, number_of};

use crate::{Bytes, NoMemory, NumFault};
use itoa::Buffer;

/// The digits of the greatest u64, and the most that a number is read from.
const MAX_DIGITS: usize = 20;

/// The number of at most `max` that a text is: 1 to 20 ASCII digits, leading zeros accepted.
///
/// No byte is answered before a byte that is no digit, and that before a number that is too large. O(length of
/// the text).
pub fn read_decimal(text: &[u8], max: u64) -> Result<u64, NumFault>
    ensures value { result ≡ number_of max text.now }
    ensures within { IfOk result (λ number. number ≤ max) }
{
    if text.is_empty() {
        return Err(NumFault::Empty);
    }
    if let Some(at) = bad_digit(text) {
        return Err(NumFault::BadDigit { at });
    }
    if text.len() > MAX_DIGITS {
        return Err(NumFault::TooLarge);
    }
    let number = number_from(text);
    if number > u128::from(max) {
        return Err(NumFault::TooLarge);
    }
    Ok(number as u64)
}

/// Appends the digits of a number, without leading zeros. Refused, the line is as before. O(1).
pub fn push_decimal(line: &mut Bytes, value: u64) -> Result<(), NoMemory>
    ensures ok { OnOk result (line.new ≡ line.old ++ decimal value) }
    ensures err { OnErr result (line.new ≡ line.old) }
{
    line.push(Buffer::new().format(value).as_bytes())
}

// The place of the first byte that is no digit.
fn bad_digit(text: &[u8]) -> Option<usize>
    ensures { result ≡ bad_digit_from 0 text.now }
{
    for (at, byte) in text.iter().enumerate() {
        if !byte.is_ascii_digit() {
            return Some(at);
        }
    }
    None
}

// The number that digits spell. Any 20 bytes are within bounds.
fn number_from(digits: &[u8]) -> u128
    requires { length digits.now ≤ MAX_DIGITS }
    ensures { result ≡ digits_number 0 digits.now }
{
    let mut number = 0;
    for byte in digits {
        number = 10 * number + u128::from(byte.saturating_sub(b'0'));
    }
    number
}
