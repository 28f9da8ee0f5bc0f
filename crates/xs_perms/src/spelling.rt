//! Entries as they are on the wire: a letter and a decimal domain.

ghost use Rattle.std.specs.Prelude.{◌≡◌, ◌<◌, ◌≤◌, drop, take};
ghost use Rattle.std.specs.Fmt.{decimal};
ghost use Rattle.text_model.specs.Decimal.{number_of};
ghost use Rattle.xs_model.specs.Perms.{perm_of, perm_text, perm_with, letter_byte, letter_of};

use crate::{Letter, Perm, PermFault};
use xs_base::read_decimal;

/// The most digits of a domain.
const DIGITS: usize = 5;

/// The entry that a text is: a letter, and a decimal number of at most 65535. Its stale flag is clear. A refusal is
/// the first fault of the text. Costs O(bytes).
pub fn read_perm(text: &[u8]) -> Result<Perm, PermFault>
    ensures { result ≡ perm_of text.now }
{
    if text.is_empty() {
        return Err(PermFault::BadLetter);
    }
    match letter_of(text[0]) {
        Some(letter) => perm_with(letter, &text[1..]),
        None => Err(PermFault::BadLetter),
    }
}

/// Writes an entry in front, and says how many bytes it takes, at most 6. The bytes behind them are as before. The
/// stale flag is not shown. Costs O(1).
pub fn print_perm(perm: Perm, into: &mut [u8; 6]) -> usize
    ensures within { result ≤ 6 }
    ensures text { take result into.new ≡ perm_text perm }
    ensures rest { drop result into.new ≡ drop result into.old }
{
    let mut digits = [0u8; DIGITS];
    let start = write_digits(perm.domid, &mut digits);
    let end = 1 + DIGITS - start;
    into[0] = letter_byte(perm.letter);
    into[1..end].copy_from_slice(&digits[start..]);
    end
}

/// The letter that a byte is, if it is one.
fn letter_of(byte: u8) -> Option<Letter>
    ensures { result ≡ letter_of byte }
{
    match byte {
        b'n' => Some(Letter::N),
        b'r' => Some(Letter::R),
        b'w' => Some(Letter::W),
        b'b' => Some(Letter::B),
        _ => None,
    }
}

/// The byte of a letter.
fn letter_byte(letter: Letter) -> u8
    ensures { result ≡ letter_byte letter }
{
    match letter {
        Letter::N => b'n',
        Letter::R => b'r',
        Letter::W => b'w',
        Letter::B => b'b',
    }
}

/// The entry of a letter and the digits behind it.
fn perm_with(letter: Letter, digits: &[u8]) -> Result<Perm, PermFault>
    ensures { result ≡ perm_with letter (number_of 65535 digits.now) }
{
    match read_decimal(digits, u64::from(u16::MAX)) {
        Ok(number) => Ok(Perm {
            letter,
            stale: false,
            domid: number as u16,
        }),
        Err(_) => Err(PermFault::BadNumber),
    }
}

/// Writes the digits of a number at the end, and says where they begin.
fn write_digits(value: u16, into: &mut [u8; DIGITS]) -> usize
    ensures within { result < DIGITS }
    ensures digits { drop result into.new ≡ decimal value }
{
    let mut start = DIGITS - 1;
    let mut rest = value;
    while rest >= 10 {
        into[start] = b'0' + (rest % 10) as u8;
        rest /= 10;
        start -= 1;
    }
    into[start] = b'0' + rest as u8;
    start
}
