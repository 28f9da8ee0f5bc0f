//! The forms of an input.

ghost use Rattle.std.specs.Prelude.{◌≡◌, ◌<◌, length, map, string_bytes, None, Some, IfOk, IfSome, IsSome};
ghost use Rattle.text_model.specs.Hex.{hex_value, digit_value, bad_hex_from, paired};
ghost use Rattle.stream_view.specs.Shown.{form_of, form_of_word, is_blank, digits_of, bytes_given};

use std::alloc::Global;
use xs_base::{Bytes, NoMemory};

/// How an input gives the bytes of a stream.
#[derive(Clone, Copy, Debug, PartialEq, Eq)]
pub enum Form {
    /// It is these bytes.
    Raw,
    /// It spells them in hexadecimal digits, with spaces and line feeds between digits.
    Hex,
}

/// The form that words ask for, if they are the one word of a form.
pub fn form_of(words: &[String]) -> Option<Form>
    ensures { result ≡ form_of (map string_bytes words.now) }
{
    if words.len() != 1 {
        return None;
    }
    form_of_word(words[0].as_str())
}

fn form_of_word(word: &str) -> Option<Form>
    ensures { result ≡ form_of_word word.now }
{
    if word == "raw" {
        Some(Form::Raw)
    } else if word == "hex" {
        Some(Form::Hex)
    } else {
        None
    }
}

fn is_blank(byte: u8) -> bool
    ensures { result ≡ is_blank byte }
{
    byte == b' ' || byte == b'\n'
}

// What a digit of either case stands for, if the byte is one.
fn value_of(byte: u8) -> Option<u8>
    ensures { result ≡ hex_value byte }
{
    match byte {
        b'0'..=b'9' => Some(byte - b'0'),
        b'a'..=b'f' => Some(byte - b'a' + 10),
        b'A'..=b'F' => Some(byte - b'A' + 10),
        _ => None,
    }
}

// How many digits a text has, if each other byte of it is blank.
fn count_of_digits(text: &[u8]) -> Option<usize>
    ensures digits { IfSome result (λ count. (bad_hex_from 0 (digits_of text.now) ≡ None) × (count ≡ length (digits_of text.now))) }
    ensures other { result ≡ None → IsSome (bad_hex_from 0 (digits_of text.now)) }
{
    let mut count = 0;
    for byte in text {
        if value_of(*byte).is_some() {
            count += 1;
        } else if !is_blank(*byte) {
            return None;
        }
    }
    Some(count)
}

// What a digit stands for, and 0 for another byte.
fn nibble(byte: u8) -> u8
    ensures value { result ≡ digit_value (hex_value byte) }
    ensures small { result < 16 }
{
    value_of(byte).unwrap_or(0)
}

// The bytes that digits spell, two each, with blanks between them; `count` of them are expected.
fn paired(alloc: Global, count: usize, text: &[u8]) -> Result<Vec<u8>, NoMemory>
    ensures { IfOk result (λ bytes. bytes.items ≡ paired (digits_of text.now)) }
{
    let mut bytes = Vec::with_capacity(alloc, count)?;
    let mut high = None;
    for byte in text {
        if is_blank(*byte) {
            continue;
        }
        match high {
            None => high = Some(*byte),
            Some(first) => {
                bytes.push(16 * nibble(first) + nibble(*byte))?;
                high = None;
            }
        }
    }
    Ok(bytes)
}

/// Why an input gives no bytes.
#[derive(Clone, Copy, Debug, PartialEq, Eq)]
pub enum FormFault {
    /// It is not spelled in its form.
    NotSpelled,
    /// No memory was found for the bytes.
    NoMemory,
}

/// The bytes that an input gives by its form. An input that is not spelled in its form is refused before any memory is
/// taken. O(their number), in two passes over digits.
pub fn bytes_given(alloc: Global, form: Form, input: Bytes) -> Result<Bytes, FormFault>
    ensures ok { IfOk result (λ bytes. bytes_given form input ≡ Some bytes) }
    ensures not_spelled { result ≡ Err FormFault.NotSpelled → (form ≡ Form.Hex) × (bytes_given Form.Hex input ≡ None) }
    ensures no_memory { result ≡ Err FormFault.NoMemory → IsSome (bytes_given form input) }
{
    match form {
        Form::Raw => Ok(input),
        Form::Hex => bytes_of_digits(alloc, input.as_slice()),
    }
}

fn bytes_of_digits(alloc: Global, text: &[u8]) -> Result<Bytes, FormFault>
    ensures ok { IfOk result (λ bytes. bytes_given Form.Hex text.now ≡ Some bytes) }
    ensures not_spelled { result ≡ Err FormFault.NotSpelled → bytes_given Form.Hex text.now ≡ None }
    ensures no_memory { result ≡ Err FormFault.NoMemory → IsSome (bytes_given Form.Hex text.now) }
{
    let Some(count) = count_of_digits(text) else {
        return Err(FormFault::NotSpelled);
    };
    if !count.is_multiple_of(2) {
        return Err(FormFault::NotSpelled);
    }
    match paired(alloc, count / 2, text) {
        Ok(bytes) => Ok(Bytes::from_vec(bytes)),
        Err(NoMemory) => Err(FormFault::NoMemory),
    }
}
