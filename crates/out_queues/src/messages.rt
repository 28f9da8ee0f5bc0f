//! Where messages begin and end in a list of bytes (xs_wire.h).

ghost use Rattle.std.specs.Prelude.{◌≡◌, ◌≤◌, length, drop, true};
ghost use Rattle.xs_model.specs.Messages.{word_at};
ghost use Rattle.xs_model.specs.Wholes.{message_length, begins_message, whole_behind, rest_after};

use byteorder::{ByteOrder, LittleEndian};
use xs_model::message::{HEADER_SIZE, PAYLOAD_MAX};

/// The bytes from a place on.
pub(crate) fn from(bytes: &[u8], at: usize) -> &[u8]
    requires { at ≤ length bytes.now }
    ensures { result.now ≡ drop at bytes.now }
{
    &bytes[at..]
}

/// The length in the header that begins here.
fn payload_len(bytes: &[u8]) -> u32
    requires { 16 ≤ length bytes.now }
    ensures { result ≡ word_at 12 bytes.now }
{
    LittleEndian::read_u32(from(bytes, 12))
}

/// How many bytes the message has that begins here.
fn message_len(bytes: &[u8]) -> usize
    requires { 16 ≤ length bytes.now }
    ensures { result ≡ message_length bytes.now }
{
    HEADER_SIZE + payload_len(bytes) as usize
}

/// Whether a whole message begins here.
fn begins_message(bytes: &[u8]) -> bool
    ensures { result ≡ begins_message bytes.now }
{
    bytes.len() >= HEADER_SIZE
        && payload_len(bytes) as usize <= PAYLOAD_MAX
        && message_len(bytes) <= bytes.len()
}

/// Whether whole messages, and nothing else, stand behind the first bytes. O(number of messages).
pub(crate) fn whole_behind(rest: usize, bytes: &[u8]) -> bool
    ensures { result ≡ whole_behind rest bytes.now }
{
    if rest > bytes.len() {
        return false;
    }
    let mut left = from(bytes, rest);
    while !left.is_empty() {
        if !begins_message(left) {
            return false;
        }
        left = from(left, message_len(left));
    }
    true
}

/// How many bytes are left of the message in front once `count` bytes went, of which there were `rest` before.
/// O(number of messages that went).
pub(crate) fn rest_after(rest: usize, count: usize, bytes: &[u8]) -> usize
    requires whole { whole_behind rest bytes.now ≡ true }
    requires within { count ≤ length bytes.now }
    ensures { result ≡ rest_after rest count bytes.now }
{
    let mut left = rest;
    let mut at = 0;
    while left < count - at {
        at += left;
        left = message_len(from(bytes, at));
    }
    left - (count - at)
}
