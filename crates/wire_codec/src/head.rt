//! Headers, and whole messages.

ghost use Rattle.std.specs.Prelude.{◌≡◌, ◌≤◌, ◌-◌, ◌+◌, ◌++◌, ℕ, length, drop, take, IfOk};
ghost use Rattle.xs_model.specs.Messages.{header_of, header_bytes, word_at};

use byteorder::{ByteOrder, LittleEndian};
use std::alloc::Global;
use xs_base::{Bytes, NoMemory};
use xs_model::message::{HEADER_SIZE, Header, MESSAGE_MAX, PAYLOAD_MAX};

/// The number in the 32 bits from a place on.
fn word(bytes: &[u8; HEADER_SIZE], at: usize) -> u32
    requires { at ≤ 12 }
    ensures { result ≡ word_at at bytes.now }
{
    LittleEndian::read_u32(&bytes[at..])
}

/// The header that 16 bytes are. Any bytes are one. O(1).
pub fn read_header(bytes: &[u8; HEADER_SIZE]) -> Header
    ensures { result ≡ header_of bytes.now }
{
    Header {
        kind: word(bytes, 0),
        req_id: word(bytes, 4),
        tx_id: word(bytes, 8),
        len: word(bytes, 12),
    }
}

/// The 16 bytes of a header.
fn head_bytes(head: &Header) -> [u8; HEADER_SIZE]
    ensures { result ≡ header_bytes head.now }
{
    let mut bytes = [0; 16];
    LittleEndian::write_u32(&mut bytes[0..4], head.kind);
    LittleEndian::write_u32(&mut bytes[4..8], head.req_id);
    LittleEndian::write_u32(&mut bytes[8..12], head.tx_id);
    LittleEndian::write_u32(&mut bytes[12..16], head.len);
    bytes
}

/// The bytes of a message, in one allocation. O(length of the payload).
pub fn write_message(alloc: Global, head: Header, payload: &[u8]) -> Result<Bytes, NoMemory>
    requires len { head.len ≡ length payload.now }
    requires fits { length payload.now ≤ PAYLOAD_MAX }
    ensures { IfOk result (λ bytes. bytes ≡ header_bytes head ++ payload.now) }
{
    let mut bytes = Vec::with_capacity(alloc, HEADER_SIZE + payload.len())?;
    bytes.extend_from_slice(&head_bytes(&head))?;
    bytes.extend_from_slice(payload)?;
    Ok(Bytes::from_vec(bytes))
}

/// Writes a message to the first bytes of `into`, and says how many these are. It takes no memory. O(length of the
/// payload).
pub fn put_message(head: Header, payload: &[u8], into: &mut [u8; MESSAGE_MAX]) -> usize
    requires len { head.len ≡ length payload.now }
    requires fits { length payload.now ≤ PAYLOAD_MAX }
    ensures count { result ≡ HEADER_SIZE + length payload.now }
    ensures bytes { take result into.new ≡ header_bytes head ++ payload.now }
{
    overwrite(into, 0, &head_bytes(&head));
    overwrite(into, HEADER_SIZE, payload);
    HEADER_SIZE + payload.len()
}

/// Writes bytes over those from a place on.
fn overwrite(into: &mut [u8; MESSAGE_MAX], at: usize, bytes: &[u8])
    requires { at + length bytes.now ≤ MESSAGE_MAX }
    ensures { into.new ≡ take at into.old ++ (bytes.now ++ drop (at + length bytes.now) into.old) }
{
    into[at..at + bytes.len()].copy_from_slice(bytes);
}
