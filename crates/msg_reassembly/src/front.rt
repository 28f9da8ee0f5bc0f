//! What stands in front of a list of bytes (xs_wire.h).

ghost use Rattle.std.specs.Prelude.{◌≡◌, ◌≤◌, length, drop};
ghost use Rattle.xs_model.specs.Messages.{word_at};
ghost use Rattle.world_model.specs.Fronts.{front};
ghost use Rattle.msg_reassembly.specs.Inboxes.{front_view, room};

use byteorder::{ByteOrder, LittleEndian};
use xs_model::message::{HEADER_SIZE, PAYLOAD_MAX};

/// What stands in front of an inbox. Lengths are in bytes.
#[derive(Clone, Copy, Debug, PartialEq, Eq)]
pub enum Front {
    /// A message of this length, header and payload, is there whole.
    Whole { len: usize },
    /// Less than a header, or less than the message that it begins.
    Part,
    /// A header whose payload would have this length, which is above 4096.
    TooLong { len: u32 },
}

/// The bytes from a place on.
pub(crate) fn from(bytes: &[u8], at: usize) -> &[u8]
    requires { at ≤ length bytes.now }
    ensures { result.now ≡ drop at bytes.now }
{
    &bytes[at..]
}

/// The length of the payload, by the header that is there.
fn payload_len(bytes: &[u8]) -> u32
    requires { 16 ≤ length bytes.now }
    ensures { result ≡ word_at 12 bytes.now }
{
    LittleEndian::read_u32(from(bytes, 12))
}

/// What stands in front of the bytes. It looks at these bytes alone. O(1).
pub(crate) fn front_of(bytes: &[u8]) -> Front
    ensures { front_view result ≡ front bytes.now }
{
    if bytes.len() < HEADER_SIZE {
        return Front::Part;
    }
    let payload = payload_len(bytes);
    if payload as usize > PAYLOAD_MAX {
        return Front::TooLong { len: payload };
    }
    let len = HEADER_SIZE + payload as usize;
    if bytes.len() < len {
        return Front::Part;
    }
    Front::Whole { len }
}

/// How many bytes are missing to the end of the header or of the message in front. O(1).
pub(crate) fn room_of(bytes: &[u8]) -> usize
    ensures { result ≡ room bytes.now }
{
    if bytes.len() < HEADER_SIZE {
        return HEADER_SIZE - bytes.len();
    }
    let payload = payload_len(bytes) as usize;
    if payload > PAYLOAD_MAX {
        return 0;
    }
    (HEADER_SIZE + payload).saturating_sub(bytes.len())
}
