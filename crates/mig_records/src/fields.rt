//! Numbers at fixed places: of a record's body, or of the eight bytes that tell a connection's kind. All are little
//! endian. O(1).
ghost use Rattle.std.specs.Prelude.{◌≡◌, ◌+◌, ◌≤◌, length, take, drop};
ghost use Rattle.stream_model.specs.Fields.{u16_at, u32_at, i32_at, part};

use byteorder::{ByteOrder, LittleEndian};

// What stands from a place on.
pub(crate) fn behind(bytes: &[u8], place: usize) -> &[u8]
    requires { place ≤ length bytes.now }
    ensures { result.now ≡ drop place bytes.now }
{
    bytes.split_at(place).1
}

// So many bytes from a place on.
pub(crate) fn part(bytes: &[u8], place: usize, len: usize) -> &[u8]
    requires { place + len ≤ length bytes.now }
    ensures { result.now ≡ part place len bytes.now }
{
    behind(bytes, place).split_at(len).0
}

/// The number in the two bytes from a place on.
pub fn u16_at(bytes: &[u8], place: usize) -> u16
    requires { place + 2 ≤ length bytes.now }
    ensures { result ≡ u16_at place bytes.now }
{
    LittleEndian::read_u16(behind(bytes, place))
}

/// The number in the four bytes from a place on.
pub fn u32_at(bytes: &[u8], place: usize) -> u32
    requires { place + 4 ≤ length bytes.now }
    ensures { result ≡ u32_at place bytes.now }
{
    LittleEndian::read_u32(behind(bytes, place))
}

pub(crate) fn i32_at(bytes: &[u8], place: usize) -> i32
    requires { place + 4 ≤ length bytes.now }
    ensures { result ≡ i32_at place bytes.now }
{
    u32_at(bytes, place).cast_signed()
}
