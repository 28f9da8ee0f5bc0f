//! Places of records.
ghost use Rattle.std.specs.Prelude.{◌≡◌, ◌+◌, ◌≤◌, length};
ghost use Rattle.stream_model.specs.Spelling.{whole_size};
ghost use Rattle.stream_model.specs.Places.{next_place, IsPlaceBeforeEnd};

use crate::fields::{behind, u32_at};

// The size of a whole record with a body of this length.
pub(crate) fn whole_size(len: u32) -> usize
    ensures { result ≡ whole_size len }
{
    (8 + len as usize + 7) / 8 * 8
}

/// The place behind the record at this place of a stream: that of the next record. Places are byte offsets from
/// the beginning of the stream, and the first record has place 16.
///
/// The bytes have to be a stream, and the record has to stand before END. O(1).
pub fn next_place(bytes: &[u8], at: usize) -> usize
    requires { IsPlaceBeforeEnd bytes.now at }
    ensures place { result ≡ next_place bytes.now at }
    ensures within { result + 8 ≤ length bytes.now }
{
    at + whole_size(u32_at(behind(bytes, at), 4))
}
