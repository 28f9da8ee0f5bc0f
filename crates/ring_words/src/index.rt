//! The indices of a ring.

ghost use Rattle.std.specs.Prelude.{◌≡◌};
ghost use Rattle.ring_words.specs.Indices.{used_unless_bad};

use thiserror::Error;

/// Bytes of a ring (xenstore-ring.txt).
pub const RING_SIZE: u32 = 1024;

/// Indices that no ring has: they are more than 1024 apart.
#[derive(Clone, Copy, Debug, PartialEq, Eq, Error)]
#[error("no ring has the indices {prod} and {cons}")]
pub struct BadIndex {
    /// Where the next byte is put.
    pub prod: u32,
    /// Where the next byte is taken.
    pub cons: u32,
}

/// How many bytes a ring with these indices holds: `prod - cons`, wrapping, which is at most 1024. O(1).
pub fn used(prod: u32, cons: u32) -> Result<u32, BadIndex>
    ensures { result ≡ used_unless_bad prod cons }
{
    let used = prod.wrapping_sub(cons);
    if used > RING_SIZE {
        return Err(BadIndex { prod, cons });
    }
    Ok(used)
}
