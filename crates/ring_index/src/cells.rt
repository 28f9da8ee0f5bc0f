//! Runs of bytes that may go past the end of a ring's cells and on at their front.

ghost use Rattle.std.specs.Prelude.{◌≡◌, ◌<◌, ◌≤◌, length, take};
ghost use Rattle.world_model.specs.Rings.{ring_size, cells_from, overwrite_round};

use crate::index::RING_SIZE;

/// Writes the bytes from a place on, in at most two pieces. O(their number).
pub(crate) fn write_round(cells: &mut [u8; 1024], at: usize, bytes: &[u8])
    requires place { at < ring_size }
    requires fits { length bytes.now ≤ ring_size }
    ensures { cells.new ≡ overwrite_round at bytes.now cells.old }
{
    let first = bytes.len().min(RING_SIZE as usize - at);
    let rest = bytes.len() - first;
    cells[at..at + first].copy_from_slice(&bytes[..first]);
    cells[..rest].copy_from_slice(&bytes[first..]);
}

/// Copies the bytes from a place on, in at most two pieces. O(their number).
pub(crate) fn read_round(cells: &[u8; 1024], at: usize, into: &mut [u8])
    requires place { at < ring_size }
    requires fits { length into.old ≤ ring_size }
    ensures { into.new ≡ take (length into.old) (cells_from at cells.now) }
{
    let first = into.len().min(RING_SIZE as usize - at);
    let rest = into.len() - first;
    into[..first].copy_from_slice(&cells[at..at + first]);
    into[first..].copy_from_slice(&cells[..rest]);
}
