//! The search for a path among entries in order.

ghost use Rattle.std.specs.Prelude.{◌≡◌, true, IfOk, IfErr};
ghost use Rattle.std.specs.FinMap.{is_sorted};
ghost use Rattle.xs_model.specs.Paths.{path_cmp};
ghost use Rattle.path_map.specs.Marks.{IsPastFrom};
ghost use Rattle.path_map.specs.Places.{IsAt, IsGapFor};

use crate::names;
use std::cmp::Ordering;
use xs_path::Path;

/// The place of a path among entries in order, or else the place at which it would stand. One comparison for the last entry
/// and for a path behind it, so that paths that come in order are not searched for.
pub fn place_of<T>(entries: &[(Path, T)], path: &Path) -> Result<usize, usize>
    requires { is_sorted path_cmp entries.now ≡ true }
    ensures found { IfOk result (IsAt path_cmp entries.now path.now) }
    ensures absent { IfErr result (IsGapFor path_cmp entries.now path.now) }
{
    let count = entries.len();
    if count > 0 {
        match entries[count - 1].0.cmp(path) {
            Ordering::Less => return Err(count),
            Ordering::Equal => return Ok(count - 1),
            Ordering::Greater => {}
        }
    }
    entries.binary_search_by(|entry| entry.0.cmp(path))
}

/// The place from which on the paths of entries in order stand behind `path`, and behind all that is at and below its
/// child `leaf` if that is not empty.
pub fn place_past<T>(entries: &[(Path, T)], path: &Path, leaf: &[u8]) -> usize
    requires { is_sorted path_cmp entries.now ≡ true }
    ensures { IsPastFrom path.now leaf.now entries.now result }
{
    entries.partition_point(|entry| !names::is_past(&entry.0, path, leaf))
}
