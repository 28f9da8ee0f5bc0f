//! Lists of chunks: the first path behind a path, and behind all that is at and below one of its children.

ghost use Rattle.std.specs.Prelude.{◌≡◌, ◌+◌, ◌<◌, true, length, drop};
ghost use Rattle.std.specs.FinMap.{is_sorted};
ghost use Rattle.std.specs.List.{All, list_all};
ghost use Rattle.std.specs.Option.{option_copied};
ghost use Rattle.xs_model.specs.Paths.{path_cmp};
ghost use Rattle.path_map.specs.Chunks.{joined};
ghost use Rattle.path_map.specs.Marks.{is_past, first_past, IsRangePast};

use crate::chunk::Chunk;
use xs_path::Path;

/// The first path that stands behind `path`, and behind all that is at and below its child `leaf` if that is not
/// empty. Costs O(log entries) comparisons of paths.
pub fn first_past<'a, T>(chunks: &'a [Chunk<T>], path: &Path, leaf: &[u8]) -> Option<&'a Path>
    requires rising { is_sorted path_cmp (joined chunks.now) ≡ true }
    requires some { 0 < length chunks.now }
    requires filled { All (λ c. 0 < length c) chunks.now }
    ensures { option_copied result ≡ first_past path.now leaf.now (joined chunks.now) }
{
    let at = chunk_past(chunks, path, leaf);
    match chunks[at].first_past(path, leaf) {
        Some(first) => Some(first),
        None => first_of(chunks, at + 1, path, leaf),
    }
}

/// The chunk before which no entry stands so, and behind which each does.
fn chunk_past<T>(chunks: &[Chunk<T>], path: &Path, leaf: &[u8]) -> usize
    requires rising { is_sorted path_cmp (joined chunks.now) ≡ true }
    requires some { 0 < length chunks.now }
    requires filled { All (λ c. 0 < length c) chunks.now }
    ensures { IsRangePast path.now leaf.now chunks.now result (result + 1) }
{
    let mut from = 0;
    let mut to = chunks.len();
    'halves: while from + 1 < to {
        let middle = from + (to - from) / 2;
        if chunks[middle].begins_past(path, leaf) {
            to = middle;
        } else {
            from = middle;
        }
    }
    from
}

/// The first path that stands so of the chunks from a place on, each of whose entries does.
fn first_of<'a, T>(chunks: &'a [Chunk<T>], at: usize, path: &Path, leaf: &[u8]) -> Option<&'a Path>
    requires rising { is_sorted path_cmp (joined chunks.now) ≡ true }
    requires filled { All (λ c. 0 < length c) chunks.now }
    requires behind { list_all (λ e. is_past path.now leaf.now e.0) (joined (drop at chunks.now)) ≡ true }
    ensures { option_copied result ≡ first_past path.now leaf.now (joined (drop at chunks.now)) }
{
    if at < chunks.len() {
        chunks[at].first_past(path, leaf)
    } else {
        None
    }
}
