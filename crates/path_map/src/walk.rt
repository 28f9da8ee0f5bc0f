//! The entries of a map, one after the other.

ghost use Rattle.std.specs.Prelude.{◌≡◌, ◌++◌, [], drop, slice_get};
ghost use Rattle.std.specs.Option.{option_copied};
ghost use Rattle.path_map.specs.Chunks.{joined};

use crate::chunk::Chunk;
use std::marker::Model;
use xs_path::Path;

/// The entries of a map that are still to come, in the order of their paths.
#[derive(Debug, Drop)]
pub struct Walk<'a, T> {
    chunk: &'a [(Path, T)],
    behind: &'a [Chunk<T>],
}

impl<'a, T> Model for Walk<'a, T> {
    ghost use Rattle.std.specs.Prelude.{◌++◌};
    ghost use Rattle.path_map.specs.Map.{Entries};
    ghost use Rattle.path_map.specs.Chunks.{joined};

    ghost Value = { Entries T };

    ghost view = { λ w. w.chunk.now ++ joined w.behind.now };
}

impl<'a, T> Walk<'a, T> {
    pub(crate) fn new(chunks: &'a [Chunk<T>]) -> Walk<'a, T>
        ensures { result ≡ joined chunks.now }
    {
        Walk {
            chunk: &[],
            behind: chunks,
        }
    }

    /// The next entry, or none once all came. O(1) on average over all entries.
    pub fn next_entry(&mut self) -> Option<&'a (Path, T)>
        ensures entry { option_copied result ≡ slice_get self.old 0 }
        ensures rest { self.new ≡ drop 1 self.old }
    {
        let (chunk, behind) = front(self.chunk, self.behind);
        let (first, rest) = chunk.split_first()?;
        self.chunk = rest;
        self.behind = behind;
        Some(first)
    }
}

/// The same entries, of which the first stands in the chunk.
fn front<'a, T>(chunk: &'a [(Path, T)], behind: &'a [Chunk<T>]) -> (&'a [(Path, T)], &'a [Chunk<T>])
    ensures same { result.0.now ++ joined result.1.now ≡ chunk.now ++ joined behind.now }
    ensures all { result.0.now ≡ [] → chunk.now ++ joined behind.now ≡ [] }
{
    let mut chunk = chunk;
    let mut behind = behind;
    'empty: while chunk.is_empty() && !behind.is_empty() {
        chunk = behind[0].entries();
        behind = &behind[1..];
    }
    (chunk, behind)
}
