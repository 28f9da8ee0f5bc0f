//! The marks of a transaction, one after the other.

ghost use Rattle.std.specs.Prelude.{◌≡◌, drop, slice_get};
ghost use Rattle.std.specs.Option.{option_copied, option_map};
ghost use Rattle.path_map.specs.Chunks.{joined};
ghost use Rattle.txn_access.specs.Entries.{entry_of, entry_at};

use crate::entry::EntryKind;
use crate::mark::Held;
use node_tree::Node;
use path_map::{Chunk, Walk};
use std::marker::Model;
use xs_path::Path;

/// The marks of a transaction that are left to tell, in the order of their paths.
#[derive(Debug, Drop)]
pub struct Entries<'a> {
    walk: Walk<'a, Held>,
}

impl<'a> Model for Entries<'a> {
    ghost use Rattle.mark_model.specs.Marks.{Marks};

    ghost Value = { Marks };

    ghost view = { λ e. e.walk };
}

impl<'a> Entries<'a> {
    pub(crate) fn new(walk: Walk<'a, Held>) -> Entries<'a>
        ensures { result ≡ walk.entry }
    {
        Entries { walk }
    }

    /// The next mark, as [`Txn::entry`](crate::Txn::entry) tells it, or none once all were told. Costs O(1) on average
    /// over all marks.
    pub fn next_entry(&mut self) -> Option<(&'a Path, EntryKind, bool, Option<&'a Node>)>
        ensures entry { option_map entry_at result ≡ option_map entry_of (slice_get self.old 0) }
        ensures rest { self.new ≡ drop 1 self.old }
    {
        let first = self.walk.next_entry()?;
        Some(tell(first))
    }
}

/// The mark at a place. Costs O(chunks).
pub fn at(chunks: &[Chunk<Held>], place: usize) -> Option<&(Path, Held)>
    ensures { option_copied result ≡ slice_get (joined chunks.now) place }
{
    let mut left = place;
    for chunk in chunks {
        let entries = chunk.entries();
        if left < entries.len() {
            return Some(&entries[left]);
        }
        left -= entries.len();
    }
    None
}

/// What is told of a mark.
pub fn tell(entry: &(Path, Held)) -> (&Path, EntryKind, bool, Option<&Node>)
    ensures { entry_at result ≡ entry_of entry.now }
{
    (
        &entry.0,
        entry.1.kind(),
        entry.1.is_changed(),
        entry.1.node(),
    )
}
