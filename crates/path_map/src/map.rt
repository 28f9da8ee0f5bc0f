//! The map: entries in the order of their paths, in chunks.

ghost use Rattle.std.specs.Prelude.{◌≡◌, ◌+◌, ◌==◌, ◌<◌, ◌≤◌, true, [], length, max, OnOk};
ghost use Rattle.std.specs.Borrow.{LendsIf, sem};
ghost use Rattle.std.specs.FinMap.{find, put, is_sorted};
ghost use Rattle.std.specs.Option.{option_copied, option_copied_mut};
ghost use Rattle.xs_model.specs.Paths.{path_cmp};
ghost use Rattle.path_map.specs.Map.{without, most_kept, first_entry, behind_first};
ghost use Rattle.path_map.specs.Chunks.{joined};
ghost use Rattle.path_map.specs.Marks.{path_behind, first_past};
ghost use Rattle.path_map.specs.contracts.map.PathMap.{the_row};

use crate::chunk::{Chunk, HALF};
use crate::walk::Walk;
use crate::{chunks, past};
use std::alloc::Global;
use std::marker::Model;
use xs_base::NoMemory;
use xs_path::Path;

/// A map from paths to items: a list in the order of the paths, cut into chunks of bounded length, and searched by
/// halves. A chunk that is full is split in two; chunks without entries are kept for that.
#[derive(Debug, Drop)]
pub struct PathMap<T> {
    chunks: Vec<Chunk<T>>,
    spare: Vec<Chunk<T>>,
}

impl<T> Model for PathMap<T> {
    ghost use Rattle.std.specs.Prelude.{◌≡◌, true, vec_len, vec_capacity};
    ghost use Rattle.std.specs.FinMap.{is_sorted};
    ghost use Rattle.xs_model.specs.Paths.{path_cmp};
    ghost use Rattle.path_map.specs.Map.{Map};
    ghost use Rattle.path_map.specs.Chunks.{joined, room, IsLaidOut};

    ghost Value = { Map T };

    ghost view = { λ m. record {
      entries = joined m.chunks.items;
      spare = room (vec_len m.spare) m.chunks.items;
      kept = vec_len m.spare;
    } };

    ghost invariant = { λ m. record {
      rising : is_sorted path_cmp (joined m.chunks.items) ≡ true;
      laid_out : IsLaidOut m.chunks.items m.spare.items (vec_capacity m.chunks);
    } };
}

impl<T> PathMap<T> {
    /// No items. It takes no memory.
    pub fn new(alloc: Global) -> PathMap<T>
        ensures { result ≡ record { entries = []; spare = 0; kept = 0 } }
    {
        PathMap {
            chunks: Vec::new(alloc),
            spare: Vec::new(alloc),
        }
    }

    /// Whether there is no item. O(1).
    pub fn is_empty(&self) -> bool
        ensures { result ≡ (length self.now.entries == 0) }
    {
        self.chunks.is_empty()
    }

    /// The entries stand in the order of their paths. It does nothing.
    pub fn is_rising(&self)
        ensures { is_sorted path_cmp self.now.entries ≡ true }
    {
        let _chunks = self.chunks.len();
    }

    /// The entries in their order, in parts.
    pub fn parts(&self) -> &[Chunk<T>]
        ensures entries { joined result.now ≡ self.now.entries }
        ensures rising { is_sorted path_cmp self.now.entries ≡ true }
    {
        self.chunks.as_slice()
    }

    /// The entries in their order, one after the other. O(1).
    pub fn walk(&self) -> Walk<'_, T>
        ensures { result ≡ self.now.entries }
    {
        Walk::new(self.chunks.as_slice())
    }

    /// The item of a path, if it has one. O(log items) comparisons of paths.
    pub fn get(&self, path: &Path) -> Option<&T>
        ensures value { option_copied result ≡ find path_cmp path.now self.now.entries }
        ensures rising { is_sorted path_cmp self.now.entries ≡ true }
    {
        if self.chunks.is_empty() {
            return None;
        }
        let at = chunks::chunk_of(&self.chunks, path);
        self.chunks[at].get(path)
    }

    /// The item of a path, if it has one, to be changed. O(log items) comparisons of paths.
    pub fn get_mut(&mut self, path: &Path) -> Option<&mut T>
        ensures* writes_back { sem 𝓛 (LendsIf (the_row T.row) T.row self.entry result (λ item. record self.old { entries = put path_cmp path.now item self.old.entries }) self.old) }
        ensures value { option_copied_mut result ≡ find path_cmp path.now self.old.entries }
        ensures rising { is_sorted path_cmp self.old.entries ≡ true }
    {
        if self.chunks.is_empty() {
            return None;
        }
        let at = chunks::chunk_of(&self.chunks, path);
        self.chunks[at].get_mut(path)
    }

    /// The first path behind this one, which need not have an item itself. O(log items) comparisons of paths.
    pub fn next_after(&self, path: &Path) -> Option<&Path>
        ensures { option_copied result ≡ path_behind self.now.entries path.now }
    {
        self.next_past(path, b"")
    }

    /// The first path that stands behind `path`, and behind all that is at and below its child `leaf` if that is not
    /// empty. Neither needs to have an item. O(log items) comparisons of paths.
    pub fn next_past(&self, path: &Path, leaf: &[u8]) -> Option<&Path>
        ensures next { option_copied result ≡ first_past path.now leaf.now self.now.entries }
        ensures rising { is_sorted path_cmp self.now.entries ≡ true }
    {
        if self.chunks.is_empty() {
            return None;
        }
        past::first_past(&self.chunks, path, leaf)
    }
}

impl<T: Drop> PathMap<T> {
    /// Takes memory for so many further items, so that as many calls of `put` take none. It keeps a chunk for each of
    /// them at most, and no more than half a chunk of items for each once there is one for every chunk in use. The
    /// entries are the same afterwards, also where there is no memory.
    pub fn reserve(&mut self, items: usize) -> Result<(), NoMemory>
        ensures ok { OnOk result (items ≤ self.new.spare) }
        ensures same { self.new.entries ≡ self.old.entries }
        ensures spare { self.old.spare ≤ self.new.spare }
        ensures kept { self.new.kept ≤ max self.old.kept (most_kept self.old.entries items) }
    {
        let wanted = items.min(self.chunks.len().max(1) + items / HALF + 1);
        if self.spare.len() < wanted {
            self.chunks.reserve(wanted)?;
            chunks::fill(*self.chunks.allocator(), &mut self.spare, wanted)?;
        }
        Ok(())
    }

    /// Gives a path its item, in place of the one that it has. There is memory for one item more, and it takes none.
    /// O(log items) comparisons of paths; it moves the entries of one chunk, and the list of chunks where that one was
    /// full.
    pub fn put(&mut self, path: Path, item: T)
        requires { 0 < self.old.spare }
        ensures entries { self.new.entries ≡ put path_cmp path item self.old.entries }
        ensures spare { self.old.spare ≤ self.new.spare + 1 }
        ensures kept { self.new.kept ≤ self.old.kept }
    {
        if self.chunks.is_empty() {
            chunks::begin(&mut self.chunks, &mut self.spare, path, item);
            return;
        }
        let at = chunks::make_room(&mut self.chunks, &mut self.spare, &path);
        self.chunks[at].put(path, item);
    }

    /// Takes the item of a path away, if there is one. Takes no memory. O(log items) comparisons of paths; it moves the
    /// entries of one chunk, and the list of chunks where that has no other entry. Room that was reserved stays, unless
    /// no entry is left.
    pub fn remove(&mut self, path: &Path)
        ensures entries { self.new.entries ≡ without path.now self.old.entries }
        ensures spare { 0 < length self.new.entries → self.old.spare ≤ self.new.spare }
        ensures kept { self.new.kept ≡ self.old.kept }
    {
        if !self.chunks.is_empty() {
            chunks::remove(&mut self.chunks, path);
        }
    }

    /// Takes the first entry away, if there is one. Takes no memory. It moves the entries of one chunk, and the list of
    /// chunks where that has no other entry.
    pub fn pop_first(&mut self) -> Option<(Path, T)>
        ensures first { result ≡ first_entry self.old.entries }
        ensures rest { self.new.entries ≡ behind_first self.old.entries }
    {
        if self.chunks.is_empty() {
            return None;
        }
        Some(chunks::pop_first(&mut self.chunks))
    }
}
