//! Chunks of a map.

ghost use Rattle.std.specs.Prelude.{◌≡◌, ◌<◌, ◌≤◌, ◌==◌, [], ◌∷◌, true, nat_le, length, take, drop, IfOk};
ghost use Rattle.std.specs.Borrow.{LendsIf, sem};
ghost use Rattle.std.specs.FinMap.{find, put, is_sorted};
ghost use Rattle.std.specs.Option.{option_copied, option_copied_mut};
ghost use Rattle.xs_model.specs.Paths.{path_cmp};
ghost use Rattle.path_map.specs.Map.{without};
ghost use Rattle.path_map.specs.Chunks.{full, half, begins_behind};
ghost use Rattle.path_map.specs.Marks.{first_past, begins_past};
ghost use Rattle.path_map.specs.contracts.chunk.Chunk.{the_row};

use crate::{moves, names, search};
use std::alloc::Global;
use std::marker::Model;
use xs_base::NoMemory;
use xs_path::Path;

/// So many entries fill a chunk.
const FULL: usize = 64;

/// Half of them.
pub const HALF: usize = 32;

/// Entries in the order of their paths. It has memory for as many as fill it.
#[derive(Debug, Drop)]
pub struct Chunk<T> {
    entries: Vec<(Path, T)>,
}

impl<T> Model for Chunk<T> {
    ghost use Rattle.std.specs.Prelude.{◌≤◌, vec_len, vec_capacity};
    ghost use Rattle.path_map.specs.Map.{Entries};
    ghost use Rattle.path_map.specs.Chunks.{full};

    ghost Value = { Entries T };

    ghost view = { λ c. c.entries.items };

    ghost invariant = { λ c. (vec_len c.entries ≤ full) × (full ≤ vec_capacity c.entries) };
}

impl<T> Chunk<T> {
    /// All the entries.
    pub fn entries(&self) -> &[(Path, T)]
        ensures { result.now ≡ self.now }
    {
        self.entries.as_slice()
    }

    pub(crate) fn is_full(&self) -> bool
        ensures { result ≡ nat_le full (length self.now) }
    {
        FULL <= self.entries.len()
    }

    pub(crate) fn is_empty(&self) -> bool
        ensures { result ≡ (length self.now == 0) }
    {
        self.entries.is_empty()
    }

    /// Whether the first entry stands behind a path.
    pub(crate) fn begins_behind(&self, path: &Path) -> bool
        requires { 0 < length self.now }
        ensures { result ≡ begins_behind path.now self.now }
    {
        path.lt(&self.entries[0].0)
    }

    /// Whether the first entry stands behind a path, and behind all that is at and below its child `leaf` if that is
    /// not empty.
    pub(crate) fn begins_past(&self, path: &Path, leaf: &[u8]) -> bool
        requires { 0 < length self.now }
        ensures { result ≡ begins_past path.now leaf.now self.now }
    {
        names::is_past(&self.entries[0].0, path, leaf)
    }

    /// The first path that stands so.
    pub(crate) fn first_past(&self, path: &Path, leaf: &[u8]) -> Option<&Path>
        requires { is_sorted path_cmp self.now ≡ true }
        ensures { option_copied result ≡ first_past path.now leaf.now self.now }
    {
        let place = search::place_past(&self.entries, path, leaf);
        if place < self.entries.len() {
            Some(&self.entries[place].0)
        } else {
            None
        }
    }

    /// The item of a path, if it has one.
    pub(crate) fn get(&self, path: &Path) -> Option<&T>
        requires { is_sorted path_cmp self.now ≡ true }
        ensures { option_copied result ≡ find path_cmp path.now self.now }
    {
        match search::place_of(&self.entries, path) {
            Ok(place) => Some(&self.entries[place].1),
            Err(_) => None,
        }
    }

    /// The item of a path, if it has one, to be changed.
    pub(crate) fn get_mut(&mut self, path: &Path) -> Option<&mut T>
        requires { is_sorted path_cmp self.old ≡ true }
        ensures* writes_back { sem 𝓛 (LendsIf (the_row T.row) T.row self.entry result (λ item. put path_cmp path.now item self.old) self.old) }
        ensures value { option_copied_mut result ≡ find path_cmp path.now self.old }
    {
        match search::place_of(&self.entries, path) {
            Ok(place) => Some(&mut self.entries[place].1),
            Err(_) => None,
        }
    }
}

impl<T: Drop> Chunk<T> {
    /// A chunk with no entries.
    pub(crate) fn new(alloc: Global) -> Result<Chunk<T>, NoMemory>
        ensures { IfOk result (λ chunk. chunk ≡ []) }
    {
        let entries = Vec::with_capacity(alloc, FULL)?;
        Ok(Chunk { entries })
    }

    /// Gives a path its item. Takes no memory.
    pub(crate) fn put(&mut self, path: Path, item: T)
        requires rising { is_sorted path_cmp self.old ≡ true }
        requires space { length self.old < full }
        ensures { self.new ≡ put path_cmp path item self.old }
    {
        match search::place_of(&self.entries, &path) {
            Ok(place) => self.entries[place].1 = item,
            Err(place) => self.entries.insert(place, (path, item)).unwrap(),
        }
    }

    /// Takes the item of a path away, if there is one. Takes no memory.
    pub(crate) fn remove(&mut self, path: &Path)
        requires { is_sorted path_cmp self.old ≡ true }
        ensures { self.new ≡ without path.now self.old }
    {
        if let Ok(place) = search::place_of(&self.entries, path) {
            let _entry = self.entries.remove(place);
        }
    }

    /// Takes the first entry away. Takes no memory.
    pub(crate) fn pop_first(&mut self) -> (Path, T)
        requires { 0 < length self.old }
        ensures { self.old ≡ result ∷ self.new }
    {
        self.entries.remove(0)
    }

    /// Moves the entries behind the first half to an empty chunk.
    pub(crate) fn split_into(&mut self, back: &mut Chunk<T>)
        requires filled { half < length self.old }
        requires empty { length back.old ≡ 0 }
        ensures front { self.new ≡ take half self.old }
        ensures back { back.new ≡ drop half self.old }
        ensures len { length back.new ≤ half }
    {
        moves::move_back(&mut self.entries, HALF, &mut back.entries);
    }
}
