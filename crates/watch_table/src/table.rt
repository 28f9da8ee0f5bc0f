//! The table of watches.

ghost use Rattle.std.specs.Prelude.{◌≡◌, ◌≤◌, ◌<◌, ◌==◌, ◌++◌, ◌∷◌, [], ◌↔◌, ℕ, true, not, Some, None, length, filter, if◌then◌else◌, All, IfOk, OnOk, OnErr, IsErrOf, slice_get};
ghost use Rattle.std.specs.List.{list_any};
ghost use Rattle.std.specs.Option.{option_map, option_and_then, option_copied};
ghost use Rattle.std.specs.Str.{bytes_eq};
ghost use Rattle.xs_model.specs.Requests.{is_watch_path, is_token};
ghost use Rattle.xs_model.specs.Watches.{same_watch};
ghost use Rattle.watch_table.specs.Tables.{Made, AreMade, watch_of, watches_in, watched_node, is_reached, is_on, at_each};

use crate::entries::{self, Entries, Kept};
use crate::{NoMemory, key};
use std::alloc::{AllocError, Global};
use std::marker::Model;
use thiserror::Error;
use xs_base::Bytes;
use xs_path::Path;

/// Why a watch is not added.
#[derive(Clone, Copy, Debug, PartialEq, Eq, Error)]
pub enum WatchErr {
    /// There is a watch with the same path and token.
    #[error("there is a watch with this path and token")]
    Exists,
    /// No memory was found for it.
    #[error("out of memory")]
    NoMemory,
}

impl From<AllocError> for WatchErr {
    ghost use Rattle.std.specs.Prelude.{◌≡◌};
    ghost use Rattle.watch_table.specs.declared.table.WatchErr.TheVariants.{NoMemory};

    ghost from_gives = { λ _ e. e ≡ NoMemory };

    fn from(_error: AllocError) -> WatchErr {
        WatchErr::NoMemory
    }
}

/// The watches of one connection.
///
/// Contracts see the list of them, in the order in which they were made, of which no two have the same path and token.
/// A watch is found by its path and token in O(their bytes) on average, in O(watches) where the hashes of many are the
/// same. Places count from 0 in the order of the list. Memory is taken by [`Watches::add`], and for what is answered.
#[derive(Drop)]
pub struct Watches {
    entries: Entries,
}

impl Model for Watches {
    ghost use Rattle.std.specs.Prelude.{List};
    ghost use Rattle.std.specs.List.{AllByRecursion};
    ghost use Rattle.watch_table.specs.Tables.{Made};
    ghost use Rattle.watch_table.specs.Entries.{made_in, IsKept};

    ghost Value = { List Made };

    ghost view = { λ watches. made_in watches.entries.entries };

    ghost invariant = { λ watches. AllByRecursion IsKept watches.entries.entries };
}

/// Appends a place, if its watch is one of those that are looked for.
fn push_if(places: &mut Vec<usize>, place: usize, wanted: bool) -> Result<(), NoMemory>
    ensures { OnOk result (places.new.items ≡ (if wanted then places.old.items ++ place ∷ [] else places.old.items)) }
{
    if wanted {
        places.push(place)?;
    }
    Ok(())
}

impl Watches {
    /// No watches. It takes no memory.
    pub fn new(alloc: Global) -> Watches
        ensures { result ≡ [] }
    {
        Watches {
            entries: Entries::new(alloc),
        }
    }

    /// What takes the memory.
    fn allocator(&self) -> Global {
        *self.entries.allocator()
    }

    /// How many watches there are. O(1).
    pub fn len(&self) -> usize
        ensures { result ≡ length self.now }
    {
        self.entries.len()
    }

    /// Whether there is no watch. O(1).
    pub fn is_empty(&self) -> bool
        ensures { result ≡ (length self.now == 0) }
    {
        self.entries.is_empty()
    }

    /// Each watch may be asked for, and no two have the same path and token. It does nothing.
    pub fn is_made(&self)
        ensures { AreMade self.now }
    {
        let _entries = self.entries.len();
    }

    /// Adds a watch behind all others. It is refused as there exactly where a watch has the same path and token.
    /// Refused, nothing has changed. O(bytes of the path and the token) on average.
    pub fn add(&mut self, wpath: Bytes, token: Bytes, domid: u16) -> Result<(), WatchErr>
        requires domid { domid ≤ 32751 }
        requires wpath { is_watch_path wpath domid ≡ true }
        requires token { is_token token ≡ true }
        ensures ok { OnOk result (self.new ≡ self.old ++ record { watch = watch_of wpath token; domid = domid } ∷ []) }
        ensures err { OnErr result (self.new ≡ self.old) }
        ensures exists { IsErrOf result WatchErr.Exists ↔ (list_any (same_watch (watch_of wpath token)) (watches_in self.old) ≡ true) }
    {
        let path = wpath.as_slice();
        let token = token.as_slice();
        if self.has(path, token) {
            return Err(WatchErr::Exists);
        }
        let alloc = self.allocator();
        let watched = entries::watched_by(alloc, path, domid)?;
        let key = key::to_keep(alloc, path, token)?;
        entries::add_to(&mut self.entries, key, Kept { domid, watched })?;
        Ok(())
    }

    /// Removes the watch with this path and token, and says whether there was one. The others keep their order. It takes
    /// no memory. O(bytes) on average to find it, and it moves the watches behind it.
    pub fn remove(&mut self, wpath: &[u8], token: &[u8]) -> bool
        ensures found { result ≡ list_any (same_watch (watch_of wpath.now token.now)) (watches_in self.old) }
        ensures after { self.new ≡ filter (λ m. not (same_watch (watch_of wpath.now token.now) m.watch)) self.old }
    {
        let entries = &mut self.entries;
        let Some(key) = key::of_watch(wpath, token) else {
            return false;
        };
        entries::take_from(entries, key.as_slice()).is_some()
    }

    /// Whether there is a watch with this path and token. O(bytes) on average.
    pub fn has(&self, wpath: &[u8], token: &[u8]) -> bool
        ensures { result ≡ list_any (same_watch (watch_of wpath.now token.now)) (watches_in self.now) }
    {
        match key::of_watch(wpath, token) {
            Some(key) => self.entries.contains_key(key.as_slice()),
            None => false,
        }
    }

    /// The path and the token of the watch at a place, as they were given. O(1).
    pub fn at(&self, place: usize) -> Option<(&[u8], &[u8])>
        ensures { option_map (λ parts. watch_of parts.0.now parts.1.now) result ≡ option_map (λ m. m.watch) (slice_get self.now place) }
    {
        let (key, _kept) = self.entries.get_index(place)?;
        Some(key::parts(key.as_slice()))
    }

    /// The node that the watch at a place is on; none for a watch on a special path, and behind the last watch. O(1).
    pub fn watched(&self, place: usize) -> Option<&Path>
        ensures { option_copied result ≡ option_and_then watched_node (slice_get self.now place) }
    {
        let (_key, kept) = self.entries.get_index(place)?;
        kept.watched.as_ref()
    }

    /// Whether an event at a path is for the watch at a place. O(bytes of the path).
    pub fn matches(&self, place: usize, path: &Path, exact: bool) -> bool
        ensures { (m : Made) → slice_get self.now place ≡ Some m → result ≡ is_reached (record { path = path.now; exact = exact }) m }
    {
        match self.entries.get_index(place) {
            Some((_key, kept)) => kept.is_reached(path, exact),
            None => false,
        }
    }

    /// Whether a watch is on the node of this path. O(watches).
    pub fn is_on(&self, path: &Path) -> bool
        ensures { result ≡ list_any (is_on path.now) self.now }
    {
        for place in 0..self.len() {
            if self.matches(place, path, true) {
                return true;
            }
        }
        false
    }

    /// The places of the watches for which an event at a path is, rising. O(watches).
    pub fn reached(&self, path: &Path, exact: bool) -> Result<Vec<usize>, NoMemory>
        ensures each { IfOk result (λ places. at_each places.items self.now ≡ filter (is_reached (record { path = path.now; exact = exact })) self.now) }
        ensures within { IfOk result (λ places. All (λ place. place < length self.now) places.items) }
    {
        let mut places = Vec::new(self.allocator());
        for place in 0..self.len() {
            push_if(&mut places, place, self.matches(place, path, exact))?;
        }
        Ok(places)
    }

    /// The places of the watches on a special path, rising. O(watches).
    pub fn specials(&self, special: &[u8]) -> Result<Vec<usize>, NoMemory>
        ensures each { IfOk result (λ places. at_each places.items self.now ≡ filter (λ m. bytes_eq m.watch.wpath special.now) self.now) }
        ensures within { IfOk result (λ places. All (λ place. place < length self.now) places.items) }
    {
        let mut places = Vec::new(self.allocator());
        for place in 0..self.len() {
            push_if(&mut places, place, self.has_path(place, special))?;
        }
        Ok(places)
    }

    /// Whether the watch at a place has these bytes as its path.
    fn has_path(&self, place: usize, wpath: &[u8]) -> bool
        ensures { (m : Made) → slice_get self.now place ≡ Some m → result ≡ bytes_eq m.watch.wpath wpath.now }
    {
        match self.at(place) {
            Some((given, _token)) => given == wpath,
            None => false,
        }
    }

    /// Removes all watches. It keeps its memory. O(watches).
    pub fn clear(&mut self)
        ensures { self.new ≡ [] }
    {
        self.entries.clear();
    }
}
