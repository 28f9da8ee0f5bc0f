//! The map: a list of entries in rising order of their ids.

ghost use Rattle.std.specs.Prelude.{◌≡◌, ◌+◌, ◌==◌, ◌≤◌, ◌<◌, not, nat_lt, true, [], None, is_some, length, drop, IfSome, IfOk, IfErr, OnOk, OnErr};
ghost use Rattle.std.specs.Borrow.{LendsIf, sem};
ghost use Rattle.std.specs.FinMap.{find, put, is_sorted};
ghost use Rattle.std.specs.FinMap.Entries.{where_key};
ghost use Rattle.std.specs.List.{list_all};
ghost use Rattle.std.specs.Option.{option_copied, option_copied_mut};
ghost use Rattle.std.specs.Ordering.{nat_cmp};
ghost use Rattle.id_map.specs.Ids.{above, first_id, IsNext, IsLeastFree};
ghost use Rattle.id_map.specs.Places.{IsAt, IsGapFor, IsRow};
ghost use Rattle.id_map.specs.contracts.map.IdMap.{the_row};

use std::alloc::Global;
use std::marker::Model;
use xs_base::NoMemory;

/// A map from ids to items: a list in rising order of the ids, searched by halves. Contracts see its entries, and for
/// how many more it has memory.
#[derive(Debug, Drop)]
pub struct IdMap<T> {
    entries: Vec<(u32, T)>,
}

impl<T> Model for IdMap<T> {
    ghost use Rattle.std.specs.Prelude.{◌≡◌, ◌-◌, true, vec_len, vec_capacity};
    ghost use Rattle.std.specs.FinMap.{is_sorted};
    ghost use Rattle.std.specs.Ordering.{nat_cmp};
    ghost use Rattle.id_map.specs.Maps.{Map};

    ghost Value = { Map T };

    ghost view = { λ map. record {
      entries = map.entries.items;
      spare = vec_capacity map.entries - vec_len map.entries;
    } };

    ghost invariant = { λ map. is_sorted nat_cmp map.entries.items ≡ true };
}

/// The place of an id among entries in rising order, or else the place at which it would stand. O(log entries).
fn place_of<T>(entries: &[(u32, T)], id: u32) -> Result<usize, usize>
    requires { is_sorted nat_cmp entries.now ≡ true }
    ensures found { IfOk result (IsAt entries.now id) }
    ensures absent { IfErr result (IsGapFor entries.now id) }
{
    entries.binary_search_by(|entry| entry.0.cmp(&id))
}

/// The place from which on the entries have higher ids than this one. O(log entries).
fn place_above<T>(entries: &[(u32, T)], id: u32) -> usize
    requires { is_sorted nat_cmp entries.now ≡ true }
    ensures within { result ≤ length entries.now }
    ensures above { drop result entries.now ≡ above id entries.now }
{
    match place_of(entries, id) {
        Ok(place) => place + 1,
        Err(place) => place,
    }
}

/// The first id among entries that is above this one. O(log entries).
fn id_above<T>(entries: &[(u32, T)], id: u32) -> Option<u32>
    requires { is_sorted nat_cmp entries.now ≡ true }
    ensures { result ≡ first_id (above id entries.now) }
{
    entries.get(place_above(entries, id)).map(|entry| entry.0)
}

/// The entries with positive ids. O(log entries).
fn positive<T>(entries: &[(u32, T)]) -> &[(u32, T)]
    requires { is_sorted nat_cmp entries.now ≡ true }
    ensures entries { result.now ≡ above 0 entries.now }
    ensures rising { is_sorted nat_cmp result.now ≡ true }
    ensures positive { list_all (λ e. nat_lt 0 e.0) result.now ≡ true }
    ensures len { length result.now ≤ length entries.now }
{
    &entries[place_above(entries, 0)..]
}

/// How many of the first entries have the ids 1, 2, 3 and so on: as long as an entry's id is one more than its
/// place, so is that of each before it. O(log entries).
fn in_row<T>(entries: &[(u32, T)]) -> usize
    requires rising { is_sorted nat_cmp entries.now ≡ true }
    requires positive { list_all (λ e. nat_lt 0 e.0) entries.now ≡ true }
    ensures { IsRow entries.now result }
{
    let mut low = 0;
    let mut high = entries.len();
    while low < high {
        let middle = low + (high - low) / 2;
        if entries[middle].0 as usize == middle + 1 {
            low = middle + 1;
        } else {
            high = middle;
        }
    }
    low
}

/// The least id from 1 on that no entry has. O(log entries).
fn id_free<T>(entries: &[(u32, T)]) -> u32
    requires rising { is_sorted nat_cmp entries.now ≡ true }
    requires room { length entries.now < 4294967295 }
    ensures { IsLeastFree entries.now result }
{
    in_row(positive(entries)) as u32 + 1
}

impl<T> IdMap<T> {
    /// No items. It takes no memory.
    pub fn new(alloc: Global) -> IdMap<T>
        ensures { result.entries ≡ [] }
    {
        IdMap {
            entries: Vec::new(alloc),
        }
    }

    /// How many items there are. O(1).
    pub fn len(&self) -> usize
        ensures { result ≡ length self.now.entries }
    {
        self.entries.len()
    }

    /// Whether there is no item. O(1).
    pub fn is_empty(&self) -> bool
        ensures { result ≡ (length self.now.entries == 0) }
    {
        self.entries.is_empty()
    }

    /// The item of an id, if it has one. O(log items).
    pub fn get(&self, id: u32) -> Option<&T>
        ensures value { option_copied result ≡ find nat_cmp id self.now.entries }
        ensures rising { is_sorted nat_cmp self.now.entries ≡ true }
    {
        match place_of(&self.entries, id) {
            Ok(place) => Some(&self.entries[place].1),
            Err(_) => None,
        }
    }

    /// The item of an id, if it has one, to be changed. O(log items).
    pub fn get_mut(&mut self, id: u32) -> Option<&mut T>
        ensures* writes_back { sem 𝓛 (LendsIf (the_row T.row) T.row self.entry result (λ item. record { entries = put nat_cmp id item self.old.entries; spare = self.old.spare }) self.old) }
        ensures value { option_copied_mut result ≡ find nat_cmp id self.old.entries }
        ensures rising { is_sorted nat_cmp self.old.entries ≡ true }
    {
        match place_of(&self.entries, id) {
            Ok(place) => Some(&mut self.entries[place].1),
            Err(_) => None,
        }
    }

    /// All items with their ids, in rising order of the ids. O(1).
    pub fn entries(&self) -> &[(u32, T)]
        ensures entries { result.now ≡ self.now.entries }
        ensures rising { is_sorted nat_cmp result.now ≡ true }
    {
        self.entries.as_slice()
    }

    /// All items with their ids, in rising order of the ids, given away. O(1).
    pub fn into_vec(self) -> Vec<(u32, T)>
        ensures entries { result.items ≡ self.entries }
        ensures rising { is_sorted nat_cmp result.items ≡ true }
    {
        self.entries
    }

    /// The least id above this one that has an item, whether this one has an item or not. O(log items).
    pub fn next_after(&self, id: u32) -> Option<u32>
        ensures next { result ≡ first_id (above id self.now.entries) }
        ensures least { IfSome result (IsNext self.now.entries id) }
        ensures walk { IfSome result (λ next. above next self.now.entries ≡ drop 1 (above id self.now.entries)) }
    {
        id_above(&self.entries, id)
    }

    /// The least id from 1 on that has no item. O(log items).
    pub fn least_free(&self) -> u32
        requires { length self.now.entries < 4294967295 }
        ensures least { IsLeastFree self.now.entries result }
        ensures rising { is_sorted nat_cmp self.now.entries ≡ true }
    {
        id_free(&self.entries)
    }
}

impl<T: Drop> IdMap<T> {
    /// Takes memory for so many items more than there are, so that as many calls of `put` take none. O(1) on
    /// average: the entries are moved only where there is less memory, and then into twice as much.
    pub fn reserve(&mut self, items: usize) -> Result<(), NoMemory>
        ensures ok { OnOk result (items ≤ self.new.spare) }
        ensures spare { self.old.spare ≤ self.new.spare }
        ensures same { self.new.entries ≡ self.old.entries }
    {
        self.entries.reserve(items)
    }

    /// Gives an id its item, in place of the one that it has. There is memory for one item more, and it takes none.
    /// It moves the items of higher ids where the id has none.
    pub fn put(&mut self, id: u32, item: T)
        requires { 1 ≤ self.old.spare }
        ensures entries { self.new.entries ≡ put nat_cmp id item self.old.entries }
        ensures spare { self.old.spare ≤ self.new.spare + 1 }
    {
        match place_of(&self.entries, id) {
            Ok(place) => self.entries[place].1 = item,
            Err(place) => self.entries.insert(place, (id, item)).unwrap(),
        }
    }

    /// Adds the item of an id that has none. Refused, the map is as before, and the item is dropped. It moves the
    /// items of higher ids.
    pub fn add(&mut self, id: u32, item: T) -> Result<(), NoMemory>
        requires { find nat_cmp id self.old.entries ≡ None }
        ensures ok { OnOk result (self.new.entries ≡ put nat_cmp id item self.old.entries) }
        ensures err { OnErr result (self.new.entries ≡ self.old.entries) }
    {
        self.reserve(1)?;
        self.put(id, item);
        Ok(())
    }

    /// Takes the item of an id out, if it has one. It moves the items of higher ids.
    pub fn take(&mut self, id: u32) -> Option<T>
        ensures found { result ≡ find nat_cmp id self.old.entries }
        ensures after { self.new.entries ≡ where_key nat_cmp (λ key. not (id == key)) self.old.entries }
        ensures spare { self.old.spare ≤ self.new.spare }
    {
        match place_of(&self.entries, id) {
            Ok(place) => Some(self.entries.remove(place).1),
            Err(_) => None,
        }
    }

    /// Removes the item of an id, and says whether there was one. It moves the items of higher ids.
    pub fn remove(&mut self, id: u32) -> bool
        ensures found { result ≡ is_some (find nat_cmp id self.old.entries) }
        ensures after { self.new.entries ≡ where_key nat_cmp (λ key. not (id == key)) self.old.entries }
        ensures spare { self.old.spare ≤ self.new.spare }
    {
        match place_of(&self.entries, id) {
            Ok(place) => {
                self.entries.remove(place);
                true
            }
            Err(_) => false,
        }
    }
}
