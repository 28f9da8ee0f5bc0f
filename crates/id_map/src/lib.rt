//! A map from ids of 32 bits to items.
//!
//! Contracts see an [`IdMap`] as the list of its entries in rising order of their ids, and the number of items for
//! which it has memory besides. They speak of the entries by std's `find`, `put` and `where_key` with `nat_cmp`.
//!
//! Memory is taken by [`IdMap::reserve`] and [`IdMap::add`] alone. Whoever is not to run out of memory in the midst
//! of a change takes it before by `reserve`, and then calls [`IdMap::put`], which can't be refused.
//!
//! To change an item, take it by [`IdMap::get_mut`] and call what changes it:
//!
//! ```text
//! fn mark(map: &mut IdMap<Marked>, id: u32)
//!     ensures there { IfSome (find nat_cmp id map.old.entries)
//!         (λ item. map.new.entries ≡ put nat_cmp id (record item { mark = true }) map.old.entries) }
//!     ensures absent { find nat_cmp id map.old.entries ≡ None → map.new ≡ map.old }
//! {
//!     if let Some(item) = map.get_mut(id) {
//!         item.set_mark();
//!     }
//! }
//! ```
//!
//! Where `set_mark` has the clause `self.new ≡ record self.old { mark = true }`, this is proved with no answer: what
//! is left behind the reference is put at the id.
//!
//! To go over all items, ask [`IdMap::next_after`] for one id after the other. Each answer takes the first of the
//! entries that are left.
#![tactic(auto)]

mod map;

pub use map::IdMap;
pub use xs_base::NoMemory;
