//! A map from paths to items.
//!
//! Contracts see a [`PathMap`] as the list of its entries in the order of their paths, the number of items for which it
//! has memory besides, and the number of chunks without entries that it keeps for them. They speak of the entries by
//! std's `find` and `put` with `path_cmp`.
//!
//! Memory is taken by [`PathMap::reserve`] alone. To change an item in place, take it by [`PathMap::get_mut`]. To go
//! over all items, ask [`PathMap::walk`] for one after the other, [`PathMap::parts`] for their chunks, or
//! [`PathMap::next_after`] for the path behind any one; to move them out, ask [`PathMap::pop_first`].
#![tactic(auto)]

mod chunk;
mod chunks;
mod map;
mod moves;
mod names;
mod past;
mod search;
mod walk;

pub use chunk::Chunk;
pub use map::PathMap;
pub use names::name_below;
pub use walk::Walk;
pub use xs_base::NoMemory;
