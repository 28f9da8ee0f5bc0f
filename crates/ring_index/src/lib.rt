//! The page that a guest shares with the store, as plain memory (xenstore-ring.txt).
//!
//! A [`PlainPage`] has a ring of 1024 bytes each way and an error word. Indices run freely as numbers of
//! 32 bits and name a byte by their value modulo 1024. A guest may write over them, so each call of the
//! server's side answers [`BadIndex`] where a ring cannot hold what its indices say. [`laws`] has that a
//! page that nobody pokes is two pipes.
//!
//! No call takes memory.
#![tactic(auto)]

mod cells;
mod index;
pub mod laws;
mod page;
mod ring;

pub use index::{BadIndex, used};
pub use page::{PlainPage, Words};
pub use world_model::Which as Index;
