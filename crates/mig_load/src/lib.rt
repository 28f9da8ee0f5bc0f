//! The store that a migration stream tells (xenstore-migration.md).
//!
//! [`load`] goes through the grammar of the whole stream first, so that a fault of the stream wins over every other one. Then
//! it goes through the records once more, one at a time, and keeps what each tells in the tables of the store that goes on.
//! Last, what is said of open transactions is joined to the tree.
#![tactic(auto)]

mod connections;
mod ends;
mod entries;
mod loading;
mod memory;
mod nodes;
mod opens;
mod parts;
mod records;
mod settling;
mod store;
mod stream;
mod table;
mod telling;
mod texts;

pub use store::load;
