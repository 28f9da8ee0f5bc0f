//! The watches of one connection, in the order in which they were made (xenstore.txt, "Watches").
//!
//! Contracts see [`Watches`] as the list of what was asked for: a path and a token, with the domain under which a
//! relative path stands. `specs/Tables.antt` has the words. The node that a watch is on is read once, when it is made.
#![tactic(auto)]

mod entries;
mod key;
mod table;

pub use table::{WatchErr, Watches};
pub use xs_base::NoMemory;
