//! The watches of all connections (xenstore.txt, "Watches"), and what a change or a special event owes to them.
//!
//! Contracts see [`Watchers`] as the watches by connection, in the order in which they were made. What is owed is what the
//! definition of the sequential store sends.
#![tactic(auto)]

mod index;
mod listing;
mod messages;
mod owing;
mod watchers;

pub use watch_table::Watches;
pub use watchers::Watchers;
pub use xs_base::NoMemory;
