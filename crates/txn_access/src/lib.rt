//! Open transactions (xenstore.txt, "Transactions").
//!
//! A transaction keeps a mark at each path that matters to it, and the tree stays where it is. Contracts see a [`Txn`]
//! as its marks, the number of its commands that wrote something, and the number of marks for which it has memory.
#![tactic(auto)]

mod commit;
mod copies;
mod entries;
mod entry;
mod laws;
mod mark;
mod marks;
mod names;
mod overlays;
mod plan;
mod presence;
mod told;
mod txn;

pub use entries::Entries;
pub use entry::EntryKind;
pub use laws::told_marks_are_whole;
pub use overlays::Overlay;
pub use plan::Plan;
pub use txn::Txn;
