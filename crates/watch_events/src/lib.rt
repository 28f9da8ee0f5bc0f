//! What a change of the tree, or a special event, owes to the watches of one connection (xenstore.txt, "Watches").
//!
//! [`changes`] gives the events of a change, and [`perms_at`] the entries by which one of them is judged; both only look
//! at the trees, as [`Nodes`]. [`push_owed`] writes what such an event owes to the watches of a connection,
//! [`push_special`] what a special one does, and [`push_event`] and [`push_first`] single messages.
#![tactic(auto)]

mod change;
mod debts;
mod message;
mod naming;
mod nodes;
mod sending;

pub use change::{Change, Changes, changes, perms_at};
pub use debts::{owed, push_owed, push_special};
pub use message::{push_event, push_first};
pub use nodes::Nodes;
pub use sending::Messages;
pub use xs_base::NoMemory;
