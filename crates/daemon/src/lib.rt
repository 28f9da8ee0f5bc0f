//! The daemon: the store of all domains, and the bytes that it has still to send.
//!
//! [`Daemon::submit`] takes one whole request of a connection, and is one step of the sequential store: the
//! definition of the crate `machine_model`. What the step sends joins the unsent bytes of its connections, and
//! [`Daemon::pull`] moves these out in pieces of any length. A contract speaks of each store that the daemon
//! stands for.
//!
//! A transaction is kept as marks (`mark_model`), so that contracts see the daemon as the store that is kept, and a request
//! as one step of it; [`laws`] has that its commits are serial.
//!
//! What a change owes to watches is counted before it is made (`watchers`), so that a request that would leave a
//! connection too many unsent bytes changes nothing.
#![tactic(auto)]

mod act;
mod answer;
mod change;
mod commands;
mod committed;
mod domains;
pub mod laws;
mod peers;
mod reply;
mod service;
mod transactions;
mod watches;

pub use answer::{Door, Pull, Submit};
pub use conn_table::{AddErr, ConnSpec, Conns};
pub use service::Daemon;
pub use store_parts::{Globals, PartsRef};
pub use xs_base::NoMemory;
