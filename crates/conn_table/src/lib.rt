//! Connections by their ids, and the ring connections of domains.
//!
//! [`Conns`] has the other end of each connection. Contracts see it as the list of the connections' ids and specs,
//! in rising order of the ids, of which no two are rings of one domain; `specs/Tables.antt` has the words. A
//! domain's ring connection is found by a second map, from domains to ids, that [`Conns`] keeps beside the first.
//!
//! [`laws`] has that a table answers as the connections do that it belongs to, and that it has few rings.
#![tactic(auto)]

mod edits;
pub mod laws;
mod table;

pub use machine_model::ConnSpec;
pub use table::{AddErr, Conns};
pub use xs_base::NoMemory;
