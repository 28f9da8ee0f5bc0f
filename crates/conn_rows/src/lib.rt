//! What a store keeps of each connection besides its other end and its watches: what is unsent to it, and its open
//! transactions.
//!
//! Contracts see [`Rows`] by the connections' ids: the queues of what is unsent, and the open transactions. A change of the
//! tree is planned and noted here, by all open transactions.
#![tactic(auto)]

mod row;
mod rows;
mod sending;

pub use row::Row;
pub use rows::Rows;
pub use xs_base::NoMemory;
