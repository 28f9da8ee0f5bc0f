//! The state of a store as a migration stream (xenstore-migration.md).
//!
//! [`image_of`] writes the one stream that tells a state, in one pass over the parts of the store for each kind of record.
//! The same passes count its bytes before, so that its memory is taken at once. [`save`] writes that of a daemon.
#![tactic(auto)]

mod connections;
mod image;
mod marks;
mod nodes;
mod scratch;
mod sizes;
mod transactions;
mod watches;

pub use image::{image_of, save};
pub use xs_base::NoMemory;
