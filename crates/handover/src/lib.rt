//! A store is replaced by one that goes on where it was.
//!
//! The state of the old store goes through a [`Vault`](xs_base::Vault) as an image (xenstore-migration.md), and a new store
//! is made of what the vault gives back. [`handover`] takes the old store and answers the one that goes on: the new one in
//! an equal state, or the old one as it was. [`successor`] lends it.
#![tactic(auto)]

mod change;
mod handed;
mod replacing;
mod step;

pub use change::Change;
pub use handed::{Handed, Refusal};
pub use replacing::{handover, successor};
