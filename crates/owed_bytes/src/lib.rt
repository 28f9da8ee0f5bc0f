//! The bytes of whole messages that connections are owed, before they join what is unsent to these.
//!
//! Contracts see [`Owed`] as the bytes by connection.
#![tactic(auto)]

mod owed;

pub use owed::Owed;
pub use xs_base::NoMemory;
