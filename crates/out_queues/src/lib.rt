//! The bytes that a connection has still to send.
//!
//! An [`OutQueue`] begins with the rest of a message that was sent in part, and has whole messages behind it.
//! Messages join its end, and bytes leave its front in pieces of any length. What a message is follows xs_wire.h.
//!
//! The bytes lie in one piece of memory. Room is made by [`OutQueue::reserve`] alone, which moves what is unsent only
//! where at least as many bytes were sent, or into memory of twice the size. So each byte is copied a bounded number
//! of times on average, however it leaves. A reserve leaves the memory that was there, or at most twice what is unsent
//! and what was asked for.
#![tactic(auto)]

pub mod laws;
mod messages;
mod queue;

pub use queue::{OutErr, OutQueue};
pub use xs_base::NoMemory;
