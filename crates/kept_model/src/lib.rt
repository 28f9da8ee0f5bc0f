//! Kept states: what a running store is, the stream that tells it, and the state that a stream tells.
//!
//! The definitions are in `specs/`; what joins them is in [`laws`].
#![tactic(auto)]

mod fault;
pub mod laws;

pub use fault::LoadFault;
