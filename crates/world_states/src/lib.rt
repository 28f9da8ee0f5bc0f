//! The state that a world keeps, and the world that goes on from a state.
//!
//! The definitions are in `specs/`; what joins them is in [`laws`].
#![tactic(auto)]

pub mod laws;
