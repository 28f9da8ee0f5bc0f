//! The world's law: every run of the world serves its guests.
//!
//! The definitions are those of `world_model`; what follows from them is in [`laws`].
#![tactic(auto)]

pub mod laws;
