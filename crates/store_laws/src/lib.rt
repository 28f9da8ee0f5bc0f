//! Laws of the sequential store that are about more than one step, or about who may do what.
//!
//! The definitions are those of `machine_model`; what follows from them is in [`laws`].
#![tactic(auto)]

pub mod laws;
