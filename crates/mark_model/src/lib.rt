//! Marks: what a transaction keeps while it is open, and the store that is kept, with marks in the place of transactions.
//!
//! The definitions are in `specs/`; what joins them to the sequential store of `machine_model` is in [`laws`].
#![tactic(auto)]

pub mod laws;
