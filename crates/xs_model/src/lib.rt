//! What a Xenstore request is, and what it does to a tree of nodes.
//!
//! The definitions are in `specs/`; `docs/DEFINITIONS.md` gives their reading order. This source has the
//! plain data types that both the definitions and the code of the crates above name.
#![tactic(auto)]

pub mod laws;
pub mod message;
pub mod path;
pub mod perm;
