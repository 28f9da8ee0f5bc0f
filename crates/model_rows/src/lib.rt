//! Worked rows: scripts and the transcripts that they print, computed from the definitions alone.
#![tactic(auto)]

pub mod cuts;
pub mod faults;
pub mod first;
pub mod parts;
pub mod refusals;
pub mod transactions;
pub mod watches;
