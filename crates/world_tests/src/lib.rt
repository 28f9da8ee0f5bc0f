//! Tests of the world. They stand in a crate of their own, since a crate that has tests is proved a second
//! time for them.
#![tactic(auto)]

#[cfg(test)]
mod world_core_calls;
