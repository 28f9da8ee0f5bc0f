//! Tests of what saves and loads a store. They stand in a crate of their own, since a crate that has tests is proved a
//! second time for them.
#![tactic(auto)]

#[cfg(test)]
mod handover_calls;
#[cfg(test)]
mod mig_load_calls;
#[cfg(test)]
mod mig_save_calls;
#[cfg(test)]
mod streams;
