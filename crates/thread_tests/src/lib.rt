//! Tests of the rings of words and of the store's turn. They stand in a crate of their own, since a
//! crate that has tests is proved a second time for them.
#![tactic(auto)]

#[cfg(test)]
mod ring_ends_calls;
#[cfg(test)]
mod store_turn_calls;
