//! Tests of the runner of scripts. They stand in a crate of their own, since a crate that has tests is proved a
//! second time for them.
#![tactic(auto)]

#[cfg(test)]
mod form_calls;
#[cfg(test)]
mod handover_calls;
#[cfg(test)]
mod xs_drive_calls;
