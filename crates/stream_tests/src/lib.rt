//! Tests of the migration stream and its viewer. They stand in a crate of their own, since a
//! crate that has tests is proved a second time for them.
#![tactic(auto)]

#[cfg(test)]
mod mig_records_calls;
#[cfg(test)]
mod stream_view_calls;
