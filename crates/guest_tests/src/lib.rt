//! Tests of what stands between the bytes of a guest and the store. They stand in a crate of their own, since a
//! crate that has tests is proved a second time for them.
#![tactic(auto)]

#[cfg(test)]
mod guest_script_calls;
#[cfg(test)]
mod msg_reassembly_calls;
#[cfg(test)]
mod out_queues_calls;
#[cfg(test)]
mod ring_index_calls;
