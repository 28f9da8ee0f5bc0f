//! The migration stream, version 1: what its records are, how they are spelled, and what bytes read as.
#![tactic(auto)]

mod fault;
mod laws;
mod record;

pub use fault::StreamFault;
pub use laws::{
    a_fault_is_the_first, a_transaction_has_its_count, canonical_text_is_a_stream,
    records_are_fixed_by_their_bytes, records_stand_at_their_places, the_empty_store,
    what_is_read_can_be_written, what_is_read_is_spelled, what_is_spelled_is_read,
};
pub use record::{RawPerm, RecordType};
