//! The records of a migration stream, read from bytes and written to them, by the grammar of `stream_model`.
//!
//! [`read_stream`] reads the bytes that are a stream of records and no others, and names the first fault of any
//! other bytes and its place; [`Reader`] does the same and hands on one record at a time. [`write_stream`] writes the
//! one canonical text; [`write_header`], [`write_node`] and the like write it record by record, by parts that may stand
//! anywhere. [`next_place`] steps from the place of one record to that of the next.
#![tactic(auto)]

pub mod fields;
mod places;
mod reader;
mod reading;
mod record;
mod stream;
mod testing;
mod writing;

pub use places::next_place;
pub use reader::Reader;
pub use record::{RawPerms, Record, Records};
pub use stream::read_stream;
pub use stream_model::{RawPerm, StreamFault};
pub use writing::{
    write_connection, write_end, write_global, write_header, write_node, write_stream,
    write_transaction, write_watch,
};
