//! Messages on the wire and what they ask for (xs_wire.h, xenstore.txt).
//!
//! A message is a header of 16 bytes and a payload of at most 4096. [`read_header`] and [`write_message`]
//! are each other's inverse; [`read_request`] reads the payload of every type of xs_wire.h that the profile has. Which of
//! them are served is the daemon's business.
#![tactic(auto)]

mod domain;
mod head;
pub mod laws;
mod payload;
mod request;
mod transaction;
mod watch;

pub use head::{put_message, read_header, write_message};
pub use request::{Request, RequestErr, TreeCommand, TreeOp, read_request};
pub use xs_model::message::{HEADER_SIZE, Header, MESSAGE_MAX, WireErr, kind};
