//! From the bytes of a guest to whole messages.
//!
//! A guest's bytes come in pieces of any length. An [`Inbox`] keeps those that are not answered yet, and says what
//! stands in front of it: a whole message, a header with a length above the limit, or less than either. It takes
//! bytes up to the end of the header or message in front, so that no byte is moved when the message leaves.
//! [`laws`] has that the messages do not depend on the pieces.
//!
//! [`split`] gives the whole messages of a byte list, and [`Ins`] keeps the inboxes of connections by their ids.
#![tactic(auto)]

mod front;
mod inbox;
pub mod laws;
mod messages;

pub use front::Front;
pub use inbox::{Inbox, Ins};
pub use messages::{Messages, split};
pub use xs_base::NoMemory;
