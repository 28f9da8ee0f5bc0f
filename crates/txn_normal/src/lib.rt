//! What a stream says of a transaction, and the transaction that goes on with it.
//!
//! A record tells what the commands of a transaction did at a path ([`Access`]), and what stood there; together that is
//! what is said of the path ([`Said`]). [`normal`] makes the transaction of all that is said, over the nodes that are there
//! now; [`is_orphan`] then tells whether what that sees lacks a parent.
#![tactic(auto)]

mod marks;
mod orphan;
mod parents;
mod said;
mod same;

pub use marks::normal;
pub use orphan::is_orphan;
pub use said::{Access, Said};
