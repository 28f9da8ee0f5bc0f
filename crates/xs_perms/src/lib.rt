//! Permission entries and rights (xenstore.txt, "Permissions").
//!
//! A node has a list of entries, [`Perms`]. [`read_perm`] and [`print_perm`] are their form on the wire, and
//! [`rights`] says what they let a domain do. [`laws`] has that reading undoes printing.
#![tactic(auto)]

mod access;
pub mod laws;
mod spelling;

pub use access::rights;
pub use spelling::{print_perm, read_perm};
use xs_base::Items;
pub use xs_model::perm::{Letter, Perm, PermFault, Rights};

/// The permission entries of a node, which has one or more.
pub type Perms = Items<Perm>;
