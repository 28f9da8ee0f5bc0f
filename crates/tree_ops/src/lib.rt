//! The commands on a tree (xenstore.txt, "Database read, write and permissions operations").
//!
//! [`run`] does one command at any [`View`](node_tree::View) of a tree, by the definitions of the crate `xs_model`.
#![tactic(auto)]

mod answer;
mod commands;
mod did;
mod edits;
mod look;
mod parts;
mod reading;
mod removing;
mod writing;

pub use commands::run;
pub use did::Did;
