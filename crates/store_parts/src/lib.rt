//! The parts of a running store, and the state that they are.
//!
//! A store is taken apart to be saved, and put together once it was loaded. Contracts of both speak of the state that its
//! parts and the inboxes of its connections are (`state_of`): the one that a migration stream tells.
#![tactic(auto)]

use conn_rows::Rows;
pub use conn_table::Conns;
pub use machine_model::Globals;
use node_tree::Tree;
use watchers::Watchers;

/// The parts of a store: what stands at the other end of each connection, its watches, what is unsent to it and its open
/// transactions, and the tree.
#[derive(Drop)]
pub struct Parts {
    pub conns: Conns,
    pub watchers: Watchers,
    pub rows: Rows,
    pub tree: Tree,
    pub globals: Globals,
}

/// The same parts, lent by a store that goes on.
#[derive(Clone, Copy)]
pub struct PartsRef<'a> {
    pub conns: &'a Conns,
    pub watchers: &'a Watchers,
    pub rows: &'a Rows,
    pub tree: &'a Tree,
    pub globals: Globals,
}
