//! What a tree keeps for a path.

use crate::Node;

/// A node and the number of its path.
#[derive(Debug, Drop)]
pub struct Entry {
    pub node: Node,
    pub generation: u64,
}
