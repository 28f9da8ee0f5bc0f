//! Nodes.

ghost use Rattle.std.specs.Prelude.{◌≡◌, [], IfOk};
ghost use Rattle.xs_model.specs.Perms.{new_root_perms};

use std::alloc::Global;
use std::marker::Model;
use xs_base::{Bytes, NoMemory};
use xs_perms::{Letter, Perm, Perms};

/// A node: its value and its permission entries, of which a node of a tree has one or more.
#[derive(Debug, Drop)]
pub struct Node {
    pub value: Bytes,
    pub perms: Perms,
}

impl Model for Node {
    ghost use Rattle.xs_model.specs.Trees.{Node};

    ghost Value = { Node };

    ghost view = { λ n. record { value = n.value; perms = n.perms } };
}

impl Node {
    /// The node that has this value and these entries.
    pub fn new(value: Bytes, perms: Perms) -> Node
        ensures { result ≡ record { value = value; perms = perms } }
    {
        Node { value, perms }
    }

    /// The node `/` of a new store: an empty value, and one entry by which domain 0 alone may read or write it.
    pub fn root(alloc: Global) -> Result<Node, NoMemory>
        ensures { IfOk result (λ node. node ≡ record { value = []; perms = new_root_perms }) }
    {
        let mut perms = Perms::new(alloc);
        perms.push(Perm {
            letter: Letter::N,
            stale: false,
            domid: 0,
        })?;
        Ok(Node::new(Bytes::new(alloc), perms))
    }

    /// A second node like this one. Costs O(its bytes and entries).
    pub fn copy(&self, alloc: Global) -> Result<Node, NoMemory>
        ensures { IfOk result (λ node. node ≡ self.now) }
    {
        let value = Bytes::copy(alloc, self.value.as_slice())?;
        let perms = self.perms.copy()?;
        Ok(Node { value, perms })
    }
}
