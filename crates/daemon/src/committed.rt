//! The tree as a commit will leave it.

ghost use Rattle.std.specs.Prelude.{◌≡◌};
ghost use Rattle.std.specs.Option.{option_copied};
ghost use Rattle.xs_model.specs.Trees.{IsTree, node_at};
ghost use Rattle.mark_model.specs.Marks.{committed};

use node_tree::{Node, Tree};
use std::marker::Model;
use txn_access::Txn;
use watch_events::Nodes;
use xs_path::Path;

/// What a tree is once a transaction is committed to it. It can be looked at before that is done.
#[derive(Drop)]
pub struct Committed<'a> {
    tree: &'a Tree,
    txn: &'a Txn,
}

impl<'a> Model for Committed<'a> {
    ghost use Rattle.mark_model.specs.Marks.{committed};
    ghost use Rattle.xs_model.specs.Trees.{Tree, IsTree};

    ghost Value = { Tree };

    ghost view = { λ c. committed c.tree.now.nodes c.txn.now.marks };

    ghost invariant = { λ c. IsTree (committed c.tree.now.nodes c.txn.now.marks) };
}

impl<'a> Committed<'a> {
    /// The tree once this transaction is committed to it.
    pub fn new(tree: &'a Tree, txn: &'a Txn) -> Committed<'a>
        requires { IsTree (committed tree.now.nodes txn.now.marks) }
        ensures { result ≡ committed tree.now.nodes txn.now.marks }
    {
        Committed { tree, txn }
    }
}

impl<'a> Nodes for Committed<'a> {
    ghost nodes = { λ c. c };

    fn node(&self, path: &Path) -> Option<&Node> {
        self.txn.committed_node(self.tree, path)
    }
}
