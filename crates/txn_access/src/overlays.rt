//! What an open transaction sees.

ghost use Rattle.std.specs.Prelude.{◌≡◌, ◌-◌};
ghost use Rattle.mark_model.specs.Marks.{overlay as seen_tree};
ghost use Rattle.xs_model.specs.Trees.{IsTree};
ghost use Rattle.txn_access.specs.TreeProofs.{IsTree-prop};

use crate::txn::Txn;
use node_tree::{Node, Tree, View};
use xs_base::NoMemory;
use xs_path::Path;

/// The tree as a transaction sees it. What is written here becomes marks of the transaction.
#[derive(Debug, Drop)]
pub struct Overlay<'a> {
    pub(crate) tree: &'a Tree,
    pub(crate) txn: &'a mut Txn,
    pub(crate) looks: usize,
    ghost seen: { IsTree (seen_tree tree.now.nodes txn.now.marks) } by { IsTree-prop (seen_tree tree.now.nodes txn.now.marks) },
}

impl<'a> Overlay<'a> {
    /// The tree as a transaction sees it. Memory that the transaction has for further marks serves edits, but for that of
    /// so many paths that its commands look at.
    pub fn new(tree: &'a Tree, txn: &'a mut Txn, looks: usize) -> Overlay<'a>
        requires { IsTree (seen_tree tree.now.nodes txn.old.marks) }
        ensures tree { result.tree ≡ tree.entry }
        ensures same_reference { result.txn.ghost_name ≡ txn.entry.ghost_name }
        ensures txn { result.txn.now ≡ txn.old }
        ensures looks { result.looks ≡ looks }
    {
        Overlay { tree, txn, looks }
    }
}

impl View for Overlay<'_> {
    ghost use Rattle.std.specs.Prelude.{◌≤◌, ◌<◌, ◌+◌, true, false, [], ◌∷◌, Some, None, Ok, OnOk, IfSome};
    ghost use Rattle.std.specs.Option.{option_copied, option_map};
    ghost use Rattle.node_tree.specs.KeptTree.{has_parent};
    ghost use Rattle.node_tree.specs.Names.{first_name, names_above};
    ghost use Rattle.xs_model.specs.Paths.{child, text, path_of};
    ghost use Rattle.xs_model.specs.Requests.{is_root};
    ghost use Rattle.xs_model.specs.Trees.{node_at, children, edited_at, has_entry, is_present};
    ghost use Rattle.txn_access.specs.Overlays.{IsWritten};
    ghost use Rattle.txn_access.specs.OverlayProofs.{written_nothing, written_more, written_backwards};

    ghost nodes = { λ o. seen_tree o.tree.now.nodes o.txn.now.marks };

    ghost spare = { λ o. o.txn.now.spare - o.looks };

    ghost made = { IsWritten };

    /// The node that is seen at a path, if there is one. Costs O(log marks) and, where no mark shows it, O(log nodes)
    /// comparisons of paths.
    fn node(&self, path: &Path) -> Option<&Node> {
        self.txn.is_kept();
        self.txn.over(path, self.tree.node(path))
    }

    /// The next name above `leaf` among those of the children that are seen, or the first of them where that is empty.
    /// Costs O(log marks) and O(log nodes) comparisons of paths, and as much again for each child between that is not
    /// seen.
    fn child_after(&self, path: &Path, leaf: &[u8]) -> Option<&[u8]> {
        self.txn.child_above(self.tree, path, leaf)
    }

    /// Takes memory for so many edits, and for the paths that are looked at.
    fn reserve(&mut self, edits: usize) -> Result<(), NoMemory> {
        let Some(marks) = edits.checked_add(self.looks) else {
            return Err(NoMemory);
        };
        self.txn.reserve_change(marks)
    }

    /// Gives a path its node, as a mark. Takes no memory. Costs O(log marks) comparisons of paths.
    fn set(&mut self, path: Path, node: Node) {
        self.tree.is_kept();
        self.txn.is_kept();
        self.txn.write(path, Some(node));
    }

    /// Takes the node of a path away, as a mark. Takes no memory. Costs O(log marks) comparisons of paths.
    fn remove(&mut self, path: Path) {
        self.tree.is_kept();
        self.txn.is_kept();
        self.txn.write(path, None);
    }

    ghost made_nothing = { written_nothing };

    ghost made_more = { written_more };

    ghost made_backwards = { written_backwards };
}
