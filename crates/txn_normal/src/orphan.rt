//! Nodes without their parents.

ghost use Rattle.std.specs.Prelude.{◌≡◌};
ghost use Rattle.kept_model.specs.Normal.{is_orphan_in};
ghost use Rattle.mark_model.specs.Marks.{overlay};

use node_tree::Tree;
use txn_access::Txn;
use xs_path::Path;

/// Whether a path leaves a node without its parent in what a transaction sees: it is there and its parent is not, or it is
/// not there and a child of it is, or it is `/` and not there. Takes no memory: the path becomes that of its parent. Costs
/// O(log marks + log nodes) comparisons of paths, and as much again for each name to which marks lead below an absent path
/// and where no node is seen.
pub fn is_orphan(tree: &Tree, txn: &Txn, path: Path) -> bool
    ensures { result ≡ is_orphan_in (overlay tree.now.nodes txn.now.marks) path }
{
    if !txn.shows(tree, &path) {
        return path.is_root() || txn.shows_child(tree, &path);
    }
    let mut parent = path;
    parent.pop() && !txn.shows(tree, &parent)
}
