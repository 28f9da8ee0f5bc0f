//! What events need of a tree.

ghost use Rattle.std.specs.Prelude.{◌≡◌};
ghost use Rattle.std.specs.Option.{option_copied};
ghost use Rattle.xs_model.specs.Trees.{Tree, IsTree, node_at};

use node_tree::{Node, View};
use xs_path::Path;

/// A tree whose nodes can be looked at: any view of one, and also one that is only looked at.
pub trait Nodes {
    /// Its nodes by path.
    ghost nodes: { Self → Tree };

    /// The node at a path, if there is one.
    fn node(&self, path: &Path) -> Option<&Node>
        ensures node { option_copied result ≡ node_at (nodes self.now) path.now }
        ensures tree { IsTree (nodes self.now) };
}

impl<V: View> Nodes for V {
    ghost nodes = { λ view. V.View.nodes view };

    fn node(&self, path: &Path) -> Option<&Node> {
        View::node(self, path)
    }
}
