//! What commands need of a tree.

ghost use Rattle.std.specs.Prelude.{◌≡◌, ◌+◌, ◌<◌, ◌≤◌, ℕ, [], ◌∷◌, ◌++◌, List, true, false, Some, None, Ok, OnOk, IfSome};
ghost use Rattle.std.specs.Option.{option_copied, option_map};
ghost use Rattle.xs_model.specs.Trees.{Tree, Edit, IsTree, node_at, is_present, children, edited_at, has_entry};
ghost use Rattle.xs_model.specs.Paths.{Path, child, text, path_of};
ghost use Rattle.xs_model.specs.Requests.{is_root};
ghost use Rattle.xs_model.specs.Commands.{removals};
ghost use Rattle.node_tree.specs.KeptTree.{has_parent};
ghost use Rattle.node_tree.specs.Names.{first_name, names_above};

use crate::Node;
use xs_base::NoMemory;
use xs_path::Path;

/// A tree that commands look at and edit: the store's own, or what a transaction sees.
pub trait View {
    /// Its nodes by path.
    ghost nodes: { Self → Tree };

    /// For how many further edits it has memory.
    ghost spare: { Self → ℕ };

    /// What it was, was edited so, and is. It says more than its nodes do, as that a node was written again.
    ghost made: { Self → List Edit → Self → Type 0 };

    /// The node at a path, if there is one.
    fn node(&self, path: &Path) -> Option<&Node>
        ensures node { option_copied result ≡ node_at (nodes self.now) path.now }
        ensures tree { IsTree (nodes self.now) };

    /// The least name above `leaf` among those of the children of a path, an empty `leaf` standing below all.
    fn child_after(&self, path: &Path, leaf: &[u8]) -> Option<&[u8]>
        ensures name { option_map (λ name. name.now) result ≡ first_name (names_above leaf.now (children (nodes self.now) path.now)) }
        // The child's text reads as the child's path.
        ensures spelled { IfSome result (λ name. path_of (text (child path.now name.now)) 0 ≡ Ok (child path.now name.now)) }
        ensures tree { IsTree (nodes self.now) };

    /// Takes memory for so many edits. The nodes are the same afterwards, also where there is no memory.
    fn reserve(&mut self, edits: usize) -> Result<(), NoMemory>
        ensures ok { OnOk result (edits ≤ spare self.new) }
        ensures nodes { nodes self.new ≡ nodes self.old }
        ensures made { made self.old [] self.new }
        ensures spare { spare self.old ≤ spare self.new };

    /// Gives a path its node. It takes no memory but what was reserved.
    fn set(&mut self, path: Path, node: Node)
        requires parent { has_parent (nodes self.old) path ≡ true }
        requires entry { has_entry node.perms ≡ true }
        requires spare { 0 < spare self.old }
        ensures nodes { nodes self.new ≡ edited_at (nodes self.old) path (Some node) }
        ensures made { made self.old ((path, Some node) ∷ []) self.new }
        ensures spare { spare self.old ≤ spare self.new + 1 };

    /// Removes a node that has no children. It takes no memory but what was reserved.
    fn remove(&mut self, path: Path)
        requires below { is_root path ≡ false }
        requires present { is_present (nodes self.old) path ≡ true }
        requires childless { children (nodes self.old) path ≡ [] }
        requires spare { 0 < spare self.old }
        ensures nodes { nodes self.new ≡ edited_at (nodes self.old) path None }
        ensures made { made self.old ((path, None) ∷ []) self.new }
        ensures spare { spare self.old ≤ spare self.new + 1 };

    /// Nothing was made of what stays.
    ghost made_nothing: { (v : Self) → made v [] v };

    /// Edits made after edits.
    ghost made_more: { (u v w : Self) (es fs : List Edit) → made u es v → made v fs w → made u (es ++ fs) w };

    /// A removal made after other removals counts as made before them: so a list of removals that is made from its last
    /// to its first is made.
    ghost made_backwards: { (u v w : Self) (p : Path) (ps : List Path) → made u (removals ps) v → made v ((p, None) ∷ []) w → made u (removals (p ∷ ps)) w };
}
