//! Laws over the definitions of trees and of their numbers. Each is the contract of a function that does nothing.

ghost use Rattle.std.specs.Prelude.{◌≡◌, true, false, List, [], ◌∷◌, Some, None};
ghost use Rattle.std.specs.FinMap.{is_sorted};
ghost use Rattle.path_map.specs.Marks.{paths};
ghost use Rattle.xs_model.specs.Paths.{Path, path_cmp};
ghost use Rattle.xs_model.specs.Requests.{is_root};
ghost use Rattle.xs_model.specs.Trees.{Tree, Node, Edit, IsTree, children, edited_at, edited, edit_paths, new_tree, has_entry};
ghost use Rattle.xs_model.specs.Changes.{changed_paths};
ghost use Rattle.xs_model.specs.Generations.{Generations, greatest, next_generation, stamped};
ghost use Rattle.node_tree.specs.KeptTree.{has_parent};
ghost use Rattle.node_tree.specs.Numbers.{renumbered, restamped, HaveSame};

/// The tree of a new store is one.
pub fn new_tree_is_tree()
    ensures { IsTree new_tree }
{}

/// A tree in which a path gets a node, below a parent that is there, is a tree.
pub fn set_keeps_tree()
    ensures { (tree : Tree) (p : Path) (node : Node) → IsTree tree → has_parent tree p ≡ true
        → has_entry node.perms ≡ true → IsTree (edited_at tree p (Some node)) }
{}

/// A tree from which a node without children is taken, but not `/`, is a tree.
pub fn remove_keeps_tree()
    ensures { (tree : Tree) (p : Path) → IsTree tree → is_root p ≡ false → children tree p ≡ []
        → IsTree (edited_at tree p None) }
{}

/// Where edits were made of a tree whose counter is its greatest number, and the paths that they changed were stamped,
/// the numbers are those of the definitions. Each list of paths may have them in any order, and more than once.
pub fn edits_and_stamp_are_stamped()
    ensures { (before : Tree) (gens : Generations) (edits : List Edit) (p : Path) (ps changed : List Path)
        → is_sorted path_cmp before ≡ true → paths gens ≡ paths before
        → HaveSame (p ∷ ps) (edit_paths edits) → HaveSame changed (changed_paths before (p ∷ ps) (edited before edits))
        → restamped changed (next_generation (greatest gens)) (renumbered gens edits) ≡ stamped gens before (p ∷ ps) (edited before edits) }
{}
