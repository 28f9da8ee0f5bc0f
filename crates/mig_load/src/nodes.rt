//! The nodes of the store that came.

ghost use Rattle.std.specs.Prelude.{◌≡◌, ◌≤◌, ◌||◌, true, false, [], if◌then◌else◌, IfOk, OnOk, OnErr};
ghost use Rattle.std.specs.FinMap.{put};
ghost use Rattle.xs_model.specs.Generations.{greater, greatest, generation_max, new_generations};
ghost use Rattle.xs_model.specs.Paths.{path_cmp};
ghost use Rattle.xs_model.specs.Requests.{is_root};
ghost use Rattle.xs_model.specs.Trees.{has_entry, is_present, new_tree};
ghost use Rattle.node_tree.specs.KeptTree.{has_parent};

use node_tree::{Node, Tree, View};
use std::alloc::Global;
use std::marker::Model;
use xs_base::NoMemory;
use xs_path::Path;

/// The tree of a new store with the nodes that came, and whether `/` is one of them. Contracts see the nodes and their
/// numbers by path.
#[derive(Drop)]
pub struct Nodes {
    tree: Tree,
    has_root: bool,
}

impl Model for Nodes {
    ghost use Rattle.std.specs.Prelude.{◌≡◌, []};
    ghost use Rattle.xs_model.specs.Generations.{greater, greatest, generation_of};
    ghost use Rattle.mig_load.specs.Nodes.{Nodes, IsNodes};

    ghost Value = { Nodes };

    ghost view = { λ nodes. record {
      tree = nodes.tree.nodes;
      gens = nodes.tree.gens;
      has_root = nodes.has_root;
    } };

    // The next change of the store takes the number above the greatest one.
    ghost invariant = { λ nodes. IsNodes nodes.tree.gens nodes.tree.counter nodes.has_root };
}

/// Whether the parent of a path is there; `/` wants none.
fn has_parent(alloc: Global, tree: &Tree, path: &Path) -> Result<bool, NoMemory>
    ensures { IfOk result (λ has. has ≡ has_parent tree.now.nodes path.now) }
{
    match path.parent(alloc)? {
        Some(parent) => Ok(tree.node(&parent).is_some()),
        None => Ok(true),
    }
}

/// Gives a path its node and its number. Refused, the nodes and numbers are as before.
fn put_in(
    alloc: Global,
    tree: &mut Tree,
    path: Path,
    node: Node,
    generation: u64,
) -> Result<(), NoMemory>
    requires parent { has_parent tree.old.nodes path ≡ true }
    requires entry { has_entry node.perms ≡ true }
    requires small { generation ≤ generation_max }
    ensures nodes { OnOk result (tree.new.nodes ≡ put path_cmp path node tree.old.nodes) }
    ensures gens { OnOk result (tree.new.gens ≡ put path_cmp path generation tree.old.gens) }
    ensures counter { OnOk result (tree.new.counter ≡ greater tree.old.counter generation) }
    ensures same_nodes { OnErr result (tree.new.nodes ≡ tree.old.nodes) }
    ensures same_gens { OnErr result (tree.new.gens ≡ tree.old.gens) }
    ensures same_counter { OnErr result (tree.new.counter ≡ tree.old.counter) }
{
    let place = path.copy(alloc)?;
    tree.reserve(1)?;
    tree.set(path, node);
    tree.regenerate(&place, generation);
    Ok(())
}

impl Nodes {
    /// The tree of a new store, where the first record of `/` counts.
    pub fn new(alloc: Global) -> Result<Nodes, NoMemory>
        ensures { IfOk result (λ nodes. nodes ≡ record { tree = new_tree; gens = new_generations; has_root = false }) }
    {
        let tree = Tree::new(alloc)?;
        Ok(Nodes {
            tree,
            has_root: false,
        })
    }

    /// Whether a node of this path came. O(log nodes) comparisons of paths.
    pub fn has_come(&self, path: &Path) -> bool
        ensures { result ≡ (if is_root path.now then self.now.has_root else is_present self.now.tree path.now) }
    {
        if path.is_root() {
            return self.has_root;
        }
        self.tree.node(path).is_some()
    }

    /// Whether `/` came once this path did.
    fn has_root_with(&self, path: &Path) -> bool
        ensures { result ≡ (self.now.has_root || is_root path.now) }
    {
        self.has_root || path.is_root()
    }

    /// Whether the parent of a path is there; `/` wants none. O(log nodes) comparisons of paths.
    pub fn has_parent(&self, alloc: Global, path: &Path) -> Result<bool, NoMemory>
        ensures { IfOk result (λ has. has ≡ has_parent self.now.tree path.now) }
    {
        has_parent(alloc, &self.tree, path)
    }

    /// Gives a path that did not come its node and its number. Refused, nothing has changed. O(log nodes) comparisons of
    /// paths.
    pub fn put(
        &mut self,
        alloc: Global,
        path: Path,
        node: Node,
        generation: u64,
    ) -> Result<(), NoMemory>
        requires new { (if is_root path then self.old.has_root else is_present self.old.tree path) ≡ false }
        requires parent { has_parent self.old.tree path ≡ true }
        requires entry { has_entry node.perms ≡ true }
        requires small { generation ≤ generation_max }
        ensures ok { OnOk result (self.new ≡ record {
          tree = put path_cmp path node self.old.tree;
          gens = put path_cmp path generation self.old.gens;
          has_root = self.old.has_root || is_root path;
        }) }
        ensures err { OnErr result (self.new ≡ self.old) }
    {
        self.tree.is_kept();
        let has_root = self.has_root_with(&path);
        put_in(alloc, &mut self.tree, path, node, generation)?;
        self.has_root = has_root;
        Ok(())
    }

    /// The tree itself.
    pub fn into_tree(self) -> Tree
        ensures nodes { result.nodes ≡ self.tree }
        ensures gens { result.gens ≡ self.gens }
        ensures counter { result.counter ≡ greatest result.gens }
    {
        self.tree
    }
}
