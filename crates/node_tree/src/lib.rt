//! The tree of nodes (xenstore.txt).
//!
//! A [`Tree`] is a finite map from paths to nodes, each with a number that grows when the path changes. It holds `/`
//! and the parent of each of its other paths. Contracts see its nodes and its numbers by path, the counter from which
//! the next number is taken, and for how many further nodes it has memory; [`laws`] has that the tree stays one, and
//! what numbers edits and a stamp leave.
#![tactic(auto)]

mod entry;
pub mod laws;
mod nodes;
mod stamp;
mod view;

ghost use Rattle.std.specs.Prelude.{◌≡◌, ◌+◌, ◌<◌, ◌≤◌, true, false, [], ◌∷◌, Some, None, Ok, IfOk, IfSome, OnOk, max, if◌then◌else◌};
ghost use Rattle.std.specs.FinMap.{find, put};
ghost use Rattle.std.specs.Option.{option_copied, option_map};
ghost use Rattle.path_map.specs.Map.{most_kept};
ghost use Rattle.path_map.specs.Marks.{path_behind};
ghost use Rattle.xs_model.specs.Generations.{new_generations, greatest, greater, numbered, next_generation, generation_max};
ghost use Rattle.xs_model.specs.Paths.{child, text, path_of, path_cmp};
ghost use Rattle.xs_model.specs.Requests.{is_root};
ghost use Rattle.xs_model.specs.Trees.{IsTree, new_tree, node_at, is_present, children, edited_at, has_entry};
ghost use Rattle.node_tree.specs.KeptTree.{has_parent, IsKept, nodes_of, gens_of};
ghost use Rattle.node_tree.specs.Made.{IsMade};
ghost use Rattle.node_tree.specs.Names.{first_name, names_above};
ghost use Rattle.node_tree.specs.Numbers.{restamped, counted};
ghost use Rattle.node_tree.specs.MadeProofs.{made_nothing, made_more, made_backwards};

pub use entry::Entry;
pub use nodes::Node;
use path_map::{PathMap, Walk, name_below};
use std::alloc::Global;
use std::marker::Model;
pub use view::View;
use xs_base::NoMemory;
use xs_path::{Path, Paths};

/// A tree of nodes with a number for each path: xenstore.txt's generation of a node, as DIRECTORY_PART shows it. How
/// the numbers are counted is this project's own.
#[derive(Debug, Drop)]
pub struct Tree {
    map: PathMap<Entry>,
    counter: u64,
}

impl Model for Tree {
    ghost use Rattle.std.specs.Prelude.{◌≤◌};
    ghost use Rattle.std.specs.List.{AllByRecursion};
    ghost use Rattle.xs_model.specs.Trees.{IsTree};
    ghost use Rattle.xs_model.specs.Generations.{generation_max};
    ghost use Rattle.node_tree.specs.KeptTree.{KeptTree, nodes_of, gens_of};

    ghost Value = { KeptTree };

    ghost view = { λ t. record {
      nodes = nodes_of t.map.entries;
      gens = gens_of t.map.entries;
      counter = t.counter;
      spare = t.map.spare;
      kept = t.map.kept;
    } };

    ghost invariant = { λ t. record {
      tree : IsTree (nodes_of t.map.entries);
      numbers : AllByRecursion (λ e. e.1 ≤ generation_max) (gens_of t.map.entries);
      counter : t.counter ≤ generation_max;
    } };
}

impl Tree {
    /// The tree of a new store: `/` alone, with an empty value and the number 0.
    pub fn new(alloc: Global) -> Result<Tree, NoMemory>
        ensures nodes { IfOk result (λ tree. tree.nodes ≡ new_tree) }
        ensures gens { IfOk result (λ tree. tree.gens ≡ new_generations) }
        ensures counter { IfOk result (λ tree. tree.counter ≡ 0) }
    {
        let path = Path::root(alloc)?;
        let node = Node::root(alloc)?;
        let mut map = PathMap::new(alloc);
        map.reserve(1)?;
        map.put(
            path,
            Entry {
                node,
                generation: 0,
            },
        );
        Ok(Tree { map, counter: 0 })
    }

    /// What holds of every tree in memory. It does nothing.
    pub fn is_kept(&self)
        ensures { IsKept self.now }
    {
        let _counter = self.counter;
    }

    /// All nodes with their numbers, in the order of their paths, one after the other. O(1).
    pub fn walk(&self) -> Walk<'_, Entry>
        ensures nodes { nodes_of result ≡ self.now.nodes }
        ensures gens { gens_of result ≡ self.now.gens }
    {
        self.map.walk()
    }

    /// The first path behind this one, which need not be there itself. Costs O(log nodes) comparisons of paths.
    pub fn next_after(&self, path: &Path) -> Option<&Path>
        ensures { option_copied result ≡ path_behind self.now.nodes path.now }
    {
        self.map.next_after(path)
    }

    /// The number of a path, if it is there. Costs O(log nodes) comparisons of paths.
    pub fn generation(&self, path: &Path) -> Option<u64>
        ensures { result ≡ find path_cmp path.now self.now.gens }
    {
        match self.map.get(path) {
            Some(entry) => Some(entry.generation),
            None => None,
        }
    }

    /// Gives the changed paths that are there the number one above the counter, or the last of 48 bits, and the counter
    /// that number where one of them is. Takes no memory. Costs O(log nodes) comparisons for each of the paths.
    pub fn stamp(&mut self, changed: &Paths)
        ensures nodes { self.new.nodes ≡ self.old.nodes }
        ensures gens { self.new.gens ≡ restamped changed.now (next_generation self.old.counter) self.old.gens }
        ensures counter { self.new.counter ≡ counted changed.now self.old.counter self.old.gens }
        ensures spare { self.new.spare ≡ self.old.spare }
        ensures kept { self.new.kept ≡ self.old.kept }
        ensures numbered { self.old.counter ≡ greatest self.old.gens → self.new.gens ≡ numbered changed.now self.old.gens self.old.nodes }
        ensures greatest { self.old.counter ≡ greatest self.old.gens → self.new.counter ≡ greatest self.new.gens }
    {
        let number = stamp::next_generation(self.counter);
        let found = stamp::stamp_all(&mut self.map, changed, number);
        self.counter = stamp::chosen(found, number, self.counter);
    }

    /// Gives a path the number that it had, and raises the counter to it; says whether the path is there. Takes no
    /// memory. Costs O(log nodes) comparisons of paths.
    pub fn regenerate(&mut self, path: &Path, generation: u64) -> bool
        requires { generation ≤ generation_max }
        ensures found { result ≡ is_present self.old.nodes path.now }
        ensures after { self.new ≡ (if result then record self.old { gens = put path_cmp path.now generation self.old.gens; counter = greater self.old.counter generation } else self.old) }
    {
        match self.map.get_mut(path) {
            Some(entry) => entry.generation = generation,
            None => return false,
        }
        self.counter = self.counter.max(generation);
        true
    }
}

impl View for Tree {
    ghost nodes = { λ t. t.nodes };

    ghost spare = { λ t. t.spare };

    ghost made = { IsMade };

    /// The node at a path, if there is one. Costs O(log nodes) comparisons of paths.
    fn node(&self, path: &Path) -> Option<&Node>
        ensures node { option_copied result ≡ node_at self.now.nodes path.now }
        ensures tree { IsTree self.now.nodes }
    {
        match self.map.get(path) {
            Some(entry) => Some(&entry.node),
            None => None,
        }
    }

    /// The next name above `leaf` among those of a path's children, or the first of them where that is empty. Costs
    /// O(log nodes) comparisons of paths.
    fn child_after(&self, path: &Path, leaf: &[u8]) -> Option<&[u8]>
        ensures name { option_map (λ name. name.now) result ≡ first_name (names_above leaf.now (children self.now.nodes path.now)) }
        ensures spelled { IfSome result (λ name. path_of (text (child path.now name.now)) 0 ≡ Ok (child path.now name.now)) }
        ensures tree { IsTree self.now.nodes }
    {
        match self.map.next_past(path, leaf) {
            Some(next) => name_below(next, path),
            None => None,
        }
    }

    /// Takes memory for so many edits, and keeps a chunk for each of them at most. The nodes and their numbers are the
    /// same afterwards, also where there is no memory.
    fn reserve(&mut self, edits: usize) -> Result<(), NoMemory>
        ensures ok { OnOk result (edits ≤ self.new.spare) }
        ensures nodes { self.new.nodes ≡ self.old.nodes }
        ensures made { IsMade self.old [] self.new }
        ensures spare { self.old.spare ≤ self.new.spare }
        ensures kept { self.new.kept ≤ max self.old.kept (most_kept self.old.nodes edits) }
    {
        self.map.reserve(edits)
    }

    /// Gives a path its node, in the place of the one that it has or in a place reserved before. A path that is there
    /// keeps its number, a new one has 0. Takes no memory. Costs O(log nodes) comparisons of paths, and for a new path
    /// moves the entries of one chunk, and the list of chunks where that one was full.
    fn set(&mut self, path: Path, node: Node)
        requires parent { has_parent self.old.nodes path ≡ true }
        requires entry { has_entry node.perms ≡ true }
        requires spare { 0 < self.old.spare }
        ensures nodes { self.new.nodes ≡ edited_at self.old.nodes path (Some node) }
        ensures made { IsMade self.old ((path, Some node) ∷ []) self.new }
        ensures spare { self.old.spare ≤ self.new.spare + 1 }
        ensures kept { self.new.kept ≤ self.old.kept }
    {
        if let Some(entry) = self.map.get_mut(&path) {
            entry.node = node;
            return;
        }
        let generation = 0;
        self.map.put(path, Entry { node, generation });
    }

    /// Takes the node of a path away, if there is one, and its number. Takes no memory. Costs O(log nodes) comparisons
    /// of paths, and moves the entries of one chunk, and the list of chunks where that has no other entry.
    fn remove(&mut self, path: Path)
        requires below { is_root path ≡ false }
        requires childless { children self.old.nodes path ≡ [] }
        ensures nodes { self.new.nodes ≡ edited_at self.old.nodes path None }
        ensures made { IsMade self.old ((path, None) ∷ []) self.new }
        ensures spare { self.old.spare ≤ self.new.spare }
        ensures kept { self.new.kept ≡ self.old.kept }
    {
        self.map.remove(&path);
    }

    ghost made_nothing = { made_nothing };

    ghost made_more = { made_more };

    ghost made_backwards = { made_backwards };
}
