//! Whether a transaction sees a node at a path, or a child of it, also where what it sees is no tree.

ghost use Rattle.std.specs.Prelude.{◌≡◌, true, Some, None, is_some, if◌then◌else◌};
ghost use Rattle.mark_model.specs.Marks.{overlay};
ghost use Rattle.node_tree.specs.Names.{first_name};
ghost use Rattle.txn_access.specs.Presence.{IsSearch};
ghost use Rattle.txn_access.specs.Steps.{is_seen, mark_on};
ghost use Rattle.xs_model.specs.Trees.{is_present, children};

use crate::Txn;
use crate::mark::Held;
use node_tree::{Tree, View};
use path_map::{PathMap, name_below};
use std::cmp::Ordering;
use xs_path::Path;

/// A step of a search for a child that is seen.
#[derive(Debug, Drop)]
pub struct Search<'a> {
    /// A name to which marks lead, where no node is seen: the next step goes on from it.
    pub passed: Option<&'a [u8]>,
    /// Where there is none, whether a child was found.
    pub found: bool,
}

impl Txn {
    /// Whether it sees a node at a path. What it sees over the tree need not be a tree itself, as where not all marks of
    /// it were restored. Costs O(log marks + log nodes) comparisons of paths.
    pub fn shows(&self, tree: &Tree, path: &Path) -> bool
        ensures { result ≡ is_present (overlay tree.now.nodes self.now.marks) path.now }
    {
        self.is_kept();
        self.over(path, tree.node(path)).is_some()
    }

    /// Whether it sees a child of a path. What it sees over the tree need not be a tree itself. Costs
    /// O(log marks + log nodes) comparisons of paths, and as much again for each name before the first such child to which
    /// marks lead and where no node is seen.
    pub fn shows_child(&self, tree: &Tree, path: &Path) -> bool
        ensures { result ≡ is_some (first_name (children (overlay tree.now.nodes self.now.marks) path.now)) }
    {
        let mut step = search_step(tree, &self.map, path, b"");
        'passed: while let Some(name) = step.passed {
            step = search_step(tree, &self.map, path, name);
        }
        step.found
    }
}

/// One step: of the tree's next name and the marks' next one the lesser.
fn search_step<'a>(tree: &'a Tree, map: &'a PathMap<Held>, path: &Path, leaf: &[u8]) -> Search<'a>
    ensures { IsSearch tree.now.nodes map.now.entries path.now leaf.now result }
{
    map.is_rising();
    tree.is_kept();
    let own = tree.child_after(path, leaf);
    let Some(marked) = map.next_past(path, leaf) else {
        return found(own.is_some());
    };
    let Some(name) = name_below(marked, path) else {
        return found(own.is_some());
    };
    let Some(own) = own else {
        return at_name(name, shows_marked(map, path, marked, false));
    };
    match own.cmp(name) {
        Ordering::Less => found(true),
        Ordering::Equal => at_name(name, shows_marked(map, path, marked, true)),
        Ordering::Greater => at_name(name, shows_marked(map, path, marked, false)),
    }
}

fn found<'a>(is: bool) -> Search<'a>
    ensures passed { result.passed ≡ None }
    ensures found { result.found ≡ is }
{
    Search {
        passed: None,
        found: is,
    }
}

/// A node is seen at the name, or the search goes on from it.
fn at_name(name: &[u8], is_seen: bool) -> Search<'_>
    ensures passed { result.passed ≡ (if is_seen then None else Some name.entry) }
    ensures found { result.found ≡ is_seen }
{
    Search {
        passed: if is_seen { None } else { Some(name) },
        found: is_seen,
    }
}

/// Whether a node is seen at the child to which a marked path leads, by whether one stands in the tree.
fn shows_marked(map: &PathMap<Held>, path: &Path, marked: &Path, under: bool) -> bool
    ensures { result ≡ is_seen (mark_on map.now.entries path.now marked.now) under }
{
    if path.depth() != marked.depth().saturating_sub(1) {
        return under;
    }
    match map.get(marked) {
        Some(held) => held.shows(under),
        None => under,
    }
}
