//! The names of the children that a transaction sees.

ghost use Rattle.std.specs.Prelude.{◌≡◌, Some, None};
ghost use Rattle.std.specs.Option.{option_copied, option_map};
ghost use Rattle.mark_model.specs.Marks.{overlay};
ghost use Rattle.xs_model.specs.Trees.{IsTree};
ghost use Rattle.txn_access.specs.Steps.{next_name, own_order, mark_on, is_seen, IsStep, IsSpelled};

use crate::mark::Held;
use node_tree::{Tree, View};
use path_map::{PathMap, name_below};
use std::cmp::Ordering;
use xs_path::Path;

/// A step from name to name.
#[derive(Debug, Drop)]
pub struct Step<'a> {
    /// A name to which marks lead, where no node is seen: the next step goes on from it.
    pub passed: Option<&'a [u8]>,
    /// Where there is none, the next name of a node that is seen.
    pub found: Option<&'a [u8]>,
}

/// The next name above `leaf` among those of the children that are seen, or the first of them where that is empty.
pub fn child_above<'a>(
    tree: &'a Tree,
    map: &'a PathMap<Held>,
    path: &Path,
    leaf: &[u8],
) -> Option<&'a [u8]>
    requires { IsTree (overlay tree.now.nodes map.now.entries) }
    ensures name { option_map (λ name. name.now) result ≡ next_name (overlay tree.now.nodes map.now.entries) path.now leaf.now }
    ensures spelled { IsSpelled path.now result }
{
    let mut next = next_step(tree, map, path, leaf);
    'passed: while let Some(name) = next.passed {
        next = next_step(tree, map, path, name);
    }
    next.found
}

/// One step: of the tree's next name and the marks' next one the lesser.
fn next_step<'a>(tree: &'a Tree, map: &'a PathMap<Held>, path: &Path, leaf: &[u8]) -> Step<'a>
    requires { IsTree (overlay tree.now.nodes map.now.entries) }
    ensures { IsStep tree.now.nodes map.now.entries path.now leaf.now result }
{
    map.is_rising();
    tree.is_kept();
    let own = tree.child_after(path, leaf);
    let Some(marked) = map.next_past(path, leaf) else {
        return found(own);
    };
    let Some(name) = name_below(marked, path) else {
        return found(own);
    };
    let mark = mark_on(map, path, marked);
    match own_order(own, name) {
        Ordering::Less => found(own),
        Ordering::Equal => {
            if is_seen(mark, true) {
                found(own)
            } else {
                passed(name)
            }
        }
        Ordering::Greater => {
            if is_seen(mark, false) {
                found(Some(name))
            } else {
                passed(name)
            }
        }
    }
}

fn found(name: Option<&[u8]>) -> Step<'_>
    ensures passed { result.passed ≡ None }
    ensures found { result.found ≡ name.entry }
{
    Step {
        passed: None,
        found: name,
    }
}

fn passed(name: &[u8]) -> Step<'_>
    ensures passed { result.passed ≡ Some name.entry }
    ensures found { result.found ≡ None }
{
    Step {
        passed: Some(name),
        found: None,
    }
}

/// The mark of a child to which a marked path leads, if that is the child itself.
fn mark_on<'a>(map: &'a PathMap<Held>, path: &Path, marked: &Path) -> Option<&'a Held>
    ensures { option_copied result ≡ mark_on map.now.entries path.now marked.now }
{
    if path.depth() == marked.depth().saturating_sub(1) {
        map.get(marked)
    } else {
        None
    }
}

/// Whether a node is seen, by a path's mark and by whether one stands in the tree.
fn is_seen(mark: Option<&Held>, under: bool) -> bool
    ensures { result ≡ is_seen (option_copied mark.entry) under }
{
    match mark {
        Some(held) => held.shows(under),
        None => under,
    }
}

/// The order of the tree's next name and the marks' next one; that of no name is behind all.
fn own_order(own: Option<&[u8]>, name: &[u8]) -> Ordering
    ensures { result ≡ own_order (option_map (λ own. own.now) own.entry) name.now }
{
    match own {
        Some(own) => own.cmp(name),
        None => Ordering::Greater,
    }
}
