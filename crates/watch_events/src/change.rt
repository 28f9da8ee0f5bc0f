//! The events of a change.

ghost use Rattle.std.specs.Prelude.{◌≡◌, ◌++◌, true, filter_map, map, IfOk, IfSome, OnOk};
ghost use Rattle.std.specs.Option.{option_copied, option_to_list};
ghost use Rattle.xs_model.specs.Paths.{Path as Place};
ghost use Rattle.xs_model.specs.Trees.{is_present, has_entry};
ghost use Rattle.xs_model.specs.Watches.{as_set, in_order, is_gone_with_parent, event_at, events};
ghost use Rattle.watch_events.specs.Rising.{is_rising, perms_there};

use crate::Nodes;
use path_map::PathMap;
use std::alloc::Global;
use std::marker::Model;
use xs_base::{Items, NoMemory};
use xs_path::{Path, Paths};
use xs_perms::Perms;

/// Something happened at a path.
#[derive(Debug, Drop)]
pub struct Change {
    /// The path at which it happened.
    pub path: Path,
    /// Whether it is for watches on this path alone, since its node went with its parent. Else it is also for watches
    /// above.
    pub exact: bool,
}

impl Model for Change {
    ghost use Rattle.xs_model.specs.Watches.{Event};

    ghost Value = { Event };

    ghost view = { λ c. record { path = c.path; exact = c.exact } };
}

/// Events of a change.
pub type Changes = Items<Change>;

/// The events of a change from one tree to another that wrote these paths: one at each written path that is there before
/// or after it, rising.
///
/// Costs O(1) look-ups for each of the paths where they rise already, and else O(paths · log paths) comparisons of paths
/// besides.
pub fn changes<A: Nodes, B: Nodes>(
    alloc: Global,
    before: &A,
    written: &Paths,
    after: &B,
) -> Result<Changes, NoMemory>
    ensures { IfOk result (λ changes. changes ≡ events (A.nodes before.now) written.now (B.nodes after.now)) }
{
    if is_rising(written.as_slice()) {
        return changes_at(alloc, before, written.as_slice(), after);
    }
    let paths = in_order(alloc, written.as_slice())?;
    changes_at(alloc, before, paths.as_slice(), after)
}

/// The events at these paths, one after the other.
fn changes_at<A: Nodes, B: Nodes>(
    alloc: Global,
    before: &A,
    paths: &[Path],
    after: &B,
) -> Result<Changes, NoMemory>
    ensures { IfOk result (λ changes. changes ≡ filter_map (event_at (A.nodes before.now) (B.nodes after.now)) paths.now) }
{
    let mut changes = Changes::new(alloc);
    for path in paths {
        push_change(alloc, before, path, after, &mut changes)?;
    }
    Ok(changes)
}

/// Appends the event at a path, if there is one.
fn push_change<A: Nodes, B: Nodes>(
    alloc: Global,
    before: &A,
    path: &Path,
    after: &B,
    changes: &mut Changes,
) -> Result<(), NoMemory>
    ensures { OnOk result (changes.new ≡ changes.old ++ option_to_list (event_at (A.nodes before.now) (B.nodes after.now) path.now)) }
{
    if !is_there(before, path) && !is_there(after, path) {
        return Ok(());
    }
    let exact = is_gone_with_parent(alloc, after, path)?;
    let path = path.copy(alloc)?;
    changes.push(Change { path, exact })
}

/// Whether a path has a node.
fn is_there<N: Nodes>(tree: &N, path: &Path) -> bool
    ensures { result ≡ is_present (N.nodes tree.now) path.now }
{
    tree.node(path).is_some()
}

/// Whether a path has no node, and its parent has none either.
fn is_gone_with_parent<N: Nodes>(alloc: Global, tree: &N, path: &Path) -> Result<bool, NoMemory>
    ensures { IfOk result (λ gone. gone ≡ is_gone_with_parent (N.nodes tree.now) path.now) }
{
    if is_there(tree, path) {
        return Ok(false);
    }
    match path.parent(alloc)? {
        Some(parent) => Ok(!is_there(tree, &parent)),
        None => Ok(true),
    }
}

/// Whether each path stands behind the one before it.
fn is_rising(paths: &[Path]) -> bool
    ensures { result ≡ is_rising paths.now }
{
    for place in 1..paths.len() {
        if paths[place - 1] >= paths[place] {
            return false;
        }
    }
    true
}

/// The paths in order, each once.
fn in_order(alloc: Global, paths: &[Path]) -> Result<Paths, NoMemory>
    ensures { IfOk result (λ rising. rising ≡ in_order paths.now) }
{
    let set = set_of(alloc, paths)?;
    keys(alloc, set)
}

/// The paths as the keys of a map.
fn set_of(alloc: Global, paths: &[Path]) -> Result<PathMap<()>, NoMemory>
    ensures { IfOk result (λ set. set.entries ≡ as_set paths.now) }
{
    let mut set = PathMap::new(alloc);
    let mut left = paths.len();
    'left: while left > 0 {
        left -= 1;
        set.reserve(1)?;
        set.put(paths[left].copy(alloc)?, ());
    }
    Ok(set)
}

/// The keys of a map.
fn keys(alloc: Global, set: PathMap<()>) -> Result<Paths, NoMemory>
    ensures { IfOk result (λ paths. paths ≡ map (λ e. e.0) set.entries) }
{
    let mut left = set;
    let mut paths = Paths::new(alloc);
    'left: while let Some((path, ())) = left.pop_first() {
        paths.push(path)?;
    }
    Ok(paths)
}

/// The permission entries by which an event at a path is judged: those of its node after the change, or before it where
/// the node is gone. Costs two look-ups.
pub fn perms_at<'a, A: Nodes, B: Nodes>(
    before: &'a A,
    path: &Path,
    after: &'a B,
) -> Option<&'a Perms>
    ensures perms { option_copied result ≡ perms_there (A.nodes before.now) (B.nodes after.now) path.now }
    ensures entry { IfSome result (λ perms. has_entry perms.now ≡ true) }
{
    match after.node(path) {
        Some(node) => Some(&node.perms),
        None => match before.node(path) {
            Some(node) => Some(&node.perms),
            None => None,
        },
    }
}
