//! The parents that marks ask for.

ghost use Rattle.std.specs.Prelude.{◌≡◌, ◌++◌, [], ◌∷◌, OnOk, IfOk};
ghost use Rattle.std.specs.Option.{option_copied};
ghost use Rattle.kept_model.specs.Normal.{parent_or_root, parents_where};
ghost use Rattle.txn_access.specs.Entries.{entry_at};
ghost use Rattle.txn_normal.specs.Rules.{asks, told_made, told_came, asks_told, asked_at};

use node_tree::{Node, Tree, View};
use std::alloc::Global;
use txn_access::{EntryKind, Txn};
use xs_base::NoMemory;
use xs_path::{Path, Paths};

/// When a mark asks for one at the parent of its path.
#[derive(Clone, Copy, Debug, PartialEq, Eq)]
pub enum Rule {
    /// A node was made there.
    Made,
    /// By others a node came or went there.
    CameOrWent,
}

/// A mark as it is told.
type Told<'a> = (&'a Path, EntryKind, bool, Option<&'a Node>);

/// The parents that the marks of a transaction ask for, in the order of the marks; that of `/` is `/` itself. Costs
/// O(log nodes) comparisons of paths for each mark.
pub fn parents_where(alloc: Global, tree: &Tree, txn: &Txn, rule: Rule) -> Result<Paths, NoMemory>
    ensures { IfOk result (λ paths. paths ≡ parents_where (asks rule tree.now.nodes) txn.now.marks) }
{
    let mut paths = Paths::new(alloc);
    let mut left = txn.entries();
    'left: while let Some(told) = left.next_entry() {
        add_asked(alloc, tree, rule, told, &mut paths)?;
    }
    Ok(paths)
}

/// Adds the parent that a mark asks for, if it asks for one.
fn add_asked(
    alloc: Global,
    tree: &Tree,
    rule: Rule,
    told: Told<'_>,
    paths: &mut Paths,
) -> Result<(), NoMemory>
    ensures { OnOk result (paths.new ≡ paths.old ++ asked_at rule tree.now.nodes (entry_at told.entry)) }
{
    if !asks(rule, tree, told) {
        return Ok(());
    }
    paths.push(parent_or_root(alloc, told.0)?)?;
    Ok(())
}

fn asks(rule: Rule, tree: &Tree, told: Told<'_>) -> bool
    ensures { result ≡ asks_told rule tree.now.nodes (entry_at told.entry) }
{
    match rule {
        Rule::Made => is_made(tree, told.0, told.1, told.2),
        Rule::CameOrWent => came_or_went(tree, told.0, told.1, told.3),
    }
}

/// Whether a node was written that nobody else changed and that is not there.
fn is_made(tree: &Tree, path: &Path, kind: EntryKind, others: bool) -> bool
    ensures { result ≡ told_made tree.now.nodes path.now kind others }
{
    matches!(kind, EntryKind::Wrote) && !others && tree.node(path).is_none()
}

/// Whether there was a node before others changed the path, and is none now, or the other way round.
fn came_or_went(tree: &Tree, path: &Path, kind: EntryKind, old: Option<&Node>) -> bool
    ensures { result ≡ told_came tree.now.nodes path.now kind (option_copied old.entry) }
{
    matches!(kind, EntryKind::Kept) && old.is_some() != tree.node(path).is_some()
}

/// The path without its last name, and `/` for itself.
fn parent_or_root(alloc: Global, path: &Path) -> Result<Path, NoMemory>
    ensures { IfOk result (λ parent. parent ∷ [] ≡ parent_or_root path.now) }
{
    match path.parent(alloc)? {
        Some(parent) => Ok(parent),
        None => Path::root(alloc),
    }
}
