//! The transaction of what is said of its paths.

ghost use Rattle.std.specs.Prelude.{◌≡◌, OnOk, IfOk};
ghost use Rattle.std.specs.FinMap.{put};
ghost use Rattle.kept_model.specs.Normal.{mark_by, marks_by, parents_looked_at, parents_changed, normal};
ghost use Rattle.xs_model.specs.Paths.{path_cmp};

use crate::parents::{Rule, parents_where};
use crate::said::{Fact, Said};
use crate::same::same_found;
use node_tree::{Tree, View};
use path_map::PathMap;
use std::alloc::Global;
use txn_access::{EntryKind, Txn};
use xs_base::NoMemory;
use xs_path::Path;

/// The transaction of what is said of its paths, over a tree, so many of whose commands wrote something. A path that was
/// looked at, where something else stands now, was changed by others. What a stream leaves out is added: who made a node
/// looked at its parent, and where a node came or went by others, they changed its parent. Refused for want of memory.
/// Costs O(log marks + log nodes) comparisons of paths for each path, O(bytes and entries) for each node that was looked
/// at, and a copy of the node of a parent where that is to be kept.
pub fn normal(alloc: Global, tree: &Tree, said: PathMap<Said>, count: u32) -> Result<Txn, NoMemory>
    ensures marks { IfOk result (λ txn. txn.marks ≡ normal tree.now.nodes said.entries) }
    ensures count { IfOk result (λ txn. txn.count ≡ count) }
{
    let mut txn = marked(alloc, tree, said)?;
    txn.restore_count(count);
    look_at_parents(alloc, tree, &mut txn)?;
    change_parents(alloc, tree, &mut txn)?;
    Ok(txn)
}

/// A transaction with the marks that are said, and no more.
fn marked(alloc: Global, tree: &Tree, said: PathMap<Said>) -> Result<Txn, NoMemory>
    ensures { IfOk result (λ txn. txn.marks ≡ marks_by tree.now.nodes said.entries) }
{
    said.is_rising();
    let mut left = said;
    let mut txn = Txn::start(alloc);
    'left: while let Some((path, said)) = left.pop_first() {
        mark(tree, path, said, &mut txn)?;
    }
    Ok(txn)
}

/// Gives a path the mark that is said, which tells whether others changed what was seen there.
fn mark(tree: &Tree, path: Path, said: Said, txn: &mut Txn) -> Result<(), NoMemory>
    ensures { OnOk result (txn.new.marks ≡ put path_cmp path (mark_by tree.now.nodes path said) txn.old.marks) }
{
    match said.fact {
        Fact::Saw(found) => {
            let changed = !same_found(found.as_ref(), tree.node(&path));
            txn.restore(path, EntryKind::Seen, changed, found)
        }
        Fact::Changed(old) => txn.restore(path, EntryKind::Seen, true, old),
        Fact::Wrote { others, node } => txn.restore(path, EntryKind::Wrote, others, Some(node)),
        Fact::Gone { others } => txn.restore(path, EntryKind::Gone, others, None),
        Fact::Kept(old) => txn.restore(path, EntryKind::Kept, true, old),
    }
}

/// Who made a node looked at its parent.
fn look_at_parents(alloc: Global, tree: &Tree, txn: &mut Txn) -> Result<(), NoMemory>
    ensures marks { OnOk result (txn.new.marks ≡ parents_looked_at tree.now.nodes txn.old.marks) }
    ensures count { txn.new.count ≡ txn.old.count }
{
    let parents = parents_where(alloc, tree, txn, Rule::Made)?;
    txn.access(&parents)
}

/// Where a node came or went by others, they changed its parent.
fn change_parents(alloc: Global, tree: &Tree, txn: &mut Txn) -> Result<(), NoMemory>
    ensures marks { OnOk result (txn.new.marks ≡ parents_changed tree.now.nodes txn.old.marks) }
    ensures count { txn.new.count ≡ txn.old.count }
{
    let parents = parents_where(alloc, tree, txn, Rule::CameOrWent)?;
    txn.plan_notes(tree, &parents)?;
    txn.apply_notes();
    Ok(())
}
