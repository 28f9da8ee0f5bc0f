//! Marks as they are told one by one.

ghost use Rattle.std.specs.Prelude.{◌≡◌, IfOk};
ghost use Rattle.std.specs.Option.{option_copied};
ghost use Rattle.txn_access.specs.Entries.{kind_of, node_of, mark_by, FitsKind};
ghost use Rattle.txn_access.specs.MarkViews.{mark_of};

use crate::mark::{self, Held, Mark};
use node_tree::Node;
use std::alloc::Global;
use xs_base::NoMemory;

/// What a transaction's commands did at a path.
#[derive(Clone, Copy, Debug, PartialEq, Eq)]
pub enum EntryKind {
    /// They looked at it.
    Seen,
    /// They gave it a node.
    Wrote,
    /// They removed it.
    Gone,
    /// Nothing, and others changed it.
    Kept,
}

impl Held {
    /// The mark that is told so.
    pub fn told(kind: EntryKind, changed: bool, node: Option<Node>) -> Held
        requires { FitsKind kind changed node }
        ensures { result ≡ mark_by kind changed node }
    {
        Held {
            mark: told(kind, changed, node),
        }
    }

    /// A second mark like this one. Costs O(bytes of its node).
    pub fn copy(&self, alloc: Global) -> Result<Held, NoMemory>
        ensures { IfOk result (λ held. held ≡ self.now) }
    {
        let node = copied(alloc, self.node())?;
        Ok(Held::told(self.kind(), self.is_changed(), node))
    }

    /// What the commands did at the path.
    pub fn kind(&self) -> EntryKind
        ensures { result ≡ kind_of self.now }
    {
        match &self.mark {
            Mark::Seen => EntryKind::Seen,
            Mark::Changed(_) => EntryKind::Seen,
            Mark::Wrote { .. } => EntryKind::Wrote,
            Mark::Gone { .. } => EntryKind::Gone,
            Mark::Kept(_) => EntryKind::Kept,
        }
    }

    /// The node that it was given, or else what stood there before others changed it.
    pub fn node(&self) -> Option<&Node>
        ensures { option_copied result ≡ node_of self.now }
    {
        match &self.mark {
            Mark::Seen => None,
            Mark::Changed(old) => old.as_ref(),
            Mark::Wrote { node, .. } => Some(node),
            Mark::Gone { .. } => None,
            Mark::Kept(old) => old.as_ref(),
        }
    }
}

fn told(kind: EntryKind, changed: bool, node: Option<Node>) -> Mark
    ensures { mark_of result ≡ mark_by kind changed node }
{
    match kind {
        EntryKind::Seen => looked(changed, node),
        EntryKind::Wrote => mark::written(node, changed),
        EntryKind::Gone => Mark::Gone { others: changed },
        EntryKind::Kept => Mark::Kept(node),
    }
}

fn looked(changed: bool, node: Option<Node>) -> Mark
    ensures { mark_of result ≡ mark_by (EntryKind.Seen) changed node }
{
    if changed {
        Mark::Changed(node)
    } else {
        Mark::Seen
    }
}

/// The same node, if there is one.
fn copied(alloc: Global, node: Option<&Node>) -> Result<Option<Node>, NoMemory>
    ensures { IfOk result (λ copy. copy ≡ option_copied node.entry) }
{
    match node {
        Some(node) => Ok(Some(node.copy(alloc)?)),
        None => Ok(None),
    }
}
