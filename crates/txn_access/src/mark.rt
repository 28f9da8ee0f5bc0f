//! Marks.

ghost use Rattle.std.specs.Prelude.{◌≡◌, Some, None, is_some};
ghost use Rattle.std.specs.Option.{option_copied, option_map};
ghost use Rattle.mark_model.specs.Marks.{Seen, accessed_mark, written_mark, noted_mark, is_changed, is_conflict, written};
ghost use Rattle.txn_access.specs.MarkViews.{mark_of};
ghost use Rattle.txn_access.specs.Sights.{seen_by, left_by};
ghost use Rattle.txn_access.specs.Steps.{is_seen};
ghost use Rattle.txn_access.specs.Txns.{wants_old};

use node_tree::Node;
use std::marker::Model;
use std::mem;

/// What a transaction keeps at a path. The node that stood at a path, or none, is that before the first change by others.
#[derive(Debug, Drop)]
pub enum Mark {
    /// Its commands looked at the path.
    Seen,
    /// They looked at it, and others changed it: what stood there.
    Changed(Option<Node>),
    /// They gave it this node.
    Wrote { others: bool, node: Node },
    /// They removed it.
    Gone { others: bool },
    /// Others changed it, and no command looked at it: what stood there.
    Kept(Option<Node>),
}

/// A mark as contracts see it.
#[derive(Debug, Drop)]
pub struct Held {
    pub mark: Mark,
}

impl Model for Held {
    ghost use Rattle.mark_model.specs.Marks.{Mark};
    ghost use Rattle.txn_access.specs.MarkViews.{mark_of};

    ghost Value = { Mark };

    ghost view = { λ held. mark_of held.mark };
}

impl Held {
    /// A command looked at a path without a mark.
    pub fn seen() -> Held
        ensures { result ≡ Seen }
    {
        Held { mark: Mark::Seen }
    }

    /// Others changed a path without a mark: what stood there.
    pub fn kept(old: Option<Node>) -> Held
        ensures { result ≡ noted_mark old None }
    {
        Held {
            mark: Mark::Kept(old),
        }
    }

    /// A command gave a path its node, or removed it.
    pub fn written(node: Option<Node>, others: bool) -> Held
        ensures { result ≡ written_mark node others }
    {
        Held {
            mark: written(node, others),
        }
    }

    /// A command looked at the path.
    pub fn access(&mut self)
        ensures { self.new ≡ accessed_mark (Some self.old) }
    {
        let mark = mem::replace(&mut self.mark, Mark::Seen);
        self.mark = accessed(mark);
    }

    /// A command gave the path its node, or removed it.
    pub fn write(&mut self, node: Option<Node>)
        ensures { self.new ≡ written_mark node (is_changed (Some self.old)) }
    {
        let others = self.is_changed();
        self.mark = written(node, others);
    }

    /// Others changed the path: what stood there just before.
    pub fn note(&mut self, old: Option<Node>)
        ensures { self.new ≡ noted_mark old (Some self.old) }
    {
        let mark = mem::replace(&mut self.mark, Mark::Seen);
        self.mark = noted(mark, old);
    }

    /// Whether others changed the path.
    pub fn is_changed(&self) -> bool
        ensures { result ≡ is_changed (Some self.now) }
    {
        match &self.mark {
            Mark::Seen => false,
            Mark::Changed(_) => true,
            Mark::Wrote { others, .. } => *others,
            Mark::Gone { others } => *others,
            Mark::Kept(_) => true,
        }
    }

    /// Whether others changed the path, and a command looked at it or wrote it.
    pub fn is_conflict(&self) -> bool
        ensures { result ≡ is_conflict self.now }
    {
        self.is_changed() && !matches!(&self.mark, Mark::Kept(_))
    }

    /// Whether a change by others needs the node that stood there.
    pub fn wants_old(&self) -> bool
        ensures { result ≡ wants_old (Some self.now) }
    {
        matches!(&self.mark, Mark::Seen)
    }

    /// Whether a node is seen at the path, by whether one stands in the tree.
    pub fn shows(&self, under: bool) -> bool
        ensures { result ≡ is_seen (Some self.now) under }
    {
        match &self.mark {
            Mark::Seen => under,
            Mark::Changed(old) => old.is_some(),
            Mark::Wrote { .. } => true,
            Mark::Gone { .. } => false,
            Mark::Kept(old) => old.is_some(),
        }
    }

    /// Whether a commit leaves a node at the path, if it makes something of it.
    pub fn leaves(&self) -> Option<bool>
        ensures { result ≡ option_map (λ new. is_some new) (written self.now) }
    {
        match &self.mark {
            Mark::Seen => None,
            Mark::Changed(_) => None,
            Mark::Wrote { .. } => Some(true),
            Mark::Gone { .. } => Some(false),
            Mark::Kept(_) => None,
        }
    }

    /// What is seen at the path, over the node that stands in the tree.
    pub fn over<'a>(&'a self, under: Option<&'a Node>) -> Option<&'a Node>
        ensures { option_copied result ≡ seen_by (Some self.now) (option_copied under.entry) }
    {
        match &self.mark {
            Mark::Seen => under,
            Mark::Changed(old) => old.as_ref(),
            Mark::Wrote { node, .. } => Some(node),
            Mark::Gone { .. } => None,
            Mark::Kept(old) => old.as_ref(),
        }
    }

    /// What a commit leaves at the path, over the node that stands in the tree.
    pub fn left<'a>(&'a self, under: Option<&'a Node>) -> Option<&'a Node>
        ensures { option_copied result ≡ left_by (Some self.now) (option_copied under.entry) }
    {
        match &self.mark {
            Mark::Seen => under,
            Mark::Changed(_) => under,
            Mark::Wrote { node, .. } => Some(node),
            Mark::Gone { others: _ } => None,
            Mark::Kept(_) => under,
        }
    }
}

fn accessed(mark: Mark) -> Mark
    ensures { mark_of result ≡ accessed_mark (Some (mark_of mark)) }
{
    match mark {
        Mark::Seen => Mark::Seen,
        Mark::Changed(old) => Mark::Changed(old),
        Mark::Wrote { others, node } => Mark::Wrote { others, node },
        Mark::Gone { others } => Mark::Gone { others },
        Mark::Kept(old) => Mark::Changed(old),
    }
}

pub fn written(node: Option<Node>, others: bool) -> Mark
    ensures { mark_of result ≡ written_mark node others }
{
    match node {
        Some(node) => Mark::Wrote { others, node },
        None => Mark::Gone { others },
    }
}

fn noted(mark: Mark, old: Option<Node>) -> Mark
    ensures { mark_of result ≡ noted_mark old (Some (mark_of mark)) }
{
    match mark {
        Mark::Seen => Mark::Changed(old),
        Mark::Changed(first) => Mark::Changed(first),
        Mark::Wrote { node, .. } => Mark::Wrote { others: true, node },
        Mark::Gone { .. } => Mark::Gone { others: true },
        Mark::Kept(first) => Mark::Kept(first),
    }
}
