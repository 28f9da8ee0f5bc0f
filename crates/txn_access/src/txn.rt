//! Open transactions.

ghost use Rattle.std.specs.Prelude.{◌≡◌, ◌+◌, ◌<◌, ◌≤◌, ◌⊎◌, [], true, false, length, max, is_some, Option, None, OnOk, OnErr, IfOk, IfErr};
ghost use Rattle.std.specs.Option.{option_copied, option_map};
ghost use Rattle.machine_model.specs.Transactions.{within_count};
ghost use Rattle.mark_model.specs.Marks.{overlay, committed, written_paths, mark_at, access_all, note, note_all, write, has_conflict, first_conflict};
ghost use Rattle.path_map.specs.Map.{most_kept};
ghost use Rattle.txn_access.specs.Plans.{IsPlan};
ghost use Rattle.txn_access.specs.Sights.{seen_by, left_by};
ghost use Rattle.txn_access.specs.Steps.{next_name, IsSpelled};
ghost use Rattle.txn_access.specs.Txns.{IsTxn, Plans, note_each, wants_old};
ghost use Rattle.xs_model.specs.Generations.{greatest, stamped};
ghost use Rattle.xs_model.specs.Trees.{IsTree, Node as ModelNode, node_at};

use crate::mark::Held;
use crate::plan::Plan;
use crate::{commit, marks, names, plan};
use node_tree::{Node, Tree, View};
use path_map::PathMap;
use std::alloc::Global;
use std::marker::Model;
use std::mem;
use xs_base::NoMemory;
use xs_path::{Path, Paths};

/// The greatest count.
const COUNT_MAX: u32 = 4294967295;

/// What an open transaction keeps: a mark at each path that matters to it, and how many of its commands wrote something.
/// The tree stays where it is.
#[derive(Debug, Drop)]
pub struct Txn {
    pub(crate) map: PathMap<Held>,
    pub(crate) count: u32,
    // What it is to note once a change is made.
    pub(crate) pending: Vec<(Path, Option<Node>)>,
    pub(crate) alloc: Global,
}

impl Model for Txn {
    ghost use Rattle.txn_access.specs.Plans.{IsPlan};
    ghost use Rattle.txn_access.specs.Sights.{seen_by};
    ghost use Rattle.txn_access.specs.Steps.{next_name, IsSpelled};
    ghost use Rattle.txn_access.specs.Txns.{Txn};

    ghost Value = { Txn };

    ghost view = { λ t. record {
      marks = t.map.entries;
      count = t.count;
      spare = t.map.spare;
      kept = t.map.kept;
      pending = t.pending.items;
    } };
}

impl Txn {
    /// A transaction that did nothing. It takes no memory.
    pub fn start(alloc: Global) -> Txn
        ensures { result ≡ record { marks = []; count = 0; spare = 0; kept = 0; pending = [] } }
    {
        Txn {
            map: PathMap::new(alloc),
            count: 0,
            pending: Vec::new(alloc),
            alloc,
        }
    }

    /// What holds of every transaction. It does nothing.
    pub fn is_kept(&self)
        ensures { IsTxn self.now }
    {
        self.map.is_rising();
        let _count = self.count;
    }

    /// Takes memory for so many further marks. The marks are the same afterwards, also where there is no memory.
    pub fn reserve_change(&mut self, paths: usize) -> Result<(), NoMemory>
        ensures ok { OnOk result (paths ≤ self.new.spare) }
        ensures marks { self.new.marks ≡ self.old.marks }
        ensures count { self.new.count ≡ self.old.count }
        ensures spare { self.old.spare ≤ self.new.spare }
        ensures kept { self.new.kept ≤ max self.old.kept (most_kept self.old.marks paths) }
    {
        self.map.reserve(paths)
    }

    /// Its commands looked at these paths. Takes no memory. Costs O(log marks) comparisons for each of them.
    pub fn look(&mut self, paths: Paths)
        requires { length paths ≤ self.old.spare }
        ensures marks { self.new.marks ≡ access_all paths self.old.marks }
        ensures count { self.new.count ≡ self.old.count }
        ensures kept { self.new.kept ≤ self.old.kept }
    {
        let mut left = paths.into_vec();
        left.reverse();
        'left: while !left.is_empty() {
            let path = left.pop().unwrap();
            marks::access(&mut self.map, path);
        }
    }

    /// The same of copies of these paths, all or none.
    pub fn access(&mut self, paths: &Paths) -> Result<(), NoMemory>
        ensures ok { OnOk result (self.new.marks ≡ access_all paths.now self.old.marks) }
        ensures err { OnErr result (self.new.marks ≡ self.old.marks) }
        ensures count { self.new.count ≡ self.old.count }
    {
        self.reserve_change(paths.len())?;
        let copies = copies(self.alloc, paths.as_slice())?;
        self.look(copies);
        Ok(())
    }

    /// Others changed the path: the node, or none, that stood there just before. Takes no memory. Costs O(log marks)
    /// comparisons of paths.
    pub fn note_change(&mut self, path: Path, old: Option<Node>)
        requires { 0 < self.old.spare }
        ensures marks { self.new.marks ≡ note path old self.old.marks }
        ensures count { self.new.count ≡ self.old.count }
        ensures spare { self.old.spare ≤ self.new.spare + 1 }
        ensures kept { self.new.kept ≤ self.old.kept }
    {
        marks::note(&mut self.map, path, old);
    }

    /// Plans what it notes once others change these paths, whose nodes stand in the tree now, and takes all memory for it.
    /// The marks are the same afterwards, also where there is no memory. Costs O(log marks + log nodes) comparisons of
    /// paths for each of the paths, and a copy of the node where it is to keep that.
    pub fn plan_notes(&mut self, tree: &Tree, changed: &Paths) -> Result<(), NoMemory>
        ensures ok { OnOk result (Plans tree.now.nodes changed.now self.new) }
        ensures marks { self.new.marks ≡ self.old.marks }
        ensures count { self.new.count ≡ self.old.count }
    {
        let notes = self.notes(tree, changed.as_slice())?;
        self.map.reserve(notes.len())?;
        self.pending = notes;
        Ok(())
    }

    /// What it notes once these paths change: each path, with the node that stands there where that is to be kept.
    fn notes(&self, tree: &Tree, changed: &[Path]) -> Result<Vec<(Path, Option<Node>)>, NoMemory>
        ensures { IfOk result (λ notes. note_each notes.items self.now.marks ≡ note_all tree.now.nodes changed.now self.now.marks) }
    {
        let mut notes = Vec::with_capacity(self.alloc, changed.len())?;
        for path in changed {
            let old = self.old_node(tree, path)?;
            notes.push((path.copy(self.alloc)?, old))?;
        }
        Ok(notes)
    }

    /// A copy of the node that stands at a path, where a change of it needs that.
    fn old_node(&self, tree: &Tree, path: &Path) -> Result<Option<Node>, NoMemory>
        ensures { IfOk result (λ old. (old ≡ node_at tree.now.nodes path.now) ⊎ ((old ≡ None) × (wants_old (mark_at self.now.marks path.now) ≡ false))) }
    {
        if !self.wants(path) {
            return Ok(None);
        }
        match tree.node(path) {
            Some(node) => Ok(Some(node.copy(self.alloc)?)),
            None => Ok(None),
        }
    }

    /// Notes what was planned. Takes no memory.
    pub fn apply_notes(&mut self)
        requires { length self.old.pending ≤ self.old.spare }
        ensures marks { self.new.marks ≡ note_each self.old.pending self.old.marks }
        ensures count { self.new.count ≡ self.old.count }
        ensures pending { self.new.pending ≡ [] }
    {
        let mut left = mem::replace(&mut self.pending, Vec::new(self.alloc));
        left.reverse();
        'left: while !left.is_empty() {
            let (path, old) = left.pop().unwrap();
            marks::note(&mut self.map, path, old);
        }
    }

    /// A command gave the path its node, or removed it. Takes no memory.
    pub(crate) fn write(&mut self, path: Path, node: Option<Node>)
        requires { 0 < self.old.spare }
        ensures marks { self.new.marks ≡ write path node self.old.marks }
        ensures count { self.new.count ≡ self.old.count }
        ensures spare { self.old.spare ≤ self.new.spare + 1 }
        ensures kept { self.new.kept ≤ self.old.kept }
    {
        marks::write(&mut self.map, path, node);
    }

    /// What it sees at a path over the node that stands in the tree.
    pub(crate) fn over<'b>(&'b self, path: &Path, under: Option<&'b Node>) -> Option<&'b Node>
        ensures { option_copied result ≡ seen_by (mark_at self.now.marks path.now) (option_copied under.entry) }
    {
        match self.map.get(path) {
            Some(held) => held.over(under),
            None => under,
        }
    }

    /// What a commit leaves at a path over the node that stands in the tree.
    fn left<'b>(&'b self, path: &Path, under: Option<&'b Node>) -> Option<&'b Node>
        ensures { option_copied result ≡ left_by (mark_at self.now.marks path.now) (option_copied under.entry) }
    {
        match self.map.get(path) {
            Some(held) => held.left(under),
            None => under,
        }
    }

    /// The node that stands at a path of a tree once this is committed to it. Takes no memory. Costs
    /// O(log marks + log nodes) comparisons of paths.
    pub fn committed_node<'a>(&'a self, tree: &'a Tree, path: &Path) -> Option<&'a Node>
        ensures { option_copied result ≡ node_at (committed tree.now.nodes self.now.marks) path.now }
    {
        self.is_kept();
        self.left(path, tree.node(path))
    }

    /// The next name above `leaf` among those of the children that it sees.
    pub(crate) fn child_above<'b>(
        &'b self,
        tree: &'b Tree,
        path: &Path,
        leaf: &[u8],
    ) -> Option<&'b [u8]>
        requires { IsTree (overlay tree.now.nodes self.now.marks) }
        ensures name { option_map (λ name. name.now) result ≡ next_name (overlay tree.now.nodes self.now.marks) path.now leaf.now }
        ensures spelled { IsSpelled path.now result }
    {
        names::child_above(tree, &self.map, path, leaf)
    }

    /// Whether a change by others at the path needs the node that stood there; where not, none does as well. Costs
    /// O(log marks) comparisons of paths.
    pub fn wants(&self, path: &Path) -> bool
        ensures wants { result ≡ wants_old (mark_at self.now.marks path.now) }
        ensures same { result ≡ false → (old : Option ModelNode) → note path.now old self.now.marks ≡ note path.now None self.now.marks }
    {
        match self.map.get(path) {
            Some(held) => held.wants_old(),
            None => true,
        }
    }

    /// The first path that others changed and a command looked at or wrote. Costs O(marks).
    pub fn conflict(&self) -> Option<&Path>
        ensures first { option_copied result ≡ first_conflict self.now.marks }
        ensures any { is_some (option_copied result) ≡ has_conflict self.now.marks }
    {
        marks::conflict(self.map.parts())
    }

    /// One of its commands wrote something.
    pub fn tally(&mut self)
        ensures count { self.new.count ≡ within_count (self.old.count + 1) }
        ensures marks { self.new.marks ≡ self.old.marks }
        ensures spare { self.new.spare ≡ self.old.spare }
        ensures kept { self.new.kept ≡ self.old.kept }
    {
        self.count = next_count(self.count);
    }

    /// Takes all memory that a commit to the tree needs. The tree is the same afterwards but for room, also where there
    /// is no memory. Costs O(log nodes) comparisons of paths for each path that was written.
    pub fn prepare(&self, tree: &mut Tree) -> Result<Plan, NoMemory>
        ensures ok { IfOk result (IsPlan self.now.marks tree.new) }
        ensures nodes { tree.new.nodes ≡ tree.old.nodes }
        ensures gens { tree.new.gens ≡ tree.old.gens }
        ensures counter { tree.new.counter ≡ tree.old.counter }
    {
        self.is_kept();
        let written = plan::written(self.alloc, self.map.parts())?;
        let changed = plan::changed(self.alloc, tree, self.map.parts())?;
        let gone = Vec::with_capacity(self.alloc, written.len())?;
        tree.reserve(written.len())?;
        Ok(Plan {
            written,
            changed,
            gone,
        })
    }

    /// Makes what it wrote of the tree, by a plan for it. Takes no memory. Gives the written paths, rising. Costs
    /// O(log nodes) comparisons of paths for each of them.
    pub fn commit_planned(self, tree: &mut Tree, plan: Plan) -> Paths
        requires plan { IsPlan self.marks tree.old plan }
        requires tree { IsTree (committed tree.old.nodes self.marks) }
        ensures nodes { tree.new.nodes ≡ committed tree.old.nodes self.marks }
        ensures written { result ≡ written_paths self.marks }
        ensures numbers { tree.old.counter ≡ greatest tree.old.gens → tree.new.gens ≡ stamped tree.old.gens tree.old.nodes (written_paths self.marks) tree.new.nodes }
        ensures greatest { tree.old.counter ≡ greatest tree.old.gens → tree.new.counter ≡ greatest tree.new.gens }
    {
        self.is_kept();
        tree.is_kept();
        let Plan {
            written,
            changed,
            gone,
        } = plan;
        let gone = commit::set_all(tree, self.map, gone);
        commit::remove_all(tree, gone);
        tree.stamp(&changed);
        written
    }

    /// Makes what it wrote of the tree. Refused for want of memory, it is given back, and the tree is as before.
    pub fn commit(self, tree: &mut Tree) -> Result<Paths, Txn>
        requires { IsTree (committed tree.old.nodes self.marks) }
        ensures nodes { OnOk result (tree.new.nodes ≡ committed tree.old.nodes self.marks) }
        ensures written { IfOk result (λ written. written ≡ written_paths self.marks) }
        ensures numbers { OnOk result (tree.old.counter ≡ greatest tree.old.gens → tree.new.gens ≡ stamped tree.old.gens tree.old.nodes (written_paths self.marks) tree.new.nodes) }
        ensures greatest { OnOk result (tree.old.counter ≡ greatest tree.old.gens → tree.new.counter ≡ greatest tree.new.gens) }
        ensures refused { IfErr result (λ txn. txn ≡ self) }
        ensures same_nodes { OnErr result (tree.new.nodes ≡ tree.old.nodes) }
        ensures same_gens { OnErr result (tree.new.gens ≡ tree.old.gens) }
        ensures same_counter { OnErr result (tree.new.counter ≡ tree.old.counter) }
    {
        match self.prepare(tree) {
            Ok(plan) => Ok(self.commit_planned(tree, plan)),
            Err(_) => Err(self),
        }
    }

    /// How many of its commands wrote something.
    pub fn count(&self) -> u32
        ensures { result ≡ self.now.count }
    {
        self.count
    }
}

/// One more, or the greatest count.
fn next_count(count: u32) -> u32
    ensures { result ≡ within_count (count + 1) }
{
    if count < COUNT_MAX {
        count + 1
    } else {
        COUNT_MAX
    }
}

/// The same paths.
fn copies(alloc: Global, from: &[Path]) -> Result<Paths, NoMemory>
    ensures { IfOk result (λ paths. paths ≡ from.now) }
{
    let mut paths = Paths::new(alloc);
    for path in from {
        paths.push(path.copy(alloc)?)?;
    }
    Ok(paths)
}
