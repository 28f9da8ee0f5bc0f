//! Calls on their happy path, and what a caller of an overlay knows.

ghost use Rattle.std.specs.Prelude.{◌≡◌, ◌<◌, [], true, Some, OnOk, IfOk};
ghost use Rattle.mark_model.specs.Marks.{write};
ghost use Rattle.node_tree.specs.KeptTree.{has_parent};
ghost use Rattle.xs_model.specs.Perms.{new_root_perms};
ghost use Rattle.xs_model.specs.Trees.{has_entry};

use node_tree::{Node, Tree, View};
use std::alloc::Global;
use std::process::Abort;
use std::test::Fail;
use txn_access::{EntryKind, Overlay, Txn};
use xs_base::NoMemory;
use xs_path::{Path, Paths};

/// Writes a node in a transaction that did nothing yet.
fn write_first(tree: &Tree, txn: &mut Txn, path: Path, node: Node) -> Result<(), NoMemory>
    requires none { txn.old.marks ≡ [] }
    requires parent { has_parent tree.now.nodes path ≡ true }
    requires entry { has_entry node.perms ≡ true }
    ensures { OnOk result (txn.new.marks ≡ write path (Some node) []) }
{
    tree.is_kept();
    let mut seen = Overlay::new(tree, txn, 0);
    seen.reserve(1)?;
    seen.set(path, node);
    Ok(())
}

/// Commits a transaction that wrote one node.
fn commit_first(tree: &mut Tree, txn: Txn, path: &Path, node: &Node) -> Result<Paths, Txn>
    requires one { txn.marks ≡ write path.now (Some node.now) [] }
    requires parent { has_parent tree.old.nodes path.now ≡ true }
    requires entry { has_entry node.now.perms ≡ true }
{
    tree.is_kept();
    txn.commit(tree)
}

fn path(alloc: Global, text: &[u8]) -> Result<Path, Fail> {
    Ok(Path::read(alloc, text, 0)?)
}

fn node(alloc: Global) -> Result<Node, Fail>
    ensures { IfOk result (λ node. node ≡ record { value = []; perms = new_root_perms }) }
{
    Ok(Node::root(alloc)?)
}

#[test]
fn others_changes_conflict(rt: HostRuntime) -> Result<(), Fail> {
    let alloc = rt.alloc();
    let mut txn = Txn::start(alloc);
    let mut paths = Paths::new(alloc);
    paths.push(path(alloc, b"/a")?)?;
    txn.access(&paths)?;
    assert!(rt; txn.conflict().is_none());
    for text in [b"/b", b"/a"] {
        let changed = path(alloc, text)?;
        assert!(rt; txn.wants(&changed));
        txn.reserve_change(1)?;
        txn.note_change(changed, None);
    }
    assert!(rt; !txn.wants(&path(alloc, b"/b")?));
    let first = txn.conflict().ok_or("a conflict")?;
    assert_eq!(rt; first.bytes(), b"/a".as_slice());
    txn.tally();
    assert_eq!(rt; txn.count(), 1);
    Ok(())
}

/// Takes a node without children away.
fn remove_leaf(seen: &mut Overlay<'_>, path: Path) -> Result<bool, NoMemory> {
    seen.reserve(1)?;
    if path.is_root() || seen.node(&path).is_none() || seen.child_after(&path, b"").is_some() {
        return Ok(false);
    }
    seen.remove(path);
    Ok(true)
}

/// Writes a node in a transaction that did nothing yet, and takes it away again.
fn write_and_remove(
    tree: &Tree,
    txn: &mut Txn,
    path: Path,
    node: Node,
    again: Path,
) -> Result<bool, NoMemory>
    requires none { txn.old.marks ≡ [] }
    requires parent { has_parent tree.now.nodes path ≡ true }
    requires entry { has_entry node.perms ≡ true }
{
    tree.is_kept();
    let mut seen = Overlay::new(tree, txn, 0);
    seen.reserve(1)?;
    seen.set(path, node);
    remove_leaf(&mut seen, again)
}

#[test]
fn written_nodes_are_committed(rt: HostRuntime) -> Result<(), Fail> {
    let alloc = rt.alloc();
    let mut tree = Tree::new(alloc)?;
    let root = Path::root(alloc)?;
    let mut txn = Txn::start(alloc);
    write_first(&tree, &mut txn, Path::root(alloc)?, node(alloc)?)?;
    let written = commit_first(&mut tree, txn, &root, &node(alloc)?)
        .ok()
        .ok_or("memory")?;
    assert_eq!(rt; written.len(), 1);
    assert_eq!(rt; tree.generation(&root), Some(1));
    Ok(())
}

#[test]
fn written_nodes_are_seen_and_removed(rt: HostRuntime) -> Result<(), Fail> {
    let alloc = rt.alloc();
    let tree = Tree::new(alloc)?;
    let at = path(alloc, b"/a")?;
    let again = at.copy(alloc)?;
    let parent = at.parent(alloc)?.ok_or("a parent")?;
    assert!(rt; tree.node(&parent).is_some());
    let mut txn = Txn::start(alloc);
    assert!(rt; write_and_remove(&tree, &mut txn, at, node(alloc)?, again)?);
    Ok(())
}

/// A transaction that removed `/c`, wrote `/a`, and knows that others changed `/b`.
fn restored(alloc: Global) -> Result<Txn, Fail> {
    let mut txn = Txn::start(alloc);
    txn.restore(path(alloc, b"/c")?, EntryKind::Gone, false, None)?;
    txn.restore(path(alloc, b"/b")?, EntryKind::Kept, true, None)?;
    let node = node(alloc)?;
    txn.restore(path(alloc, b"/a")?, EntryKind::Wrote, false, Some(node))?;
    txn.restore_count(7);
    Ok(txn)
}

#[test]
fn restored_marks_are_told_in_order(rt: HostRuntime) -> Result<(), Fail> {
    let copy = restored(rt.alloc())?.copy()?;
    assert_eq!(rt; copy.count(), 7);
    let (first, kind, changed, node) = copy.entry(0).ok_or("the first")?;
    assert_eq!(rt; first.bytes(), b"/a".as_slice());
    assert!(rt; kind == EntryKind::Wrote && !changed && node.is_some());
    let mut left = copy.entries();
    assert!(rt; left.next_entry().is_some());
    let (second, kind, changed, node) = left.next_entry().ok_or("the second")?;
    assert_eq!(rt; second.bytes(), b"/b".as_slice());
    assert!(rt; kind == EntryKind::Kept && changed && node.is_none());
    assert!(rt; left.next_entry().is_some() && left.next_entry().is_none());
    assert!(rt; copy.entry(2).is_some() && copy.entry(3).is_none());
    Ok(())
}

#[test]
fn committed_nodes_are_known_before(rt: HostRuntime) -> Result<(), Fail> {
    let alloc = rt.alloc();
    let tree = Tree::new(alloc)?;
    let txn = restored(alloc)?;
    for (text, stands) in [(b"/a", true), (b"/b", false), (b"/c", false)] {
        let node = txn.committed_node(&tree, &path(alloc, text)?);
        assert_eq!(rt; node.is_some(), stands);
    }
    assert!(rt; txn.committed_node(&tree, &Path::root(alloc)?).is_some());
    Ok(())
}
