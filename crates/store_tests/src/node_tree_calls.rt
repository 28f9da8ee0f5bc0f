//! Calls on their happy path.

use node_tree::{Node, Tree, View};
use std::alloc::Global;
use std::process::Abort;
use std::test::Fail;
use xs_base::Bytes;
use xs_path::{Path, Paths};
use xs_perms::{Perms, read_perm};

/// The paths of a small tree, in an order in which each has its parent.
const TEXTS: [&str; 7] = ["/m", "/b", "/b/x", "/b-x", "/z", "/b/a", "/m"];

/// Writes the text as the value of its path, whose parent is there.
fn write(rt: &impl Abort, alloc: Global, tree: &mut Tree, text: &[u8]) -> Result<(), Fail> {
    let path = Path::read(alloc, text, 0)?;
    let parent = path.parent(alloc)?.ok_or("a parent")?;
    tree.reserve(1)?;
    assert!(rt; tree.node(&parent).is_some());
    let value = Bytes::copy(alloc, text)?;
    let mut perms = Perms::new(alloc);
    perms.push(read_perm(b"r7")?)?;
    tree.set(path, Node::new(value, perms));
    Ok(())
}

/// Takes a node without children away.
fn remove(rt: &impl Abort, alloc: Global, tree: &mut Tree, text: &[u8]) -> Result<(), Fail> {
    let path = Path::read(alloc, text, 0)?;
    assert!(rt; !path.is_root());
    assert!(rt; tree.child_after(&path, b"").is_none());
    tree.remove(path);
    Ok(())
}

fn small_tree(rt: &impl Abort, alloc: Global) -> Result<Tree, Fail> {
    let mut tree = Tree::new(alloc)?;
    for text in TEXTS {
        write(rt, alloc, &mut tree, text.as_bytes())?;
    }
    Ok(tree)
}

fn value_at(alloc: Global, tree: &Tree, text: &[u8]) -> Result<Option<Bytes>, Fail> {
    let path = Path::read(alloc, text, 0)?;
    match tree.node(&path) {
        Some(node) => Ok(Some(Bytes::copy(alloc, node.value.as_slice())?)),
        None => Ok(None),
    }
}

#[test]
fn finds_what_was_set(rt: HostRuntime) -> Result<(), Fail> {
    let alloc = rt.alloc();
    let tree = small_tree(&rt, alloc)?;
    assert_eq!(rt; value_at(alloc, &tree, b"/")?, Some(Bytes::new(alloc)));
    for text in TEXTS {
        let bytes = text.as_bytes();
        assert_eq!(rt;
            value_at(alloc, &tree, bytes)?,
            Some(Bytes::copy(alloc, bytes)?),
            "{text}"
        );
    }
    for text in ["/a", "/b/b", "/b-x/a", "/zz"] {
        assert_eq!(rt; value_at(alloc, &tree, text.as_bytes())?, None, "{text}");
    }
    let root = tree.node(&Path::root(alloc)?).ok_or("the root")?;
    assert_eq!(rt; root.perms.at(0).copied(), Some(read_perm(b"n0")?));
    Ok(())
}

#[test]
fn children_and_paths_come_in_order(rt: HostRuntime) -> Result<(), Fail> {
    let alloc = rt.alloc();
    let tree = small_tree(&rt, alloc)?;
    let children: [(&str, &str, Option<&str>); 10] = [
        ("/", "", Some("b")),
        ("/", "b", Some("b-x")),
        ("/", "b-x", Some("m")),
        ("/", "c", Some("m")),
        ("/", "z", None),
        ("/b", "", Some("a")),
        ("/b", "a", Some("x")),
        ("/b", "x", None),
        ("/m", "", None),
        ("/c", "", None),
    ];
    for (text, leaf, want) in children {
        let path = Path::read(alloc, text.as_bytes(), 0)?;
        let name = tree.child_after(&path, leaf.as_bytes());
        assert_eq!(rt; name, want.map(|name| name.as_bytes()), "{text} {leaf}");
    }
    let paths: [(&str, Option<&str>); 8] = [
        ("/", Some("/b")),
        ("/b", Some("/b/a")),
        ("/b/a", Some("/b/x")),
        ("/b/b", Some("/b/x")),
        ("/b/x", Some("/b-x")),
        ("/c", Some("/m")),
        ("/m", Some("/z")),
        ("/z", None),
    ];
    for (text, want) in paths {
        let next = tree.next_after(&Path::read(alloc, text.as_bytes(), 0)?);
        assert_eq!(rt;
            next.map(|path| path.bytes()),
            want.map(|path| path.as_bytes()),
            "{text}"
        );
    }
    Ok(())
}

fn number_at(alloc: Global, tree: &Tree, text: &str) -> Result<Option<u64>, Fail> {
    Ok(tree.generation(&Path::read(alloc, text.as_bytes(), 0)?))
}

#[test]
fn changed_paths_are_numbered(rt: HostRuntime) -> Result<(), Fail> {
    let alloc = rt.alloc();
    let mut tree = small_tree(&rt, alloc)?;
    let mut changed = Paths::new(alloc);
    for text in ["/b", "/b/x", "/c"] {
        changed.push(Path::read(alloc, text.as_bytes(), 0)?)?;
    }
    tree.stamp(&changed);
    remove(&rt, alloc, &mut tree, b"/b/x")?;
    for text in ["/b", "/b/x"] {
        write(&rt, alloc, &mut tree, text.as_bytes())?;
    }
    for (text, number) in [
        ("/", Some(0)),
        ("/b", Some(1)),
        ("/b/x", Some(0)),
        ("/c", None),
    ] {
        assert_eq!(rt; number_at(alloc, &tree, text)?, number, "{text}");
    }
    assert!(rt; tree.regenerate(&Path::root(alloc)?, 7));
    assert!(rt; !tree.regenerate(&Path::read(alloc, b"/c", 0)?, 8));
    tree.stamp(&changed);
    for (text, number) in [
        ("/", Some(7)),
        ("/b", Some(8)),
        ("/b/x", Some(8)),
        ("/m", Some(0)),
    ] {
        assert_eq!(rt; number_at(alloc, &tree, text)?, number, "{text}");
    }
    Ok(())
}

/// The path of a name of two letters, in the order of the numbers.
fn numbered(number: u8) -> [u8; 3] {
    [b'/', b'a' + number / 16, b'a' + number % 16]
}

#[test]
fn full_chunks_are_split_and_empty_ones_go(rt: HostRuntime) -> Result<(), Fail> {
    let alloc = rt.alloc();
    let root = Path::root(alloc)?;
    let mut tree = Tree::new(alloc)?;
    for step in 0..200u8 {
        write(&rt, alloc, &mut tree, &numbered(step.wrapping_mul(77)))?;
    }
    for number in 0..200u8 {
        write(&rt, alloc, &mut tree, &numbered(number))?;
    }
    let mut leaf = Bytes::new(alloc);
    for number in 0..200u8 {
        let name = tree.child_after(&root, leaf.as_slice()).ok_or("a child")?;
        assert_eq!(rt; name, &numbered(number)[1..]);
        leaf = Bytes::copy(alloc, name)?;
    }
    for number in 0..199u8 {
        remove(&rt, alloc, &mut tree, &numbered(number))?;
    }
    assert_eq!(rt; tree.child_after(&root, b""), Some(&numbered(199)[1..]));
    Ok(())
}
