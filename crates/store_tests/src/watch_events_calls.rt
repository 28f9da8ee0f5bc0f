//! Calls on their happy path.

ghost use Rattle.std.specs.Prelude.{◌≡◌, true, IfOk};
ghost use Rattle.std.specs.List.{AllByRecursion};
ghost use Rattle.xs_model.specs.Requests.{is_watch_path};
ghost use Rattle.xs_model.specs.Trees.{has_entry};

use node_tree::{Node, Tree, View};
use std::alloc::Global;
use std::process::Abort;
use std::test::Fail;
use watch_events::{
    Change, NoMemory, changes, owed, perms_at, push_event, push_first, push_owed, push_special,
};
use watch_table::Watches;
use xs_base::Bytes;
use xs_path::{Path, Paths, is_path};
use xs_perms::{Letter, Perm, Perms};

/// The events of a watch on `/a` with the token `t`: one for `/a/b`, and the first one.
const EVENTS: [u8; 44] = [
    15, 0, 0, 0, 0, 0, 0, 0, 0, 0, 0, 0, 7, 0, 0, 0, b'/', b'a', b'/', b'b', 0, b't', 0, 15, 0, 0,
    0, 0, 0, 0, 0, 0, 0, 0, 0, 5, 0, 0, 0, b'/', b'a', 0, b't', 0,
];

/// The event of a watch on `a` with the token `t` for that path itself.
const RELATIVE: [u8; 20] = [
    15, 0, 0, 0, 0, 0, 0, 0, 0, 0, 0, 0, 4, 0, 0, 0, b'a', 0, b't', 0,
];

#[test]
fn writes_two_events(rt: HostRuntime) -> Result<(), Fail> {
    let mut bytes = Bytes::new(rt.alloc());
    push_event(&mut bytes, b"/a/b", b"t")?;
    push_first(&mut bytes, b"/a", b"t")?;
    assert_eq!(rt; bytes.as_slice(), EVENTS.as_slice());
    Ok(())
}

fn path(alloc: Global, text: &str) -> Result<Path, Fail> {
    Ok(Path::read(alloc, text.as_bytes(), 0)?)
}

/// Gives a path that has its parent an empty node, which all may read.
fn grow(rt: &impl Abort, alloc: Global, tree: &mut Tree, text: &str) -> Result<(), Fail> {
    let path = path(alloc, text)?;
    let parent = path.parent(alloc)?.ok_or("a parent")?;
    tree.reserve(1)?;
    assert!(rt; tree.node(&parent).is_some());
    let mut perms = Perms::new(alloc);
    perms.push(Perm {
        letter: Letter::R,
        stale: false,
        domid: 0,
    })?;
    tree.set(path, Node::new(Bytes::new(alloc), perms));
    Ok(())
}

/// The events of a change that wrote these paths, each with a `!` behind it where it is exact.
fn told(alloc: Global, before: &Tree, texts: &[&str], after: &Tree) -> Result<Bytes, Fail> {
    let mut written = Paths::new(alloc);
    for text in texts {
        written.push(path(alloc, text)?)?;
    }
    let mut told = Bytes::new(alloc);
    for change in changes(alloc, before, &written, after)?.as_slice() {
        told.push(change.path.bytes())?;
        told.push(if change.exact { b"! " } else { b" " })?;
    }
    Ok(told)
}

/// The first letter of the entries by which an event at a path is judged.
fn letter(alloc: Global, before: &Tree, text: &str, after: &Tree) -> Result<Option<Letter>, Fail> {
    match perms_at(before, &path(alloc, text)?, after) {
        Some(perms) => Ok(perms.at(0).map(|perm| perm.letter)),
        None => Ok(None),
    }
}

#[test]
fn gives_events_in_order(rt: HostRuntime) -> Result<(), Fail> {
    let alloc = rt.alloc();
    let before = Tree::new(alloc)?;
    let mut after = Tree::new(alloc)?;
    grow(&rt, alloc, &mut after, "/a")?;
    grow(&rt, alloc, &mut after, "/a/b")?;
    let texts = ["/a/b", "/c", "/a", "/a/b"].as_slice();
    let made = told(alloc, &before, texts, &after)?;
    assert_eq!(rt; made.as_slice(), b"/a /a/b ".as_slice());
    let gone = told(alloc, &after, ["/a", "/a/b"].as_slice(), &before)?;
    assert_eq!(rt; gone.as_slice(), b"/a /a/b! ".as_slice());
    assert_eq!(rt; letter(alloc, &after, "/a/b", &before)?, Some(Letter::R));
    assert_eq!(rt; letter(alloc, &after, "/c", &before)?, None);
    Ok(())
}

/// Whether bytes are a special path or a path.
fn is_watch_path(bytes: &[u8]) -> bool
    ensures { result ≡ is_watch_path bytes.now 7 }
{
    bytes == b"@introduceDomain".as_slice()
        || bytes == b"@releaseDomain".as_slice()
        || is_path(bytes)
}

/// One watch of domain 7, with the token `t`.
fn watch(rt: &impl Abort, alloc: Global, wpath: &str) -> Result<Watches, Fail>
    ensures { IfOk result (λ watches. AllByRecursion (λ m. m.domid ≡ 7) watches) }
{
    let wpath = Bytes::copy(alloc, wpath.as_bytes())?;
    let token = Bytes::copy(alloc, b"t")?;
    assert!(rt; is_watch_path(wpath.as_slice()));
    let mut watches = Watches::new(alloc);
    watches.add(wpath, token, 7)?;
    Ok(watches)
}

/// Entries that let all read.
fn readable(alloc: Global) -> Result<Perms, NoMemory>
    ensures { IfOk result (λ perms. has_entry perms ≡ true) }
{
    let mut perms = Perms::new(alloc);
    perms.push(Perm {
        letter: Letter::R,
        stale: false,
        domid: 0,
    })?;
    Ok(perms)
}

/// What a watch of domain 7 is sent once something happened at a path that it may read.
fn sent(rt: &impl Abort, alloc: Global, wpath: &str, text: &str) -> Result<Bytes, Fail> {
    let watches = watch(rt, alloc, wpath)?;
    let perms = readable(alloc)?;
    let path = path(alloc, text)?;
    let change = Change { path, exact: false };
    let mut bytes = Bytes::new(alloc);
    push_owed(&mut bytes, &watches, &change, &perms, 7, None)?;
    let listed = owed(alloc, &watches, &change, &perms, 7, None)?;
    for message in listed.as_slice() {
        assert_eq!(rt; message.as_slice(), bytes.as_slice());
    }
    Ok(bytes)
}

#[test]
fn sends_what_is_owed(rt: HostRuntime) -> Result<(), Fail> {
    let alloc = rt.alloc();
    let whole = sent(&rt, alloc, "/a", "/a/b")?;
    assert_eq!(rt; whole.as_slice(), &EVENTS[..23]);
    let relative = sent(&rt, alloc, "a", "/local/domain/7/a")?;
    assert_eq!(rt; relative.as_slice(), RELATIVE.as_slice());
    let apart = sent(&rt, alloc, "/a/b", "/a")?;
    assert!(rt; apart.is_empty());
    Ok(())
}

#[test]
fn sends_special_events(rt: HostRuntime) -> Result<(), Fail> {
    let alloc = rt.alloc();
    let watches = watch(&rt, alloc, "@releaseDomain")?;
    let mut bytes = Bytes::new(alloc);
    push_special(&mut bytes, &watches, b"@introduceDomain", 0)?;
    push_special(&mut bytes, &watches, b"@releaseDomain", 7)?;
    assert!(rt; bytes.is_empty());
    push_special(&mut bytes, &watches, b"@releaseDomain", 0)?;
    assert_eq!(rt; bytes.len(), 33);
    Ok(())
}
