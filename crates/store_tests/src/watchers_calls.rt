//! Calls on their happy path. Expected messages are found by hand.

ghost use Rattle.std.specs.Prelude.{◌≡◌, ℕ, IfOk};
ghost use Rattle.xs_model.specs.Requests.{is_watch_path};
ghost use Rattle.machine_model.specs.Connections.{caller_of};
ghost use Rattle.watchers.specs.Watched.{AreOwn};

use conn_table::Conns;
use machine_model::ConnSpec;
use node_tree::{Node, Tree, View};
use owed_bytes::Owed;
use std::alloc::Global;
use std::process::Abort;
use std::test::Fail;
use watchers::Watchers;
use xs_base::Bytes;
use xs_path::{Path, Paths, is_path};
use xs_perms::{Letter, Perm, Perms};

/// Whether bytes are a special path or a path.
fn is_watch_path(bytes: &[u8]) -> bool
    ensures { (domid : ℕ) → result ≡ is_watch_path bytes.now domid }
{
    bytes == b"@introduceDomain".as_slice()
        || bytes == b"@releaseDomain".as_slice()
        || is_path(bytes)
}

/// The domain for which a connection acts, and its target.
fn caller(spec: ConnSpec) -> (u16, Option<u16>)
    ensures { record { domid = result.0; target = result.1 } ≡ caller_of spec }
{
    match spec {
        ConnSpec::Ring { domid, target, .. } => (domid, target),
        ConnSpec::Socket { .. } => (0, None),
    }
}

/// The ring of a domain.
fn ring(domid: u16) -> ConnSpec {
    ConnSpec::Ring {
        domid,
        target: None,
        evtchn: 0,
    }
}

/// Domain 0 by the id 1, and domain 7 by the id 2.
fn two(alloc: Global) -> Result<Conns, Fail> {
    let mut conns = Conns::empty(alloc);
    conns.add(1, ring(0))?;
    conns.add(2, ring(7))?;
    Ok(conns)
}

/// Adds a watch with the token `t` to those of a connection.
fn watch(
    watchers: &mut Watchers,
    alloc: Global,
    conns: &Conns,
    conn: u32,
    wpath: &str,
) -> Result<(), Fail>
    requires { AreOwn conns.now watchers.old }
    ensures { AreOwn conns.now watchers.new }
{
    let wpath = Bytes::copy(alloc, wpath.as_bytes())?;
    let token = Bytes::copy(alloc, b"t")?;
    let Some(spec) = conns.spec(conn) else {
        return Err(Fail::from("a connection"));
    };
    let (domid, _target) = caller(spec);
    if domid > 32751
        || !is_watch_path(wpath.as_slice())
        || watchers.has(conn, wpath.as_slice(), token.as_slice())
    {
        return Err(Fail::from("a new watch"));
    }
    watchers.add(conn, wpath, token, domid)?;
    Ok(())
}

/// Watches of domain 0 on `/` and a special path, and of domain 7 on `/a/b`, `/c` and the special path.
fn some(alloc: Global, conns: &Conns) -> Result<Watchers, Fail>
    ensures { IfOk result (AreOwn conns.now) }
{
    let mut watchers = Watchers::new(alloc);
    watch(&mut watchers, alloc, conns, 1, "/")?;
    watch(&mut watchers, alloc, conns, 1, "@releaseDomain")?;
    watch(&mut watchers, alloc, conns, 2, "/a/b")?;
    watch(&mut watchers, alloc, conns, 2, "/c")?;
    watch(&mut watchers, alloc, conns, 2, "@releaseDomain")?;
    Ok(watchers)
}

/// Gives a path that has its parent an empty node, which all may read.
fn grow(rt: &impl Abort, alloc: Global, tree: &mut Tree, text: &str) -> Result<(), Fail> {
    let path = Path::read(alloc, text.as_bytes(), 0)?;
    let parent = path.parent(alloc)?.ok_or("a parent")?;
    tree.reserve(1)?;
    assert!(rt; tree.node(&parent).is_some());
    let mut perms = Perms::new(alloc);
    perms.push(Perm {
        letter: Letter::R,
        stale: false,
        domid: 0,
    })?;
    tree.set(path, Node::new(Bytes::new(alloc), perms));
    Ok(())
}

/// How many bytes the two connections are owed.
fn lens(owed: &Owed) -> (usize, usize) {
    (owed.bytes(1).len(), owed.bytes(2).len())
}

/// How many bytes the making of a path, which is `/a` or `/a/b`, owes to them.
fn owed_for(rt: &impl Abort, alloc: Global, text: &str) -> Result<(usize, usize), Fail> {
    let conns = two(alloc)?;
    let watchers = some(alloc, &conns)?;
    let before = Tree::new(alloc)?;
    let mut after = Tree::new(alloc)?;
    grow(rt, alloc, &mut after, "/a")?;
    grow(rt, alloc, &mut after, "/a/b")?;
    let mut written = Paths::new(alloc);
    written.push(Path::read(alloc, text.as_bytes(), 0)?)?;
    let owed = watchers.owed(&conns, &before, &written, &after)?;
    Ok(lens(&owed))
}

#[test]
fn event_reaches_watches_above_and_at_the_node(rt: HostRuntime) -> Result<(), Fail> {
    assert_eq!(rt; owed_for(&rt, rt.alloc(), "/a/b")?, (23, 23));
    assert_eq!(rt; owed_for(&rt, rt.alloc(), "/a")?, (21, 0));
    Ok(())
}

#[test]
fn watches_are_removed(rt: HostRuntime) -> Result<(), Fail> {
    let conns = two(rt.alloc())?;
    let mut watchers = some(rt.alloc(), &conns)?;
    assert!(rt; watchers.remove(2, b"/c", b"t"));
    assert!(rt; !watchers.remove(2, b"/c", b"t"));
    watchers.clear(1);
    assert_eq!(rt; (watchers.count(1), watchers.count(2)), (0, 2));
    Ok(())
}

/// How many bytes a special event owes to the two connections.
fn owed_for_special(alloc: Global) -> Result<(usize, usize), Fail> {
    let conns = two(alloc)?;
    let watchers = some(alloc, &conns)?;
    let owed = watchers.special_owed(&conns, b"@releaseDomain")?;
    Ok(lens(&owed))
}

#[test]
fn special_event_is_for_domain_0(rt: HostRuntime) -> Result<(), Fail> {
    assert_eq!(rt; owed_for_special(rt.alloc())?, (33, 0));
    let first = Watchers::new(rt.alloc()).first_owed(2, b"/a", b"t")?;
    assert_eq!(rt; lens(&first), (0, 21));
    Ok(())
}
