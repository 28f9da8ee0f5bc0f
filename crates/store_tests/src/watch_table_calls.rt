//! Calls on their happy path. Expected places are found by hand.

ghost use Rattle.std.specs.Prelude.{◌≡◌, ℕ};
ghost use Rattle.xs_model.specs.Requests.{is_watch_path, is_special};

use std::alloc::Global;
use std::test::Fail;
use watch_table::{WatchErr, Watches};
use xs_base::Bytes;
use xs_path::{Path, is_path};

/// Whether bytes are a special path.
fn is_special(bytes: &[u8]) -> bool
    ensures { result ≡ is_special bytes.now }
{
    bytes == b"@introduceDomain".as_slice() || bytes == b"@releaseDomain".as_slice()
}

/// Whether bytes are a special path or a path.
fn is_watch_path(bytes: &[u8]) -> bool
    ensures { (domid : ℕ) → result ≡ is_watch_path bytes.now domid }
{
    is_special(bytes) || is_path(bytes)
}

/// Adds a watch of domain 7, and says whether there was none like it.
fn add(alloc: Global, watches: &mut Watches, wpath: &[u8], token: &[u8]) -> Result<bool, Fail> {
    if !is_watch_path(wpath) || token.len() > 1022 {
        return Ok(false);
    }
    let wpath = Bytes::copy(alloc, wpath)?;
    let token = Bytes::copy(alloc, token)?;
    match watches.add(wpath, token, 7) {
        Ok(()) => Ok(true),
        Err(WatchErr::Exists) => Ok(false),
        Err(WatchErr::NoMemory) => Err("memory")?,
    }
}

fn path(alloc: Global, text: &str) -> Result<Path, Fail> {
    Ok(Path::read(alloc, text.as_bytes(), 0)?)
}

/// Watches on `/a` twice, on a node of domain 7, on a special path, on `/` and below `/a`.
fn some(alloc: Global) -> Result<Watches, Fail> {
    let mut watches = Watches::new(alloc);
    add(alloc, &mut watches, b"/a", b"t")?;
    add(alloc, &mut watches, b"b", b"t")?;
    add(alloc, &mut watches, b"@releaseDomain", b"t")?;
    add(alloc, &mut watches, b"/a", b"u")?;
    add(alloc, &mut watches, b"/", b"")?;
    add(alloc, &mut watches, b"/a/c", b"t")?;
    Ok(watches)
}

/// The places of the watches for which an event is.
fn reached(watches: &Watches, alloc: Global, text: &str, exact: bool) -> Result<Vec<usize>, Fail> {
    Ok(watches.reached(&path(alloc, text)?, exact)?)
}

#[test]
fn finds_watches_by_path_and_token(rt: HostRuntime) -> Result<(), Fail> {
    let watches = some(rt.alloc())?;
    assert_eq!(rt; watches.len(), 6);
    assert!(rt; watches.has(b"/a", b"u") && !watches.has(b"/au", b"") && !watches.has(b"/a", b""));
    assert_eq!(rt; watches.at(1), Some((b"b".as_slice(), b"t".as_slice())));
    assert_eq!(rt; watches.at(6), None);
    Ok(())
}

#[test]
fn adds_each_watch_once(rt: HostRuntime) -> Result<(), Fail> {
    let alloc = rt.alloc();
    let mut watches = some(alloc)?;
    assert!(rt; !add(alloc, &mut watches, b"/a", b"u")?);
    assert!(rt; add(alloc, &mut watches, b"/local/domain/7/b", b"t")?);
    assert_eq!(rt; watches.len(), 7);
    Ok(())
}

#[test]
fn removes_watches(rt: HostRuntime) -> Result<(), Fail> {
    let alloc = rt.alloc();
    let mut watches = some(alloc)?;
    assert!(rt; watches.remove(b"b", b"t"));
    assert!(rt; !watches.remove(b"b", b"t"));
    assert_eq!(rt;
        reached(&watches, alloc, "/a", false)?.as_slice(),
        [0, 2, 3].as_slice()
    );
    watches.clear();
    assert!(rt; watches.is_empty());
    Ok(())
}

#[test]
fn reaches_watches_on_a_path_and_above(rt: HostRuntime) -> Result<(), Fail> {
    let alloc = rt.alloc();
    let watches = some(alloc)?;
    assert_eq!(rt;
        reached(&watches, alloc, "/a/c/d", false)?.as_slice(),
        [0, 3, 4, 5].as_slice()
    );
    assert_eq!(rt;
        reached(&watches, alloc, "/a", true)?.as_slice(),
        [0, 3].as_slice()
    );
    assert_eq!(rt;
        reached(&watches, alloc, "/local/domain/7/b", true)?.as_slice(),
        [1].as_slice()
    );
    assert_eq!(rt; reached(&watches, alloc, "/d", true)?.len(), 0);
    Ok(())
}

#[test]
fn tells_what_a_watch_is_on(rt: HostRuntime) -> Result<(), Fail> {
    let alloc = rt.alloc();
    let watches = some(alloc)?;
    let below = path(alloc, "/a/b")?;
    assert!(rt; watches.matches(0, &below, false) && !watches.matches(0, &below, true));
    assert!(rt; watches.is_on(&path(alloc, "/a/c")?) && !watches.is_on(&below));
    assert!(rt; watches.watched(1).is_some() && watches.watched(2).is_none());
    assert_eq!(rt;
        watches.specials(b"@releaseDomain")?.as_slice(),
        [2].as_slice()
    );
    Ok(())
}
