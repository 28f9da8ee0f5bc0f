//! Calls on their happy path, and the faults in their order.

use std::alloc::Global;
use std::test::Fail;
use xs_path::{Path, PathFault, is_path};

fn path(alloc: Global, text: &str) -> Result<Path, Fail> {
    Ok(Path::read(alloc, text.as_bytes(), 0)?)
}

/// As many bytes, the first of them `first` and all others an `a`.
fn long(alloc: Global, first: u8, len: usize) -> Result<Vec<u8>, Fail> {
    let mut bytes = vec![in alloc; b'a'; len]?;
    if let Some(byte) = bytes.first_mut() {
        *byte = first;
    }
    Ok(bytes)
}

#[test]
fn reads_absolute_and_relative_paths(rt: HostRuntime) -> Result<(), Fail> {
    let alloc = rt.alloc();
    let absolute = long(alloc, b'/', 3072)?;
    let relative = long(alloc, b'b', 2048)?;
    let rows: [(&[u8], u16, &[u8]); 5] = [
        (b"/", 7, b"/"),
        (b"/a/b-c/@_Z0", 7, b"/a/b-c/@_Z0"),
        (b"device/vif", 7, b"/local/domain/7/device/vif"),
        (b"x@", 32751, b"/local/domain/32751/x@"),
        (absolute.as_slice(), 7, absolute.as_slice()),
    ];
    for (bytes, domid, text) in rows {
        assert!(rt; domid <= 32751);
        assert_eq!(rt; Path::read(alloc, bytes, domid)?.bytes(), text);
        assert!(rt; is_path(bytes));
    }
    assert_eq!(rt; Path::read(alloc, relative.as_slice(), 0)?.depth(), 4);
    Ok(())
}

#[test]
fn names_the_first_fault(rt: HostRuntime) -> Result<(), Fail> {
    let alloc = rt.alloc();
    let absolute = long(alloc, b'/', 3073)?;
    let relative = long(alloc, b' ', 2049)?;
    let rows: [(&[u8], PathFault); 12] = [
        (b"", PathFault::Empty),
        (absolute.as_slice(), PathFault::TooLong { len: 3073 }),
        (relative.as_slice(), PathFault::TooLong { len: 2049 }),
        (b"@introduceDomain", PathFault::BadByte { at: 0 }),
        (b"/a\0", PathFault::BadByte { at: 2 }),
        (b"/a b//", PathFault::BadByte { at: 2 }),
        (b"//", PathFault::DoubleSlash { at: 1 }),
        (b"/a//b c", PathFault::DoubleSlash { at: 3 }),
        (b"a//", PathFault::DoubleSlash { at: 2 }),
        (b"/a/", PathFault::TrailingSlash),
        (b"a/", PathFault::TrailingSlash),
        (b"/a\xc3\xa4", PathFault::BadByte { at: 2 }),
    ];
    for (bytes, fault) in rows {
        assert!(rt;
            Path::read(alloc, bytes, 0).is_err_and(|found| found == fault),
            "{fault:?}"
        );
        assert!(rt; !is_path(bytes));
    }
    Ok(())
}

#[test]
fn walks_up_and_down(rt: HostRuntime) -> Result<(), Fail> {
    let alloc = rt.alloc();
    let state = path(alloc, "/vif/0/state")?;
    assert_eq!(rt; state.leaf(), b"state".as_slice());
    assert_eq!(rt; state.prefix(alloc, 2)?.bytes(), b"/vif/0".as_slice());
    assert_eq!(rt; state.prefix(alloc, 0)?, Path::root(alloc)?);
    assert_eq!(rt; state.prefix(alloc, 4)?, state.copy(alloc)?);
    let mut above = state.copy(alloc)?;
    assert!(rt; above.pop());
    assert_eq!(rt; state.parent(alloc)?.ok_or("a parent")?, above);
    assert!(rt; above.pop() && above.pop() && above.is_root() && !above.pop());
    assert!(rt; above.parent(alloc)?.is_none() && above.leaf().is_empty());
    assert!(rt; state.is_below(&above) && state.is_below(&state));
    assert!(rt; !state.is_below(&path(alloc, "/vif/0/sta")?));
    Ok(())
}

#[test]
fn a_node_is_followed_by_all_below_it(rt: HostRuntime) -> Result<(), Fail> {
    let alloc = rt.alloc();
    let rows = ["/", "/a", "/a/b", "/a-b", "/a0", "/b"];
    for (i, low) in rows.iter().enumerate() {
        for (j, high) in rows.iter().enumerate() {
            assert_eq!(rt;
                path(alloc, low)?.cmp(&path(alloc, high)?),
                i.cmp(&j),
                "{low} {high}"
            );
        }
    }
    Ok(())
}
