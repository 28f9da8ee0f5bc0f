//! Values from outside of the definitions, and each call once where it succeeds.

use std::alloc::Global;
use std::test::Fail;
use xs_perms::{Letter, Perm, PermFault, Perms, Rights, print_perm, read_perm, rights};

const NONE: Rights = Rights {
    can_read: false,
    can_write: false,
    owner: false,
};

const READ: Rights = Rights {
    can_read: true,
    can_write: false,
    owner: false,
};

const BOTH: Rights = Rights {
    can_read: true,
    can_write: true,
    owner: false,
};

const OWNER: Rights = Rights {
    can_read: true,
    can_write: true,
    owner: true,
};

/// The entries of these texts, in order.
fn entries(alloc: Global, texts: &[&str]) -> Result<Perms, Fail> {
    let mut perms = Perms::new(alloc);
    for text in texts {
        perms.push(read_perm(text.as_bytes())?)?;
    }
    Ok(perms)
}

#[test]
fn entries_are_read(rt: HostRuntime) {
    let rows = [
        ("n0", Letter::N, 0),
        ("r0007", Letter::R, 7),
        ("w32752", Letter::W, 32752),
        ("b65535", Letter::B, 65535),
    ];
    for (text, letter, domid) in rows {
        let perm = Perm {
            letter,
            stale: false,
            domid,
        };
        assert_eq!(rt; read_perm(text.as_bytes()), Ok(perm), "at {text}");
    }
    let faults = [
        ("", PermFault::BadLetter),
        ("7", PermFault::BadLetter),
        ("N0", PermFault::BadLetter),
        ("x-", PermFault::BadLetter),
        ("n", PermFault::BadNumber),
        ("n-1", PermFault::BadNumber),
        ("n0\0", PermFault::BadNumber),
        ("b65536", PermFault::BadNumber),
        ("b000000000000000000001", PermFault::BadNumber),
    ];
    for (text, fault) in faults {
        assert_eq!(rt; read_perm(text.as_bytes()), Err(fault), "at {text}");
    }
}

#[test]
fn entries_are_printed(rt: HostRuntime) {
    let rows = [
        (Letter::N, false, 0, b"n0....".as_slice()),
        (Letter::R, true, 10, b"r10...".as_slice()),
        (Letter::B, false, 65535, b"b65535".as_slice()),
    ];
    for (letter, stale, domid, want) in rows {
        let mut into = *b"......";
        let perm = Perm {
            letter,
            stale,
            domid,
        };
        let len = print_perm(perm, &mut into);
        assert_eq!(rt; into.as_slice(), want);
        assert_eq!(rt;
            Some(len),
            want.iter().position(|byte| *byte == b'.').or(Some(6))
        );
    }
}

#[test]
fn rights_follow_the_entries(rt: HostRuntime) -> Result<(), Fail> {
    let perms = entries(rt.alloc(), &["r3", "n5", "b6", "n6", "w7"])?.copy()?;
    assert_eq!(rt; perms.is_empty(), false);
    let rows = [
        (0, None, OWNER),
        (3, None, OWNER),
        (9, Some(3), OWNER),
        (5, None, NONE),
        (6, None, BOTH),
        (9, Some(6), BOTH),
        (6, Some(5), NONE),
        (9, None, READ),
        (9, Some(0), READ),
    ];
    for (domid, target, want) in rows {
        assert_eq!(rt; rights(&perms, domid, target), want, "of {domid}");
    }
    Ok(())
}

#[test]
fn stale_entries_name_nobody(rt: HostRuntime) -> Result<(), Fail> {
    let mut perms = Perms::new(rt.alloc());
    for (letter, domid) in [(Letter::R, 3), (Letter::B, 5)] {
        perms.push(Perm {
            letter,
            stale: true,
            domid,
        })?;
    }
    assert_eq!(rt; perms.is_empty(), false);
    for domid in [3, 5, 9] {
        assert_eq!(rt; rights(&perms, domid, None), READ, "of {domid}");
    }
    assert_eq!(rt; rights(&perms, 0, None), OWNER);
    Ok(())
}
