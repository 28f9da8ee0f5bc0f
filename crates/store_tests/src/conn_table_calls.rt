//! Worked values, found by hand.

ghost use Rattle.std.specs.Prelude.{◌≡◌, Some};
ghost use Rattle.conn_table.specs.Tables.{ring_domid};

use conn_table::{AddErr, ConnSpec, Conns};
use std::test::Fail;

/// The ring of a domain, without a target and with event channel 7.
fn ring(domid: u16) -> ConnSpec
    ensures { ring_domid result ≡ Some domid }
{
    ConnSpec::Ring {
        domid,
        target: None,
        evtchn: 7,
    }
}

/// A socket.
fn socket(fd: u32) -> ConnSpec {
    ConnSpec::Socket { fd }
}

#[test]
fn adds_what_is_not_taken(rt: HostRuntime) -> Result<(), Fail> {
    let mut conns = Conns::empty(rt.alloc());
    for (id, spec, added) in [
        (5, ring(3), Ok(())),
        (2, ring(0), Ok(())),
        (2, ring(4), Err(AddErr::Taken)),
        (6, ring(3), Err(AddErr::Taken)),
        (9, socket(1), Ok(())),
        (1, socket(1), Ok(())),
        (9, socket(2), Err(AddErr::Taken)),
    ] {
        assert_eq!(rt; conns.add(id, spec), added);
    }
    for (id, spec, next) in [
        (0, None, Some(1)),
        (1, Some(socket(1)), Some(2)),
        (2, Some(ring(0)), Some(5)),
        (5, Some(ring(3)), Some(9)),
        (6, None, Some(9)),
        (9, Some(socket(1)), None),
    ] {
        assert_eq!(rt; conns.spec(id), spec);
        assert_eq!(rt; conns.next_after(id), next);
    }
    for (domid, id) in [(0, Some(2)), (1, None), (3, Some(5)), (4, None)] {
        assert_eq!(rt; conns.by_domid(domid), id);
    }
    Ok(())
}

#[test]
fn changes_and_removes_connections(rt: HostRuntime) -> Result<(), Fail> {
    let mut conns = Conns::empty(rt.alloc());
    for domid in [0, 1, 2] {
        conns.add(u32::from(domid) + 1, ring(domid))?;
    }
    let target = ConnSpec::Ring {
        domid: 1,
        target: Some(2),
        evtchn: 8,
    };
    assert_eq!(rt; conns.spec(2), Some(ring(1)));
    assert!(rt; conns.set(2, target));
    assert!(rt; conns.spec(7).is_none());
    assert!(rt; !conns.set(7, target));
    assert_eq!(rt;
        (conns.spec(2), conns.spec(3)),
        (Some(target), Some(ring(2)))
    );
    assert_eq!(rt; conns.by_domid(1), Some(2));
    assert_eq!(rt; (conns.remove(2), conns.remove(2)), (true, false));
    assert_eq!(rt; (conns.spec(2), conns.by_domid(1)), (None, None));
    assert_eq!(rt; conns.by_domid(2), Some(3));
    conns.add(7, ring(1))?;
    assert_eq!(rt; conns.by_domid(1), Some(7));
    Ok(())
}

#[test]
fn gives_the_least_free_id(rt: HostRuntime) -> Result<(), Fail> {
    let mut conns = Conns::empty(rt.alloc());
    assert!(rt; conns.is_empty());
    for (free, added) in [(1, 1), (2, 2), (3, 4), (3, 3), (5, 9), (5, 7)] {
        assert!(rt; conns.len() < 6);
        assert_eq!(rt; conns.least_free(), free);
        conns.add(added, socket(added))?;
    }
    assert_eq!(rt; conns.len(), 6);
    Ok(())
}
