//! Connections' ways through the daemon, by hand.

ghost use Rattle.std.specs.Prelude.{◌≡◌, ◌≤◌, None, length};

use daemon::{AddErr, ConnSpec, Daemon, Door, Pull, Submit};
use std::test::Fail;
use xs_base::NoMemory;

/// A READ of the path `/a`, which is absent.
const READ: [u8; 19] = [
    2, 0, 0, 0, 1, 0, 0, 0, 0, 0, 0, 0, 3, 0, 0, 0, b'/', b'a', 0,
];

/// TRANSACTION_START.
const START: [u8; 17] = [6, 0, 0, 0, 1, 0, 0, 0, 0, 0, 0, 0, 1, 0, 0, 0, 0];

/// A WRITE of `x` to the path `/a` in transaction 1.
const WRITE_INSIDE: [u8; 20] = [
    11, 0, 0, 0, 1, 0, 0, 0, 1, 0, 0, 0, 4, 0, 0, 0, b'/', b'a', 0, b'x',
];

/// TRANSACTION_END of transaction 1, with a commit.
const END: [u8; 18] = [7, 0, 0, 0, 1, 0, 0, 0, 1, 0, 0, 0, 2, 0, 0, 0, b'T', 0];

/// A WRITE of `x` to the path `/a`.
const WRITE: [u8; 20] = [
    11, 0, 0, 0, 1, 0, 0, 0, 0, 0, 0, 0, 4, 0, 0, 0, b'/', b'a', 0, b'x',
];

/// WATCH of the path `/a` with the token `t`.
const WATCH: [u8; 21] = [
    4, 0, 0, 0, 1, 0, 0, 0, 0, 0, 0, 0, 5, 0, 0, 0, b'/', b'a', 0, b't', 0,
];

/// UNWATCH of it.
const UNWATCH: [u8; 21] = [
    5, 0, 0, 0, 1, 0, 0, 0, 0, 0, 0, 0, 5, 0, 0, 0, b'/', b'a', 0, b't', 0,
];

/// RESET_WATCHES.
const RESET: [u8; 17] = [21, 0, 0, 0, 1, 0, 0, 0, 0, 0, 0, 0, 1, 0, 0, 0, 0];

/// INTRODUCE of domain 5, with the event channel 3.
const INTRODUCE: [u8; 22] = [
    8, 0, 0, 0, 1, 0, 0, 0, 0, 0, 0, 0, 6, 0, 0, 0, b'5', 0, b'1', 0, b'3', 0,
];

/// RELEASE of domain 5.
const RELEASE: [u8; 18] = [9, 0, 0, 0, 1, 0, 0, 0, 0, 0, 0, 0, 2, 0, 0, 0, b'5', 0];

/// The ring of a domain, without a target and with event channel 3.
fn ring(domid: u16) -> ConnSpec
    ensures { result ≡ ConnSpec.Ring domid None 3 }
{
    ConnSpec::Ring {
        domid,
        target: None,
        evtchn: 3,
    }
}

/// What comes of a message. A test looks at its answer alone, and proves sooner without the clauses behind it.
fn submit(daemon: &mut Daemon, conn: u32, message: &[u8]) -> Result<Submit, NoMemory>
    requires head { 16 ≤ length message.now }
    requires short { length message.now ≤ 4112 }
{
    daemon.submit(conn, message)
}

#[test]
fn answers_and_drops_a_connection(rt: HostRuntime) -> Result<(), Fail> {
    let mut daemon = Daemon::new(rt.alloc())?;
    let mut into = [0; 20];
    assert_eq!(rt; daemon.conn_of(0), Some(1));
    assert_eq!(rt; daemon.conn_of(1), None);
    assert_eq!(rt; daemon.pull(1, &mut into), Pull::Nothing);
    assert_eq!(rt; submit(&mut daemon, 1, &READ)?, Submit::Done(Door::Same));
    assert_eq!(rt; submit(&mut daemon, 2, &READ)?, Submit::Gone);
    assert_eq!(rt; daemon.unsent(1), Some(23));
    assert_eq!(rt; daemon.pull(1, &mut into), Pull::Got(20));
    assert_eq!(rt; daemon.pull(1, &mut into), Pull::Got(3));
    assert_eq!(rt; &into[..3], b"NT\0".as_slice());
    assert_eq!(rt; (daemon.drop_conn(1), daemon.drop_conn(1)), (true, false));
    assert_eq!(rt; daemon.conn_of(0), None);
    assert_eq!(rt; daemon.pull(1, &mut into), Pull::Gone);
    Ok(())
}

#[test]
fn makes_and_removes_a_ring(rt: HostRuntime) -> Result<(), Fail> {
    let mut daemon = Daemon::new(rt.alloc())?;
    let mut into = [0; 23];
    assert_eq!(rt;
        submit(&mut daemon, 1, &INTRODUCE)?,
        Submit::Done(Door::Opened(5))
    );
    assert_eq!(rt; daemon.conn_of(5), Some(2));
    assert_eq!(rt;
        submit(&mut daemon, 1, &INTRODUCE)?,
        Submit::Done(Door::Same)
    );
    assert_eq!(rt; daemon.conns().len(), 2);
    assert_eq!(rt; submit(&mut daemon, 2, &RELEASE)?, Submit::Done(Door::Same));
    assert_eq!(rt; daemon.pull(2, &mut into), Pull::Got(23));
    assert_eq!(rt; &into[16..], b"EACCES\0".as_slice());
    assert_eq!(rt; submit(&mut daemon, 2, &READ)?, Submit::Done(Door::Same));
    assert_eq!(rt;
        submit(&mut daemon, 1, &RELEASE)?,
        Submit::Done(Door::Closed(5))
    );
    assert_eq!(rt; (daemon.conn_of(5), daemon.unsent(2)), (None, None));
    assert_eq!(rt; daemon.unsent(1), Some(57));
    Ok(())
}

#[test]
fn adds_an_id_and_a_domain_once(rt: HostRuntime) -> Result<(), Fail> {
    let mut daemon = Daemon::new(rt.alloc())?;
    assert_eq!(rt; daemon.add_conn(4, ring(7)), Ok(()));
    assert_eq!(rt; daemon.add_conn(4, ring(8)), Err(AddErr::Taken));
    assert_eq!(rt; daemon.add_conn(2, ring(7)), Err(AddErr::Taken));
    assert_eq!(rt; daemon.unsent(4), Some(0));
    assert_eq!(rt; (daemon.conn_of(7), daemon.conn_of(8)), (Some(4), None));
    Ok(())
}

#[test]
fn commits_a_transaction(rt: HostRuntime) -> Result<(), Fail> {
    let mut daemon = Daemon::new(rt.alloc())?;
    let done = Submit::Done(Door::Same);
    assert_eq!(rt; submit(&mut daemon, 1, &START)?, done);
    assert_eq!(rt; submit(&mut daemon, 1, &WRITE_INSIDE)?, done);
    // Outside of it `/a` is absent still: an ERROR with a name of 7 bytes.
    assert_eq!(rt; submit(&mut daemon, 1, &READ)?, done);
    assert_eq!(rt; daemon.unsent(1), Some(60));
    assert_eq!(rt; submit(&mut daemon, 1, &END)?, done);
    // Then it is there, with a value of one byte.
    assert_eq!(rt; submit(&mut daemon, 1, &READ)?, done);
    assert_eq!(rt; daemon.unsent(1), Some(96));
    Ok(())
}

#[test]
fn tells_a_watch(rt: HostRuntime) -> Result<(), Fail> {
    let mut daemon = Daemon::new(rt.alloc())?;
    let done = Submit::Done(Door::Same);
    // A reply of 19 bytes, and the first event of 21.
    assert_eq!(rt; submit(&mut daemon, 1, &WATCH)?, done);
    assert_eq!(rt; daemon.unsent(1), Some(40));
    // The same again is refused: 23 bytes.
    assert_eq!(rt; submit(&mut daemon, 1, &WATCH)?, done);
    assert_eq!(rt; daemon.unsent(1), Some(63));
    // A reply and an event.
    assert_eq!(rt; submit(&mut daemon, 1, &WRITE)?, done);
    assert_eq!(rt; daemon.unsent(1), Some(103));
    // Then nobody watches any more.
    assert_eq!(rt; submit(&mut daemon, 1, &RESET)?, done);
    assert_eq!(rt; submit(&mut daemon, 1, &WRITE)?, done);
    assert_eq!(rt; submit(&mut daemon, 1, &UNWATCH)?, done);
    assert_eq!(rt; daemon.unsent(1), Some(164));
    Ok(())
}
