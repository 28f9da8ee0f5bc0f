//! What is saved of worked stores, and of what was loaded.

ghost use Rattle.std.specs.Prelude.{◌≡◌, ◌≤◌, length};

use crate::streams::{EMPTY_STORE, MID_MESSAGE};
use daemon::{Daemon, Door, Pull, Submit};
use mig_save::save;
use msg_reassembly::{Inbox, Ins};
use std::test::Fail;
use xs_base::NoMemory;

/// A WRITE of nothing to the path `/a`.
const WRITE: [u8; 19] = [
    11, 0, 0, 0, 2, 0, 0, 0, 0, 0, 0, 0, 3, 0, 0, 0, b'/', b'a', 0,
];

/// What comes of a message. A test looks at its answer alone, and proves sooner without the clauses behind it.
fn submit(daemon: &mut Daemon, conn: u32, message: &[u8]) -> Result<Submit, NoMemory>
    requires head { 16 ≤ length message.now }
    requires short { length message.now ≤ 4112 }
{
    daemon.submit(conn, message)
}

#[test]
fn saves_a_store_without_connections(rt: HostRuntime) -> Result<(), Fail> {
    let mut daemon = Daemon::new(rt.alloc())?;
    assert!(rt; daemon.drop_conn(1));
    let ins = Ins::new(rt.alloc());
    let image = save(rt.alloc(), &daemon, &ins)?;
    assert_eq!(rt; image.as_slice(), EMPTY_STORE.as_slice());
    Ok(())
}

#[test]
fn saves_a_store_in_mid_message(rt: HostRuntime) -> Result<(), Fail> {
    let mut daemon = Daemon::new(rt.alloc())?;
    assert_eq!(rt; submit(&mut daemon, 1, &WRITE)?, Submit::Done(Door::Same));
    let mut front = [0; 7];
    assert_eq!(rt; daemon.pull(1, &mut front), Pull::Got(7));
    let mut ins = Ins::new(rt.alloc());
    ins.add(1, Inbox::of(rt.alloc(), &[2, 0, 0])?)?;
    let image = save(rt.alloc(), &daemon, &ins)?;
    assert_eq!(rt; image.as_slice(), MID_MESSAGE.as_slice());
    Ok(())
}
