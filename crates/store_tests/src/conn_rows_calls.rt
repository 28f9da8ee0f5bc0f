//! A reply and what is owed, on their way to three connections, by hand.

ghost use Rattle.std.specs.Prelude.{◌≡◌, ◌≤◌, ◌∷◌, [], true, IfOk};
ghost use Rattle.xs_model.specs.Wholes.{whole_behind};
ghost use Rattle.machine_model.specs.declared.bounds.TheConstants.{CROWD_LIMIT};
ghost use Rattle.conn_rows.specs.Queued.{unsent_of};

use conn_rows::{NoMemory, Rows};
use owed_bytes::Owed;
use std::alloc::Global;
use std::test::Fail;
use xs_base::Bytes;

/// A message without a payload.
const SHORT: [u8; 16] = [13, 0, 0, 0, 0, 0, 0, 0, 0, 0, 0, 0, 0, 0, 0, 0];

/// A message with a payload of one byte.
const LONG: [u8; 17] = [13, 0, 0, 0, 0, 0, 0, 0, 0, 0, 0, 0, 1, 0, 0, 0, b'a'];

fn short(alloc: Global) -> Result<Bytes, NoMemory>
    ensures { IfOk result (λ bytes. whole_behind 0 bytes ≡ true) }
{
    Bytes::copy(alloc, &SHORT)
}

/// Connections 2 and 4 are owed the short message.
fn two_owed(alloc: Global) -> Result<Owed, NoMemory> {
    let mut owed = Owed::new(alloc);
    owed.append(4, short(alloc)?)?;
    owed.append(2, short(alloc)?)?;
    Ok(owed)
}

/// Connections 1, 2 and 5, to whom nothing is unsent.
fn three(alloc: Global) -> Result<Rows, NoMemory>
    ensures { IfOk result (λ rows. unsent_of rows.queues ≡ (1, []) ∷ (2, []) ∷ (5, []) ∷ []) }
{
    let mut rows = Rows::new(alloc);
    rows.reserve()?;
    rows.add(5);
    rows.reserve()?;
    rows.add(2);
    rows.reserve()?;
    rows.add(1);
    Ok(rows)
}

/// Who would have too many bytes unsent.
fn crowding(rows: &Rows, conn: u32, reply: usize, owed: &Owed) -> Option<u32>
    requires three { unsent_of rows.now.queues ≡ (1, []) ∷ (2, []) ∷ (5, []) ∷ [] }
    requires few { reply ≤ CROWD_LIMIT }
{
    rows.crowding(conn, reply, owed)
}

/// Sends, once there is memory for all.
fn send(rows: &mut Rows, conn: u32, reply: &[u8], owed: &Owed) -> Result<(), NoMemory>
    requires three { unsent_of rows.old.queues ≡ (1, []) ∷ (2, []) ∷ (5, []) ∷ [] }
    requires whole { whole_behind 0 reply.now ≡ true }
{
    rows.reserve_all(conn, reply.len(), owed)?;
    rows.send(conn, reply, owed);
    Ok(())
}

#[test]
fn finds_who_would_have_too_many_bytes(rt: HostRuntime) -> Result<(), Fail> {
    let rows = three(rt.alloc())?;
    let owed = two_owed(rt.alloc())?;
    for (conn, reply, crowded) in [
        (2, 16777200, None),
        (2, 16777201, Some(2)),
        (1, 16777216, None),
        (4, 16777216, None),
    ] {
        assert_eq!(rt; crowding(&rows, conn, reply, &owed), crowded);
    }
    Ok(())
}

#[test]
fn sends_the_reply_before_what_is_owed(rt: HostRuntime) -> Result<(), Fail> {
    let mut rows = three(rt.alloc())?;
    send(&mut rows, 2, &LONG, &two_owed(rt.alloc())?)?;
    for (conn, unsent) in [(1, Some(0)), (2, Some(33)), (4, None), (5, Some(0))] {
        assert_eq!(rt; rows.unsent(conn), unsent);
    }
    let mut sent = [0; 33];
    assert_eq!(rt; rows.pull(2, &mut sent), Some(33));
    assert_eq!(rt;
        (&sent[..17], &sent[17..]),
        (LONG.as_slice(), SHORT.as_slice())
    );
    Ok(())
}

#[test]
fn sends_to_others_than_the_one_that_asked(rt: HostRuntime) -> Result<(), Fail> {
    let mut rows = three(rt.alloc())?;
    send(&mut rows, 5, &LONG, &two_owed(rt.alloc())?)?;
    for (conn, unsent) in [(1, Some(0)), (2, Some(16)), (5, Some(17))] {
        assert_eq!(rt; rows.unsent(conn), unsent);
    }
    Ok(())
}
