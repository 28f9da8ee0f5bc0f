//! Worked values of the queue, found by hand.

use out_queues::{OutErr, OutQueue};
use std::test::Fail;

/// An answer of 3 bytes to a request of type 11.
const OK: [u8; 19] = [
    11, 0, 0, 0, 2, 0, 0, 0, 0, 0, 0, 0, 3, 0, 0, 0, b'O', b'K', 0,
];

/// A header alone, of type 2.
const EMPTY: [u8; 16] = [2, 0, 0, 0, 3, 0, 0, 0, 0, 0, 0, 0, 0, 0, 0, 0];

/// Both, one after the other.
const BOTH: [u8; 35] = [
    11, 0, 0, 0, 2, 0, 0, 0, 0, 0, 0, 0, 3, 0, 0, 0, b'O', b'K', 0, 2, 0, 0, 0, 3, 0, 0, 0, 0, 0,
    0, 0, 0, 0, 0, 0,
];

#[test]
fn sends_messages_in_pieces(rt: HostRuntime) -> Result<(), Fail> {
    let mut queue = OutQueue::of(rt.alloc(), 0, &BOTH)?;
    let mut sent = [0; 20];
    assert_eq!(rt; queue.bytes(), BOTH.as_slice());
    for (room, count, rest, unsent) in [
        (7, 7, 12, 28),
        (1, 1, 11, 27),
        (11, 11, 0, 16),
        (1, 1, 15, 15),
        (20, 15, 0, 0),
    ] {
        assert_eq!(rt; queue.pull(&mut sent[..room]), count);
        assert_eq!(rt; (queue.rest(), queue.unsent()), (rest, unsent));
    }
    Ok(())
}

#[test]
fn takes_messages_where_memory_was_reserved(rt: HostRuntime) -> Result<(), Fail> {
    let mut queue = OutQueue::new(rt.alloc());
    queue.reserve(35)?;
    queue.push(&OK);
    queue.push(&EMPTY);
    assert_eq!(rt; queue.unsent(), 35);
    assert_eq!(rt; queue.rest(), 0);
    Ok(())
}

#[test]
fn takes_only_a_rest_and_whole_messages(rt: HostRuntime) {
    for (rest, bytes, wanted) in [
        (0, OK.as_slice(), true),
        (3, OK.as_slice(), false),
        (19, OK.as_slice(), true),
        (20, OK.as_slice(), false),
        (3, &OK[16..], true),
        (0, &OK[..18], false),
    ] {
        let made = OutQueue::of(rt.alloc(), rest, bytes);
        assert_eq!(rt;
            made.err(),
            if wanted { None } else { Some(OutErr::BadOut) }
        );
    }
}
