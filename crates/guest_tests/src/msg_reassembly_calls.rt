//! Worked values of inboxes, found by hand.

use msg_reassembly::{Front, Inbox, Ins, split};
use std::test::Fail;
use xs_model::message::MESSAGE_MAX;

/// A request of type 2 for the path `/a`.
const READ: [u8; 19] = [
    2, 0, 0, 0, 1, 0, 0, 0, 0, 0, 0, 0, 3, 0, 0, 0, b'/', b'a', 0,
];

/// Its header with a length of 4097.
const LONG: [u8; 16] = [2, 0, 0, 0, 1, 0, 0, 0, 0, 0, 0, 0, 1, 16, 0, 0];

#[test]
fn takes_a_message_in_pieces(rt: HostRuntime) -> Result<(), Fail> {
    let mut inbox = Inbox::new(rt.alloc())?;
    for (from, to, room) in [(0, 1, 16), (1, 15, 15), (15, 16, 1), (16, 19, 3)] {
        assert_eq!(rt; inbox.front(), Front::Part);
        assert_eq!(rt; inbox.room(), room);
        let piece = &READ[from..to];
        assert!(rt; piece.len() <= inbox.room());
        inbox.feed(piece);
    }
    assert_eq!(rt; inbox.room(), 0);
    assert_eq!(rt; inbox.bytes(), READ.as_slice());
    assert_eq!(rt; inbox.front(), Front::Whole { len: 19 });
    let mut message = [0; MESSAGE_MAX];
    assert_eq!(rt; inbox.take_front(&mut message), 19);
    assert_eq!(rt; message[17], b'a');
    assert_eq!(rt; inbox.bytes().len(), 0);
    Ok(())
}

#[test]
fn skips_a_message(rt: HostRuntime) -> Result<(), Fail> {
    let mut inbox = Inbox::of(rt.alloc(), &READ)?;
    assert_eq!(rt; inbox.skip_front(), 19);
    assert_eq!(rt; (inbox.bytes().len(), inbox.room()), (0, 16));
    Ok(())
}

#[test]
fn stops_at_a_long_header(rt: HostRuntime) -> Result<(), Fail> {
    let inbox = Inbox::of(rt.alloc(), &LONG)?;
    assert_eq!(rt; inbox.front(), Front::TooLong { len: 4097 });
    assert_eq!(rt; inbox.room(), 0);
    assert_eq!(rt; split(rt.alloc(), &READ)?.len(), 1);
    assert_eq!(rt; split(rt.alloc(), &READ[..18])?.len(), 0);
    assert_eq!(rt; split(rt.alloc(), &LONG)?.len(), 0);
    Ok(())
}

#[test]
fn keeps_inboxes_by_id(rt: HostRuntime) -> Result<(), Fail> {
    let mut ins = Ins::new(rt.alloc());
    for id in [7, 2] {
        assert!(rt; ins.get(id).is_none());
        ins.add(id, Inbox::of(rt.alloc(), &READ[..9])?)?;
    }
    let inbox = Inbox::of(rt.alloc(), &READ[..9])?;
    ins.reserve(1)?;
    ins.put(5, inbox);
    let mut fed = 0;
    if let Some(inbox) = ins.get_mut(5) {
        assert_eq!(rt; inbox.room(), 7);
        inbox.feed(&[0; 7]);
        fed = inbox.bytes().len();
    }
    assert_eq!(rt; fed, 16);
    assert_eq!(rt; (ins.remove(2), ins.remove(2)), (true, false));
    assert_eq!(rt; ins.get(7).map(|inbox| inbox.bytes().len()), Some(9));
    assert_eq!(rt; ins.get(2).map(|inbox| inbox.bytes().len()), None);
    Ok(())
}
