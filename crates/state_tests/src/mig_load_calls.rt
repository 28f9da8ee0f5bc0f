//! What worked streams load to, and the first fault of bad ones.

ghost use Rattle.std.specs.Prelude.{◌≤◌, length};

use crate::streams::{EMPTY_STORE, MID_MESSAGE};
use kept_model::LoadFault;
use mig_load::load;
use mig_records::{RawPerm, write_connection, write_end, write_node};
use mig_save::save;
use std::alloc::Global;
use std::test::Fail;
use stream_model::StreamFault;
use xs_base::{Bytes, NoMemory, read_hex};

/// The record of the whole store, without descriptors.
const GLOBAL: &str = "0100000008000000ffffffffffffffff";

/// Connection 1, the ring of domain 0.
const RING: &str =
    "020000001c00000001000000000000000000f47f0000000000000000000000000000000000000000";

/// Connection 2, the ring of domain 5.
const RING_OF_5: &str =
    "020000001c00000002000000000000000500f47f0000000000000000000000000000000000000000";

/// Connection 4, a ring of domain 5 too.
const SECOND_RING_OF_5: &str =
    "020000001c00000004000000000000000500f47f0000000000000000000000000000000000000000";

/// Connection 3, a socket.
const SOCKET: &str =
    "020000001c0000000300000001000000070000000000000000000000000000000000000000000000";

/// Connection 1 watches `/a` with the token `t`.
const WATCH: &str = "030000000d00000001000000030002002f61007400000000";

/// Connection 1 has transaction 1 open, and two of its commands wrote something.
const START: &str = "040000000c00000001000000010000000200000000000000";

/// The node `/`.
const ROOT: &str = "0500000016000000000000000000000002000000000001006e0000002f000000";

/// The node `/a` with the number 1 and the value `v`.
const NODE: &str = "0500000018000000000000000100000003000100000001006e0000002f610076";

/// The node `/a/b`.
const BELOW: &str =
    "0500000019000000000000000000000005000000000001006e0000002f612f620000000000000000";

/// Transaction 1 looked at `/a`, and found what is there.
const READ: &str = "0500000018000000010000000100000003000100010001006e0000002f610076";

/// It wrote `/a/b`.
const WROTE: &str =
    "050000001a000000010000000100000005000100020001006e0000002f612f620077000000000000";

/// It removed `/a`.
const REMOVED: &str = "0500000013000000010000000100000003000000000000002f61000000000000";

/// The end.
const END: &str = "0000000000000000";

/// A header, the record of the whole store, and these records, by their hexadecimal texts.
fn stream(alloc: Global, records: &[&str]) -> Result<Bytes, NoMemory> {
    let mut text = Bytes::copy(alloc, b"78656e73746f72650000000100000000")?;
    text.push(GLOBAL.as_bytes())?;
    for record in records {
        text.push(record.as_bytes())?;
    }
    read_hex(alloc, text.as_slice()).map_err(|_fault| NoMemory)
}

/// The fault of such a stream that ends with END, if it has one.
fn fault_of(alloc: Global, records: &[&str]) -> Result<Option<LoadFault>, NoMemory> {
    let mut bytes = stream(alloc, records)?;
    bytes.push(&[0; 8])?;
    Ok(load(alloc, bytes.as_slice()).err())
}

/// What is saved of what bytes load to.
fn again(alloc: Global, bytes: &[u8]) -> Result<Bytes, LoadFault> {
    let (daemon, ins) = load(alloc, bytes)?;
    save(alloc, &daemon, &ins).map_err(|_none| LoadFault::NoMemory)
}

/// These bytes with one of them altered.
fn altered(alloc: Global, bytes: &[u8], place: usize, byte: u8) -> Result<Vec<u8>, NoMemory> {
    let mut copy = Vec::from_slice(alloc, bytes)?;
    if place < copy.len() {
        copy[place] = byte;
    }
    Ok(copy)
}

#[test]
fn loads_worked_streams(rt: HostRuntime) -> Result<(), Fail> {
    let alloc = rt.alloc();
    assert_eq!(rt;
        again(alloc, &EMPTY_STORE)?.as_slice(),
        EMPTY_STORE.as_slice()
    );
    assert_eq!(rt;
        again(alloc, &MID_MESSAGE)?.as_slice(),
        MID_MESSAGE.as_slice()
    );
    let (daemon, ins) = load(alloc, &MID_MESSAGE)?;
    assert_eq!(rt; daemon.conn_of(0), Some(1));
    assert_eq!(rt; daemon.unsent(1), Some(12));
    assert_eq!(rt; ins.len(), 1);
    Ok(())
}

#[test]
fn loads_each_kind_of_record(rt: HostRuntime) -> Result<(), Fail> {
    let alloc = rt.alloc();
    let records = [
        RING, RING_OF_5, SOCKET, WATCH, START, ROOT, NODE, READ, WROTE, END,
    ];
    let bytes = stream(alloc, &records)?;
    assert_eq!(rt;
        again(alloc, bytes.as_slice())?.as_slice(),
        bytes.as_slice()
    );
    Ok(())
}

#[test]
fn lets_surplus_and_padding_pass(rt: HostRuntime) -> Result<(), Fail> {
    let alloc = rt.alloc();
    // A node's length with its padding, and padding that is not zero.
    for (place, byte) in [(36, 0x18), (62, 0xff)] {
        let bytes = altered(alloc, &EMPTY_STORE, place, byte)?;
        assert_eq!(rt;
            again(alloc, bytes.as_slice())?.as_slice(),
            EMPTY_STORE.as_slice(),
            "at {place}"
        );
    }
    assert_eq!(rt; fault_of(alloc, &[SOCKET, ROOT])?, None);
    Ok(())
}

#[test]
fn names_the_fault_of_a_stream(rt: HostRuntime) -> Result<(), Fail> {
    let alloc = rt.alloc();
    let cut = load(alloc, &EMPTY_STORE[..71]).err();
    assert_eq!(rt; cut, Some(LoadFault::Stream(StreamFault::Cut { at: 64 })));
    let rows = [
        (0, 0x79, StreamFault::BadIdent),
        (11, 2, StreamFault::BadVersion(2)),
        (15, 1, StreamFault::BadFlags),
        (64, 6, StreamFault::UnknownType { at: 64, kind: 6 }),
        (
            20,
            16,
            StreamFault::BadLength {
                at: 16,
                need: 8,
                len: 16,
            },
        ),
    ];
    for (place, byte, fault) in rows {
        let bytes = altered(alloc, &EMPTY_STORE, place, byte)?;
        let found = load(alloc, bytes.as_slice()).err();
        assert_eq!(rt; found, Some(LoadFault::Stream(fault)), "at {place}");
    }
    Ok(())
}

#[test]
fn names_the_fault_of_each_front(rt: HostRuntime) -> Result<(), Fail> {
    for len in 0..160 {
        let fault = match len {
            0..8 => StreamFault::BadIdent,
            8..16 => StreamFault::Cut { at: 0 },
            16..32 => StreamFault::Cut { at: 16 },
            32..88 => StreamFault::Cut { at: 32 },
            88..120 => StreamFault::Cut { at: 88 },
            120..152 => StreamFault::Cut { at: 120 },
            _ => StreamFault::Cut { at: 152 },
        };
        let found = load(rt.alloc(), &MID_MESSAGE[..len]).err();
        assert_eq!(rt; found, Some(LoadFault::Stream(fault)), "front of {len}");
    }
    Ok(())
}

#[test]
fn names_the_fault_of_one_byte(rt: HostRuntime) -> Result<(), Fail> {
    let alloc = rt.alloc();
    let short = LoadFault::Stream(StreamFault::BadLength {
        at: 32,
        need: 44,
        len: 43,
    });
    let rows = [
        (40, 0x00, Some(LoadFault::BadSpec { rec: 1 })),
        (44, 0x02, Some(LoadFault::BadSpec { rec: 1 })),
        (50, 0xf5, Some(LoadFault::BadSpec { rec: 1 })),
        (56, 0x04, Some(short)),
        (64, 0x0d, Some(short)),
        (60, 0x0d, Some(LoadFault::BadOut { rec: 1 })),
        (60, 0x0b, Some(LoadFault::BadOut { rec: 1 })),
        (60, 0x00, Some(LoadFault::BadOut { rec: 1 })),
        (56, 0x02, None),
        (83, 0x01, None),
        (96, 0x01, Some(LoadFault::UnknownTxn { rec: 2 })),
        (108, 0x01, None),
        (112, 0x6f, Some(LoadFault::BadPerm { rec: 2 })),
        (113, 0x02, Some(LoadFault::BadPerm { rec: 2 })),
        (116, 0x2e, Some(LoadFault::BadPath { rec: 2 })),
        (117, 0x01, Some(LoadFault::BadText { rec: 2 })),
        (149, 0x2f, Some(LoadFault::BadPath { rec: 3 })),
    ];
    for (place, byte, fault) in rows {
        let bytes = altered(alloc, &MID_MESSAGE, place, byte)?;
        assert_eq!(rt; load(alloc, bytes.as_slice()).err(), fault, "at {place}");
    }
    Ok(())
}

#[test]
fn names_the_fault_of_a_connection(rt: HostRuntime) -> Result<(), Fail> {
    let alloc = rt.alloc();
    // Conn 0.
    assert_eq!(rt;
        fault_of(
            alloc,
            &["020000001c00000000000000000000000000f47f0000000000000000000000000000000000000000"]
        )?,
        Some(LoadFault::BadSpec { rec: 1 })
    );
    // Kind 2.
    assert_eq!(rt;
        fault_of(
            alloc,
            &["020000001c00000001000000020000000000f47f0000000000000000000000000000000000000000"]
        )?,
        Some(LoadFault::BadSpec { rec: 1 })
    );
    // Domid above the last.
    assert_eq!(rt;
        fault_of(
            alloc,
            &["020000001c0000000100000000000000f07ff47f0000000000000000000000000000000000000000"]
        )?,
        Some(LoadFault::BadSpec { rec: 1 })
    );
    // Target above the last.
    assert_eq!(rt;
        fault_of(
            alloc,
            &["020000001c00000001000000000000000500f07f0000000000000000000000000000000000000000"]
        )?,
        Some(LoadFault::BadSpec { rec: 1 })
    );
    // Rest above what is unsent.
    assert_eq!(rt;
        fault_of(
            alloc,
            &["020000001e00000001000000000000000000f47f0000000000000000030000000200000061620000"]
        )?,
        Some(LoadFault::BadOut { rec: 1 })
    );
    // Unsent bytes that are no messages.
    assert_eq!(rt;
        fault_of(
            alloc,
            &["020000001e00000001000000000000000000f47f0000000000000000010000000200000061620000"]
        )?,
        Some(LoadFault::BadOut { rec: 1 })
    );
    Ok(())
}

#[test]
fn names_the_fault_of_a_watch(rt: HostRuntime) -> Result<(), Fail> {
    let alloc = rt.alloc();
    // Watch without its NUL.
    assert_eq!(rt;
        fault_of(
            alloc,
            &[RING, "030000000c00000001000000020002002f61740000000000"]
        )?,
        Some(LoadFault::BadText { rec: 2 })
    );
    // Token with two.
    assert_eq!(rt;
        fault_of(
            alloc,
            &[RING, "030000000e00000001000000030003002f61007400000000"]
        )?,
        Some(LoadFault::BadText { rec: 2 })
    );
    // Watch of no path.
    assert_eq!(rt;
        fault_of(
            alloc,
            &[RING, "030000000e00000001000000040002002f2f610074000000"]
        )?,
        Some(LoadFault::BadPath { rec: 2 })
    );
    // Transaction 0.
    assert_eq!(rt;
        fault_of(
            alloc,
            &[RING, "040000000c00000001000000000000000000000000000000"]
        )?,
        Some(LoadFault::BadSpec { rec: 2 })
    );
    Ok(())
}

#[test]
fn names_the_fault_of_a_node(rt: HostRuntime) -> Result<(), Fail> {
    let alloc = rt.alloc();
    // Node without its NUL.
    assert_eq!(rt;
        fault_of(
            alloc,
            &["0500000016000000000000000000000002000000000001006e0000002f610000"]
        )?,
        Some(LoadFault::BadText { rec: 1 })
    );
    // Relative node.
    assert_eq!(rt;
        fault_of(
            alloc,
            &["0500000016000000000000000000000002000000000001006e00000061000000"]
        )?,
        Some(LoadFault::BadPath { rec: 1 })
    );
    // Pending node at a special path.
    assert_eq!(rt;
        fault_of(
            alloc,
            &[
                RING,
                START,
                "050000002300000001000000010000000f000000020001006e0000004072656c65617365446f6d61696e000000000000"
            ]
        )?,
        Some(LoadFault::BadPath { rec: 3 })
    );
    // Node without entries.
    assert_eq!(rt;
        fault_of(
            alloc,
            &["0500000013000000000000000000000003000000000000002f61000000000000"]
        )?,
        Some(LoadFault::BadAccess { rec: 1 })
    );
    // Written node without entries.
    assert_eq!(rt;
        fault_of(
            alloc,
            &[
                RING,
                START,
                "0500000013000000010000000100000003000000020000002f61000000000000"
            ]
        )?,
        Some(LoadFault::BadAccess { rec: 3 })
    );
    // Absent node with a value.
    assert_eq!(rt;
        fault_of(
            alloc,
            &[
                RING,
                START,
                "0500000014000000010000000100000003000100010000002f61007600000000"
            ]
        )?,
        Some(LoadFault::BadAccess { rec: 3 })
    );
    // Access 4.
    assert_eq!(rt;
        fault_of(
            alloc,
            &[
                RING,
                START,
                "0500000017000000010000000100000003000000040001006e0000002f610000"
            ]
        )?,
        Some(LoadFault::BadAccess { rec: 3 })
    );
    // Access 4000.
    assert_eq!(rt;
        fault_of(
            alloc,
            &[
                RING,
                START,
                "0500000017000000010000000100000003000000004001006e0000002f610000"
            ]
        )?,
        Some(LoadFault::BadAccess { rec: 3 })
    );
    // Letter x.
    assert_eq!(rt;
        fault_of(
            alloc,
            &["050000001700000000000000000000000300000000000100780000002f610000"]
        )?,
        Some(LoadFault::BadPerm { rec: 1 })
    );
    // Flag 2.
    assert_eq!(rt;
        fault_of(
            alloc,
            &["0500000017000000000000000000000003000000000001006e0200002f610000"]
        )?,
        Some(LoadFault::BadPerm { rec: 1 })
    );
    Ok(())
}

#[test]
fn names_what_is_repeated_or_has_not_come(rt: HostRuntime) -> Result<(), Fail> {
    let alloc = rt.alloc();
    let repeated = |rec| Some(LoadFault::Repeated { rec });
    assert_eq!(rt; fault_of(alloc, &[GLOBAL])?, repeated(1));
    assert_eq!(rt; fault_of(alloc, &[RING, RING])?, repeated(2));
    assert_eq!(rt;
        fault_of(alloc, &[RING_OF_5, SECOND_RING_OF_5])?,
        repeated(2)
    );
    assert_eq!(rt; fault_of(alloc, &[RING, WATCH, WATCH])?, repeated(3));
    assert_eq!(rt; fault_of(alloc, &[RING, START, START])?, repeated(3));
    assert_eq!(rt; fault_of(alloc, &[ROOT, ROOT])?, repeated(2));
    assert_eq!(rt; fault_of(alloc, &[NODE, NODE])?, repeated(2));
    assert_eq!(rt;
        fault_of(alloc, &[RING, START, NODE, READ, READ])?,
        repeated(5)
    );
    let unknown = |rec| Some(LoadFault::UnknownConn { rec });
    assert_eq!(rt; fault_of(alloc, &[WATCH])?, unknown(1));
    assert_eq!(rt; fault_of(alloc, &[START])?, unknown(1));
    assert_eq!(rt; fault_of(alloc, &[NODE, READ])?, unknown(2));
    assert_eq!(rt;
        fault_of(alloc, &[RING, NODE, READ])?,
        Some(LoadFault::UnknownTxn { rec: 3 })
    );
    Ok(())
}

#[test]
fn names_who_has_no_parent(rt: HostRuntime) -> Result<(), Fail> {
    let alloc = rt.alloc();
    let orphan = |rec| Some(LoadFault::Orphan { rec });
    assert_eq!(rt; fault_of(alloc, &[BELOW])?, orphan(1));
    assert_eq!(rt; fault_of(alloc, &[BELOW, NODE])?, orphan(1));
    assert_eq!(rt; fault_of(alloc, &[NODE, BELOW])?, None);
    // A transaction that writes below what is not there, and one that removes what has a child.
    assert_eq!(rt; fault_of(alloc, &[RING, START, WROTE])?, orphan(3));
    assert_eq!(rt;
        fault_of(alloc, &[RING, START, NODE, BELOW, REMOVED])?,
        orphan(5)
    );
    assert_eq!(rt; fault_of(alloc, &[RING, START, NODE, REMOVED])?, None);
    Ok(())
}

#[test]
fn reads_past_special_paths(rt: HostRuntime) -> Result<(), Fail> {
    let alloc = rt.alloc();
    let special =
        "050000002300000000000000000000000f000000000001006e0000004072656c65617365446f6d61696e000000000000";
    let mut bytes = stream(alloc, &[ROOT, special, special])?;
    bytes.push(&[0; 8])?;
    assert_eq!(rt;
        again(alloc, bytes.as_slice())?.as_slice(),
        EMPTY_STORE.as_slice()
    );
    Ok(())
}

/// What loads is saved as a stream that loads to the same; else nothing comes of it.
fn saves_what_it_loads(alloc: Global, bytes: &[u8]) -> Result<bool, NoMemory> {
    let Ok(image) = again(alloc, bytes) else {
        return Ok(true);
    };
    match again(alloc, image.as_slice()) {
        Ok(second) => Ok(second.as_slice() == image.as_slice()),
        Err(_fault) => Ok(false),
    }
}

#[test]
fn bears_each_front_and_each_flipped_byte(rt: HostRuntime) -> Result<(), Fail> {
    let alloc = rt.alloc();
    let records = [RING, SOCKET, WATCH, START, ROOT, NODE, READ, WROTE, END];
    let bytes = stream(alloc, &records)?;
    for place in 0..bytes.len() {
        assert!(rt;
            load(alloc, &bytes.as_slice()[..place]).is_err(),
            "front of {place}"
        );
        for mask in [0x01, 0x80, 0xff] {
            let byte = bytes.as_slice()[place] ^ mask;
            let other = altered(alloc, bytes.as_slice(), place, byte)?;
            assert!(rt; saves_what_it_loads(alloc, other.as_slice())?, "at {place}");
        }
    }
    Ok(())
}

/// A stream of one socket with so many bytes that were read from it, and that are to be sent to it as the rest of a message.
fn one_socket(alloc: Global, read: usize, rest: u32) -> Result<Bytes, NoMemory>
    requires read { read ≤ 16777217 }
    requires rest { rest ≤ 16777217 }
{
    let inbox = vec![in alloc; 0; read]?;
    let unsent = vec![in alloc; 0; rest as usize]?;
    let spec = [7, 0, 0, 0, 0, 0, 0, 0];
    let mut bytes = stream(alloc, &[])?;
    write_connection(
        &mut bytes,
        1,
        1,
        &spec,
        rest,
        inbox.as_slice(),
        unsent.as_slice(),
    )?;
    write_end(&mut bytes)?;
    Ok(bytes)
}

/// The fault of such a stream, if it has one.
fn fault_of_socket(alloc: Global, read: usize, rest: u32) -> Result<Option<LoadFault>, NoMemory>
    requires read { read ≤ 16777217 }
    requires rest { rest ≤ 16777217 }
{
    let bytes = one_socket(alloc, read, rest)?;
    Ok(load(alloc, bytes.as_slice()).err())
}

#[test]
fn takes_as_many_bytes_as_there_may_be(rt: HostRuntime) -> Result<(), Fail> {
    let alloc = rt.alloc();
    assert_eq!(rt; fault_of_socket(alloc, 16_777_216, 0)?, None);
    assert_eq!(rt; fault_of_socket(alloc, 0, 16_777_216)?, None);
    let spec = Some(LoadFault::BadSpec { rec: 1 });
    assert_eq!(rt; fault_of_socket(alloc, 16_777_217, 0)?, spec);
    let out = Some(LoadFault::BadOut { rec: 1 });
    assert_eq!(rt; fault_of_socket(alloc, 0, 16_777_217)?, out);
    Ok(())
}

#[test]
fn takes_the_longest_value_and_entries(rt: HostRuntime) -> Result<(), Fail> {
    let alloc = rt.alloc();
    let entry = RawPerm {
        letter: b'n',
        flags: 0,
        domid: 0,
    };
    let entries = vec![in alloc; entry; 65535]?;
    let value = vec![in alloc; b'v'; 65535]?;
    let mut bytes = stream(alloc, &[ROOT])?;
    write_node(
        &mut bytes,
        0,
        0,
        0,
        entries.as_slice(),
        b"/a\0",
        value.as_slice(),
    )?;
    write_end(&mut bytes)?;
    assert_eq!(rt;
        again(alloc, bytes.as_slice())?.as_slice(),
        bytes.as_slice()
    );
    Ok(())
}
