//! A worked stream, and a table of bad ones.
use mig_records::{
    RawPerm, RawPerms, Reader, Record, Records, StreamFault, next_place, read_stream,
    write_connection, write_end, write_global, write_header, write_node, write_stream,
    write_transaction, write_watch,
};
use std::alloc::Global;
use std::test::Fail;
use xs_base::{Bytes, NoMemory};

/// The stream of a store that has the root alone, by hand: GLOBAL_DATA at 16, NODE_DATA at 32, END at 64.
const EMPTY_STORE: [u8; 72] = [
    0x78, 0x65, 0x6e, 0x73, 0x74, 0x6f, 0x72, 0x65, 0x00, 0x00, 0x00, 0x01, 0x00, 0x00, 0x00, 0x00,
    0x01, 0x00, 0x00, 0x00, 0x08, 0x00, 0x00, 0x00, 0xff, 0xff, 0xff, 0xff, 0xff, 0xff, 0xff, 0xff,
    0x05, 0x00, 0x00, 0x00, 0x16, 0x00, 0x00, 0x00, 0x00, 0x00, 0x00, 0x00, 0x00, 0x00, 0x00, 0x00,
    0x02, 0x00, 0x00, 0x00, 0x00, 0x00, 0x01, 0x00, 0x6e, 0x00, 0x00, 0x00, 0x2f, 0x00, 0x00, 0x00,
    0x00, 0x00, 0x00, 0x00, 0x00, 0x00, 0x00, 0x00,
];

/// What is wrong with bytes, if anything is.
fn fault_of(alloc: Global, bytes: &[u8]) -> Option<StreamFault> {
    read_stream(alloc, bytes).err()
}

/// The worked stream with these bytes in the place of its own, from a place on; they may go on behind its end.
fn altered(alloc: Global, place: usize, bytes: &[u8]) -> Result<Vec<u8>, NoMemory> {
    let mut stream = Vec::from_slice(alloc, &EMPTY_STORE)?;
    stream.truncate(place);
    stream.extend_from_slice(bytes)?;
    if let Some(rest) = EMPTY_STORE.get(stream.len()..) {
        stream.extend_from_slice(rest)?;
    }
    Ok(stream)
}

/// The canonical stream of what a stream reads as.
fn rewritten(alloc: Global, bytes: &[u8]) -> Result<Bytes, StreamFault> {
    let records = read_stream(alloc, bytes)?;
    Ok(write_stream(alloc, &records)?)
}

/// The place behind the first record of a stream.
fn second_place(alloc: Global, bytes: &[u8]) -> Result<Option<usize>, StreamFault> {
    let records = read_stream(alloc, bytes)?;
    if records.len() < 2 {
        return Ok(None);
    }
    Ok(Some(next_place(bytes, 16)))
}

#[test]
fn writes_a_worked_stream(rt: HostRuntime) -> Result<(), Fail> {
    let alloc = rt.alloc();
    let mut perms = RawPerms::new(alloc);
    perms.push(RawPerm {
        letter: b'n',
        flags: 0,
        domid: 0,
    })?;
    let mut records = Records::new(alloc);
    records.push(Record::Global {
        rw_socket_fd: -1,
        evtchn_fd: -1,
    })?;
    records.push(Record::Node {
        conn: 0,
        tx: 0,
        access: 0,
        perms,
        path: Bytes::copy(alloc, b"/\0")?,
        value: Bytes::new(alloc),
    })?;
    records.push(Record::End)?;
    let stream = write_stream(alloc, &records)?;
    assert_eq!(rt; stream.as_slice(), EMPTY_STORE.as_slice());
    assert_eq!(rt; second_place(alloc, stream.as_slice())?, Some(32));
    Ok(())
}

#[test]
fn writes_each_kind_by_its_parts(rt: HostRuntime) -> Result<(), Fail> {
    let alloc = rt.alloc();
    let entry = RawPerm {
        letter: b'n',
        flags: 0,
        domid: 0,
    };
    let mut out = Bytes::new(alloc);
    write_header(&mut out)?;
    write_global(&mut out, -1, -1)?;
    write_connection(&mut out, 1, 1, &[3, 0, 0, 0, 0, 0, 0, 0], 0, b"ab", b"")?;
    write_watch(&mut out, 1, b"/a\0", b"t\0")?;
    write_transaction(&mut out, 1, 2, 7)?;
    write_node(&mut out, 1, 2, 1, &[entry], b"/\0", b"v")?;
    write_end(&mut out)?;
    assert_eq!(rt; read_stream(alloc, out.as_slice())?.len(), 6);
    assert_eq!(rt;
        rewritten(alloc, out.as_slice())?.as_slice(),
        out.as_slice()
    );
    Ok(())
}

#[test]
fn hands_on_one_record_at_a_time(rt: HostRuntime) -> Result<(), Fail> {
    let alloc = rt.alloc();
    let mut reader = Reader::new(&EMPTY_STORE)?;
    for place in [16, 32, 64] {
        assert_eq!(rt; reader.place(), place);
        assert!(rt; reader.next(alloc)?.is_some());
    }
    assert!(rt; reader.next(alloc)?.is_none());
    assert_eq!(rt; reader.place(), 72);
    Ok(())
}

#[test]
fn lets_surplus_and_padding_pass(rt: HostRuntime) -> Result<(), Fail> {
    let alloc = rt.alloc();
    // As it is; a node's length with its padding; nonzero padding; END with a surplus of seven bytes.
    let edges: [(usize, &[u8]); 4] = [
        (0, b""),
        (36, &[0x18]),
        (62, &[0xff, 0xff]),
        (68, &[7, 0, 0, 0, 1, 2, 3, 4, 5, 6, 7, 8]),
    ];
    for (place, bytes) in edges {
        let stream = altered(alloc, place, bytes)?;
        let again = rewritten(alloc, stream.as_slice())?;
        assert_eq!(rt; again.as_slice(), EMPTY_STORE.as_slice(), "at {place}");
    }
    Ok(())
}

#[test]
fn refuses_bad_streams_by_name_and_place(rt: HostRuntime) -> Result<(), Fail> {
    let alloc = rt.alloc();
    for len in 0..EMPTY_STORE.len() {
        let want = match len {
            0..8 => StreamFault::BadIdent,
            8..16 => StreamFault::Cut { at: 0 },
            16..32 => StreamFault::Cut { at: 16 },
            32..64 => StreamFault::Cut { at: 32 },
            _ => StreamFault::Cut { at: 64 },
        };
        assert_eq!(rt;
            fault_of(alloc, &EMPTY_STORE[..len]),
            Some(want),
            "front of {len}"
        );
    }
    for (place, byte) in EMPTY_STORE.iter().enumerate() {
        let stream = altered(alloc, place, &[byte ^ 0xff])?;
        assert_eq!(rt;
            fault_of(alloc, stream.as_slice()),
            flipped(place),
            "flipped at {place}"
        );
    }
    let bad: [(usize, &[u8], StreamFault); 14] = [
        (0, &[0x79], StreamFault::BadIdent),
        (8, &[0, 0, 0, 2], StreamFault::BadVersion(2)),
        (8, &[1, 0, 0, 0], StreamFault::BadVersion(0x0100_0000)),
        (15, &[1], StreamFault::BadFlags),
        (16, &[6], StreamFault::UnknownType { at: 16, kind: 6 }),
        (64, &[6], StreamFault::UnknownType { at: 64, kind: 6 }),
        (
            16,
            &[6, 0, 0, 0, 0xff, 0xff, 0xff, 0xff],
            StreamFault::UnknownType { at: 16, kind: 6 },
        ),
        (
            20,
            &[16],
            StreamFault::BadLength {
                at: 16,
                need: 8,
                len: 16,
            },
        ),
        (20, &[0xff, 0xff, 0xff, 0xff], StreamFault::Cut { at: 16 }),
        (36, &[0xff, 0xff, 0xff, 0xff], StreamFault::Cut { at: 32 }),
        (
            36,
            &[15],
            StreamFault::BadLength {
                at: 32,
                need: 16,
                len: 15,
            },
        ),
        (
            48,
            &[0xff, 0xff],
            StreamFault::BadLength {
                at: 32,
                need: 65555,
                len: 22,
            },
        ),
        (68, &[0xff, 0xff, 0xff, 0x7f], StreamFault::Cut { at: 64 }),
        (72, &[0], StreamFault::AfterEnd { at: 72 }),
    ];
    for (place, bytes, want) in bad {
        let stream = altered(alloc, place, bytes)?;
        assert_eq!(rt;
            fault_of(alloc, stream.as_slice()),
            Some(want),
            "at {place}"
        );
    }
    Ok(())
}

/// What comes of the worked stream with all bits of the byte at this place turned. The values of the fields of
/// GLOBAL_DATA and of the node, and its padding, may be any.
fn flipped(place: usize) -> Option<StreamFault> {
    let bits = 0xff_u32 << (8 * (place % 4));
    match place {
        0..8 => Some(StreamFault::BadIdent),
        8..12 => Some(StreamFault::BadVersion(1 ^ bits.swap_bytes())),
        12..16 => Some(StreamFault::BadFlags),
        16..20 => Some(StreamFault::UnknownType {
            at: 16,
            kind: 1 ^ bits,
        }),
        20..24 => Some(StreamFault::Cut { at: 16 }),
        32..36 => Some(StreamFault::UnknownType {
            at: 32,
            kind: 5 ^ bits,
        }),
        36..40 => Some(StreamFault::Cut { at: 32 }),
        48 => Some(node_needs(16 + 4 + 0xfd)),
        49 => Some(node_needs(16 + 4 + 0xff02)),
        50 => Some(node_needs(16 + 4 + 2 + 0xff)),
        51 => Some(node_needs(16 + 4 + 2 + 0xff00)),
        54 => Some(node_needs(16 + 4 * 0xfe + 2)),
        55 => Some(node_needs(16 + 4 * 0xff01 + 2)),
        64..68 => Some(StreamFault::UnknownType { at: 64, kind: bits }),
        68..72 => Some(StreamFault::Cut { at: 64 }),
        _ => None,
    }
}

/// The worked stream's node has 22 bytes, and would need these.
fn node_needs(need: u64) -> StreamFault {
    StreamFault::BadLength {
        at: 32,
        need,
        len: 22,
    }
}
