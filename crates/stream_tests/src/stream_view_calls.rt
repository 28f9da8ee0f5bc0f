//! Worked streams through `view`, inputs that are none, and ends that fail.

use mig_records::StreamFault;
use std::alloc::Global;
use std::test::Fail;
use stream_view::{ViewStatus, view};
use xs_base::{Bytes, Calls, MemSink, MemSource, NoMemory, SureSink, SureSource};

/// The stream of a store that has the root alone, and its lines.
const EMPTY_STORE: &str = "78656e73746f72650000000100000000\n0100000008000000ffffffffffffffff\n\
    05000000160000000000000000000000\n02000000000001006e0000002f000000\n0000000000000000\n";

const EMPTY_STORE_LINES: &str = "0 header version 1\n16 global rw-socket-fd -1 evtchn-fd -1\n\
    32 node conn 0 tx 0 access 0 perms 6e.00.0 path 2f00 value -\n64 end\n";

/// What comes of an input over ends that fail at their first call, or never.
fn viewed(
    alloc: Global,
    word: &str,
    input: &[u8],
    fail_read: bool,
    fail_write: bool,
) -> Result<(ViewStatus, Bytes), NoMemory> {
    let words = vec![in alloc; String::from_str(alloc, word)?]?;
    let mut src = MemSource::new(Bytes::copy(alloc, input)?, first(alloc, fail_read)?);
    let mut out = MemSink::new(alloc, 4096, first(alloc, fail_write)?)?;
    let status = view(alloc, words.as_slice(), &mut src, &mut out);
    Ok((status, Bytes::copy(alloc, out.bytes())?))
}

/// The first call, or none.
fn first(alloc: Global, fails: bool) -> Result<Calls, NoMemory> {
    let mut calls = Calls::new(alloc);
    if fails {
        calls.push(0)?;
    }
    Ok(calls)
}

#[test]
fn shows_worked_streams(rt: HostRuntime) -> Result<(), Fail> {
    let cases = [
        (EMPTY_STORE, EMPTY_STORE_LINES),
        // A ring, half a request, and a reply that is partly sent.
        (
            "78656e73746f72650000000100000000 020000002b000000 01000000 0000 ffff 0000f47f07000000 \
             03000000 0c000000 0c000000 020000 000000000003000000 4f4b00 ffffffffff 0000000000000000",
            "0 header version 1\n\
             16 connection 1 ring 0 target 32756 evtchn 7 in 020000 resp 12 out 0000000000030000004f4b00\n\
             72 end\n",
        ),
        // A socket, and a kind that is neither.
        (
            "78656e73746f72650000000100000000 020000001c000000 02000000 0100 0000 ffffffff00000000 \
             000000000000000000000000 00000000 020000001c000000 03000000 0200 0000 ffffffff00000000 \
             000000000000000000000000 00000000 0000000000000000",
            "0 header version 1\n16 connection 2 socket 4294967295 in - resp 0 out -\n\
             56 connection 3 type 2 in - resp 0 out -\n96 end\n",
        ),
        // A watch with an empty token, a transaction, and a node with two entries under it.
        (
            "78656e73746f72650000000100000000 030000000d000000 01000000 0300 0100 2f6100 00 01 000000 \
             0400000008000000 01000000ffffffff 050000001c000000 01000000 ffffffff 0300 0100 0280 0200 \
             6e000100 72010500 2f6100 78 00000000 0000000000000000",
            "0 header version 1\n16 watch 1 wpath 2f6100 token 00\n40 transaction 1 4294967295\n\
             56 node conn 1 tx 4294967295 access 32770 perms 6e.00.1,72.01.5 path 2f6100 value 78\n\
             96 end\n",
        ),
    ];
    for (input, lines) in cases {
        let (status, written) = viewed(rt.alloc(), "hex", input.as_bytes(), false, false)?;
        assert_eq!(rt; status, ViewStatus::Done, "{input}");
        assert_eq!(rt; written.as_slice(), lines.as_bytes(), "{input}");
    }
    Ok(())
}

#[test]
fn names_what_an_input_is_not(rt: HostRuntime) -> Result<(), Fail> {
    let cases = [
        ("raw", "", ViewStatus::Stream(StreamFault::BadIdent)),
        ("hex", " \n", ViewStatus::Stream(StreamFault::BadIdent)),
        (
            "raw",
            "xenstore",
            ViewStatus::Stream(StreamFault::Cut { at: 0 }),
        ),
        ("hex", "7", ViewStatus::Hex),
        ("hex", "78\t65", ViewStatus::Hex),
        (
            "raw",
            EMPTY_STORE,
            ViewStatus::Stream(StreamFault::BadIdent),
        ),
        ("run", EMPTY_STORE, ViewStatus::Usage),
    ];
    for (word, input, want) in cases {
        let (status, written) = viewed(rt.alloc(), word, input.as_bytes(), false, false)?;
        assert_eq!(rt; status, want, "{word} {input}");
        assert!(rt; written.is_empty(), "{word} {input}");
    }
    Ok(())
}

#[test]
fn names_the_end_that_fails(rt: HostRuntime) -> Result<(), Fail> {
    let (status, written) = viewed(rt.alloc(), "hex", EMPTY_STORE.as_bytes(), true, false)?;
    assert_eq!(rt; status, ViewStatus::ReadFault);
    assert!(rt; written.is_empty());
    let (status, written) = viewed(rt.alloc(), "hex", EMPTY_STORE.as_bytes(), false, true)?;
    assert_eq!(rt; status, ViewStatus::WriteFault);
    assert!(rt; written.is_empty());
    Ok(())
}

#[test]
fn refuses_longer_inputs(rt: HostRuntime) -> Result<(), Fail> {
    let alloc = rt.alloc();
    let mut words = Vec::new(alloc);
    let mut out = SureSink::new();
    let mut src = SureSource::new(Bytes::new(alloc));
    let status = view(alloc, words.as_slice(), &mut src, &mut out);
    assert_eq!(rt; status.number(), 2);
    words.push(String::from_str(alloc, "hex")?)?;
    let long = vec![in alloc; b'\n'; 16_777_217]?;
    let mut src = SureSource::new(Bytes::from_vec(long));
    let status = view(alloc, words.as_slice(), &mut src, &mut out);
    assert_eq!(rt; status.number(), 4);
    Ok(())
}
