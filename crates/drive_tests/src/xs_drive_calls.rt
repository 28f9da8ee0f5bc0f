//! Worked scripts through `drive`, and ends that fail.

use std::alloc::Global;
use std::test::Fail;
use xs_base::{Bytes, Calls, MemSink, MemSource, NoMemory, SureSink, SureSource, SureVault};
use xs_drive::{LineKind, Status, drive};

/// What comes of a script over ends that fail at their first call, or never.
fn played(
    alloc: Global,
    script: &[u8],
    fail_read: bool,
    fail_write: bool,
) -> Result<(Status, Bytes), NoMemory> {
    let words = vec![in alloc; String::from_str(alloc, "run")?]?;
    let mut src = MemSource::new(Bytes::copy(alloc, script)?, first(alloc, fail_read)?);
    let mut out = MemSink::new(alloc, 4096, first(alloc, fail_write)?)?;
    let mut vault = SureVault::new(alloc);
    let status = drive(alloc, words.as_slice(), &mut src, &mut out, &mut vault);
    Ok((status, Bytes::copy(alloc, out.bytes())?))
}

/// The first call, or none.
fn first(alloc: Global, fails: bool) -> Result<Calls, NoMemory> {
    let mut calls = Calls::new(alloc);
    if fails {
        calls.push(0)?;
    }
    Ok(calls)
}

#[test]
fn plays_worked_scripts(rt: HostRuntime) -> Result<(), Fail> {
    let cases = [
        ("", Status::Done, ""),
        (
            "send 0 020000000100000000000000030000002f6100\nserve 0\n",
            Status::Done,
            "send 0 19\nput 0 19\nintake 0 19\ndo 0 done\nout 0 23\n\
             take 0 10000000010000000000000007000000454e4f454e5400\n",
        ),
        (
            "# a header in two pieces\n\nsend 0 020000000100000000000000030000002f6100\n\
             put 0 9\nintake 0 16\ndo 0\nput 0 64\nserve 0",
            Status::Done,
            "send 0 19\nput 0 9\nintake 0 9\ndo 0 part\nput 0 10\nput 0 0\nintake 0 10\n\
             do 0 done\nout 0 23\ntake 0 10000000010000000000000007000000454e4f454e5400\n",
        ),
        (
            "send 0 02000000010000000000000001100000\nserve 0\npage 0\nput 1 1",
            Status::Done,
            "send 0 16\nput 0 16\nintake 0 16\ndo 0 dropped length 4097\nout 0 gone\n\
             take 0 -\npage 0 16 16 0 0 3\nput 1 gone\n",
        ),
        ("handover\n", Status::Done, "handover new\n"),
        (
            "poke 0 req_prod 2000\nintake 0 1\npage 0",
            Status::Done,
            "poke 0 ok\nintake 0 dropped index 2000 0\npage 0 0 2000 0 0 2\n",
        ),
        (
            "domain 1 at 9\npage 1\nput 2 1",
            Status::Done,
            "page 1 9 9 9 9 0\nput 2 gone\n",
        ),
    ];
    for (script, status, transcript) in cases {
        let (got, written) = played(rt.alloc(), script.as_bytes(), false, false)?;
        assert_eq!(rt; got, status, "{script}");
        assert_eq!(rt; written.as_slice(), transcript.as_bytes(), "{script}");
    }
    Ok(())
}

#[test]
fn names_the_first_faulty_line(rt: HostRuntime) -> Result<(), Fail> {
    let cases = [
        ("put 0 0", 1, LineKind::Number),
        ("# c\nfrob 1", 2, LineKind::Verb),
        ("do 0\ndomain 1 at 0", 2, LineKind::Place),
        ("handover\nsend 0 0", 2, LineKind::Hex),
    ];
    for (script, line, kind) in cases {
        let (got, written) = played(rt.alloc(), script.as_bytes(), false, false)?;
        assert_eq!(rt; got, Status::Script { line, kind }, "{script}");
        assert!(rt; written.is_empty());
    }
    Ok(())
}

#[test]
fn names_the_end_that_fails(rt: HostRuntime) -> Result<(), Fail> {
    let script = b"send 0 020000000100000000000000030000002f6100\nserve 0\n";
    let (status, written) = played(rt.alloc(), script, true, false)?;
    assert_eq!(rt; status, Status::ReadFault);
    assert!(rt; written.is_empty());
    let (status, written) = played(rt.alloc(), script, false, true)?;
    assert_eq!(rt; status, Status::WriteFault);
    assert!(rt; written.is_empty());
    Ok(())
}

#[test]
fn refuses_other_words_and_longer_scripts(rt: HostRuntime) -> Result<(), Fail> {
    let alloc = rt.alloc();
    let mut out = SureSink::new();
    let mut vault = SureVault::new(alloc);
    let mut words = Vec::new(alloc);
    let mut src = SureSource::new(Bytes::new(alloc));
    let status = drive(alloc, words.as_slice(), &mut src, &mut out, &mut vault);
    assert_eq!(rt; status, Status::Usage);
    words.push(String::from_str(alloc, "run")?)?;
    let long = vec![in alloc; b'#'; 16_777_217]?;
    let mut src = SureSource::new(Bytes::from_vec(long));
    let status = drive(alloc, words.as_slice(), &mut src, &mut out, &mut vault);
    assert_eq!(rt; status, Status::TooLong);
    words.push(String::from_str(alloc, "x")?)?;
    let status = drive(alloc, words.as_slice(), &mut src, &mut out, &mut vault);
    assert_eq!(rt; status, Status::Usage);
    Ok(())
}
