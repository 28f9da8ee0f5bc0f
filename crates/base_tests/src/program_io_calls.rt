//! An input that is read whole, and a text that is written whole.

use program_io::{InputFault, read_all, write_all, write_if_many};
use std::test::Fail;
use xs_base::{Bytes, Calls, MemSink, MemSource};

#[test]
fn reads_all_bytes(rt: HostRuntime) -> Result<(), Fail> {
    let alloc = rt.alloc();
    let mut src = MemSource::new(Bytes::copy(alloc, b"a text")?, Calls::new(alloc));
    let text = read_all(alloc, &mut src).ok().ok_or("not read")?;
    assert_eq!(rt; text.as_slice(), b"a text".as_slice());
    Ok(())
}

#[test]
fn names_a_source_that_fails(rt: HostRuntime) -> Result<(), Fail> {
    let alloc = rt.alloc();
    let mut calls = Calls::new(alloc);
    calls.push(1)?;
    let mut src = MemSource::new(Bytes::copy(alloc, b"a text")?, calls);
    let fault = read_all(alloc, &mut src).err();
    assert_eq!(rt; fault, Some(InputFault::ReadFault));
    Ok(())
}

#[test]
fn writes_all_bytes(rt: HostRuntime) -> Result<(), Fail> {
    let alloc = rt.alloc();
    let mut out = MemSink::new(alloc, 16, Calls::new(alloc))?;
    assert!(rt; write_all(&mut out, b"a text").is_ok());
    assert_eq!(rt; out.bytes(), b"a text".as_slice());
    Ok(())
}

#[test]
fn writes_lines_once_they_are_many(rt: HostRuntime) -> Result<(), Fail> {
    let alloc = rt.alloc();
    let few = [b'-'; 16_383];
    let many = [b'-'; 16_384];
    let rows = [(few.as_slice(), 0), (many.as_slice(), 16_384)];
    for (bytes, written) in &rows {
        let mut lines = Bytes::copy(alloc, bytes)?;
        let mut out = MemSink::new(alloc, 16_384, Calls::new(alloc))?;
        assert!(rt; write_if_many(&mut lines, &mut out).is_ok());
        assert_eq!(rt; out.bytes().len(), *written);
        assert_eq!(rt; lines.len(), bytes.len() - written);
    }
    Ok(())
}
