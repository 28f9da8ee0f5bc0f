//! The forms of the program that make a script.

use std::alloc::Global;
use std::test::Fail;
use xs_base::{Bytes, Calls, MemSink, NoMemory, SureSource, SureVault};
use xs_drive::{Status, drive};

/// What these words write over an empty source, and how that ends.
fn written(alloc: Global, words: &[&str]) -> Result<(Status, Bytes), NoMemory> {
    let mut list = Vec::new(alloc);
    for word in words {
        list.push(String::from_str(alloc, word)?)?;
    }
    let mut src = SureSource::new(Bytes::new(alloc));
    let mut out = MemSink::new(alloc, 4096, Calls::new(alloc))?;
    let mut vault = SureVault::new(alloc);
    let status = drive(alloc, list.as_slice(), &mut src, &mut out, &mut vault);
    Ok((status, Bytes::copy(alloc, out.bytes())?))
}

#[test]
fn makes_a_script(rt: HostRuntime) -> Result<(), Fail> {
    let (status, text) = written(rt.alloc(), &["make", "1", "1"])?;
    let script = "domain 1 at 0\ndomain 2 at 0\ndomain 3 at 0\n\
        send 0 0c0000000000000000000000060000002f62756c6b00\nserve 0\n\
        send 0 0e0000000000000000000000090000002f62756c6b00623000\nserve 0\n\
        send 2 0300000001000000000000000a0000002f62756c6b2f362f3400\nserve 2\n";
    assert_eq!(rt; status, Status::Done);
    assert_eq!(rt; text.as_slice(), script.as_bytes());
    Ok(())
}

#[test]
fn counts_what_comes_of_it(rt: HostRuntime) -> Result<(), Fail> {
    let (status, text) = written(rt.alloc(), &["bulk", "1", "1"])?;
    let counts = "lines 18\ndone 3\nheld 0\ntaken 61\nhandovers 0\n";
    assert_eq!(rt; status, Status::Done);
    assert_eq!(rt; text.as_slice(), counts.as_bytes());
    let (status, text) = written(rt.alloc(), &["bulk", "7", "40"])?;
    assert_eq!(rt; status, Status::Done);
    assert!(rt; text.as_slice().ends_with(b"handovers 2\n"));
    Ok(())
}

#[test]
fn takes_no_other_numbers(rt: HostRuntime) -> Result<(), Fail> {
    let alloc = rt.alloc();
    let most = "18446744073709551615";
    assert_eq!(rt; written(alloc, &["make", most, "1"])?.0, Status::Done);
    let above = "18446744073709551616";
    assert_eq!(rt; written(alloc, &["make", above, "1"])?.0, Status::Usage);
    assert_eq!(rt; written(alloc, &["make", "1", "0"])?.0, Status::Usage);
    assert_eq!(rt; written(alloc, &["bulk", "1", "20001"])?.0, Status::Usage);
    assert_eq!(rt; written(alloc, &["make", "1"])?.0, Status::Usage);
    assert_eq!(rt; written(alloc, &["bulk", "1", "1", "1"])?.0, Status::Usage);
    Ok(())
}
