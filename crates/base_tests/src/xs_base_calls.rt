//! Values from outside of the definitions, and each call once where it succeeds.
use std::io;
use std::io::{Read, Write};
use std::test::Fail;
use xs_base::{
    Alter, Alters, ByteQueue, Bytes, Calls, Failed, Gate, HexFault, MemSink, MemSource, MemVault,
    NumFault, OpenGate, Sink, Source, StdSink, StdSource, SureSink, SureSource, SureVault, Vault,
    VaultErr, hex_pair, push_decimal, push_hex, push_hex_between, read_decimal, read_hex,
};

#[test]
fn hexadecimal_digits(rt: HostRuntime) -> Result<(), Fail> {
    let rows: [(&str, &[u8]); 3] = [("", &[]), ("00ff", &[0, 255]), ("FfaB", &[255, 171])];
    for (text, want) in rows {
        let bytes = read_hex(rt.alloc(), text.as_bytes())?;
        assert_eq!(rt; bytes.as_slice(), want, "at {text}");
    }
    let faults = [
        ("0", HexFault::Odd),
        ("0g", HexFault::BadDigit { at: 1 }),
        ("0g:", HexFault::BadDigit { at: 1 }),
        ("/", HexFault::BadDigit { at: 0 }),
    ];
    for (text, want) in faults {
        let fault = read_hex(rt.alloc(), text.as_bytes()).err();
        assert_eq!(rt; fault, Some(want), "at {text}");
    }
    let mut line = Bytes::copy(rt.alloc(), b"x ")?;
    push_hex(&mut line, &[0, 171, 255])?;
    assert_eq!(rt; line.as_slice(), b"x 00abff".as_slice());
    push_hex_between(&mut line, b" (", &[7], b")\n")?;
    assert_eq!(rt; line.as_slice(), b"x 00abff (07)\n".as_slice());
    assert_eq!(rt; hex_pair(0x4e), *b"4e");
    Ok(())
}

#[test]
fn decimal_digits(rt: HostRuntime) -> Result<(), Fail> {
    let rows = [
        ("", 9, Err(NumFault::Empty)),
        ("0", 0, Ok(0)),
        ("007", 7, Ok(7)),
        ("8", 7, Err(NumFault::TooLarge)),
        ("12a:", 99, Err(NumFault::BadDigit { at: 2 })),
        ("-1", 99, Err(NumFault::BadDigit { at: 0 })),
        ("18446744073709551615", u64::MAX, Ok(u64::MAX)),
        ("18446744073709551616", u64::MAX, Err(NumFault::TooLarge)),
        ("00000000000000000001", 1, Ok(1)),
        ("000000000000000000001", 1, Err(NumFault::TooLarge)),
    ];
    for (text, max, want) in rows {
        assert_eq!(rt; read_decimal(text.as_bytes(), max), want, "at {text}");
    }
    let mut line = Bytes::new(rt.alloc());
    for value in [0, 10, u64::MAX] {
        push_decimal(&mut line, value)?;
        line.push(b" ")?;
    }
    assert_eq!(rt; line.as_slice(), b"0 10 18446744073709551615 ".as_slice());
    Ok(())
}

#[test]
fn bytes_grow(rt: HostRuntime) -> Result<(), Fail> {
    let mut bytes = Bytes::from_vec(vec![in rt.alloc(); 1, 2]?);
    bytes.push(&[3])?;
    assert_eq!(rt; bytes, Bytes::copy(rt.alloc(), &[1, 2, 3])?);
    assert!(rt; bytes.len() == 3 && !bytes.is_empty());
    bytes.clear();
    assert!(rt; bytes.is_empty());
    Ok(())
}

#[test]
fn queues_keep_their_memory(rt: HostRuntime) -> Result<(), Fail> {
    let mut queue = ByteQueue::with_capacity(rt.alloc(), 4)?;
    queue.push_reserved(&[1, 2, 3]);
    queue.skip(2);
    queue.reserve(3)?;
    queue.push_reserved(&[4, 5, 6]);
    queue.push(&[7])?;
    assert_eq!(rt; queue.bytes(), [3, 4, 5, 6, 7].as_slice());
    let mut into = [0; 4];
    assert_eq!(rt; queue.pull(&mut into), 4);
    queue.move_to_front();
    assert_eq!(rt; (into, queue.len()), ([3, 4, 5, 6], 1));
    Ok(())
}

#[test]
fn items_grow(rt: HostRuntime) -> Result<(), Fail> {
    let mut calls = Calls::new(rt.alloc());
    assert!(rt; calls.is_empty());
    calls.push(7)?;
    assert_eq!(rt; calls.copy()?, calls);
    assert_eq!(rt; calls.as_slice(), [7].as_slice());
    assert_eq!(rt; calls.at(0), Some(&7));
    assert_eq!(rt; calls.at(1), None);
    assert_eq!(rt; calls.len(), 1);
    Ok(())
}

#[test]
fn source_fails_in_mid_stream(rt: HostRuntime) -> Result<(), Fail> {
    let mut fails = Calls::new(rt.alloc());
    fails.push(1)?;
    let all = b"abcdefghij".as_slice();
    let mut source = MemSource::new(Bytes::copy(rt.alloc(), all)?, fails);
    let mut piece = [0; 4];
    let mut got = Bytes::new(rt.alloc());
    for want in [Ok(4), Err(Failed), Ok(4), Ok(2), Ok(0)] {
        let read = source.read(&mut piece);
        assert_eq!(rt; read, want);
        if let Ok(count) = read {
            got.push(&piece[..count])?;
        }
    }
    assert_eq!(rt; got.as_slice(), all);
    Ok(())
}

#[test]
fn sink_is_full(rt: HostRuntime) -> Result<(), Fail> {
    let mut fails = Calls::new(rt.alloc());
    fails.push(0)?;
    let mut sink = MemSink::new(rt.alloc(), 5, fails)?;
    let rows = [
        ("xyz", Err(Failed)),
        ("abc", Ok(3)),
        ("def", Ok(2)),
        ("f", Err(Failed)),
        ("", Ok(0)),
    ];
    for (piece, want) in rows {
        assert_eq!(rt; sink.write(piece.as_bytes()), want, "at {piece}");
    }
    assert_eq!(rt; sink.bytes(), b"abcde".as_slice());
    Ok(())
}

#[test]
fn sure_ends(rt: HostRuntime) -> Result<(), Fail> {
    let mut source = SureSource::new(Bytes::copy(rt.alloc(), b"abc")?);
    let mut piece = [0; 2];
    assert_eq!(rt; source.read(&mut piece), Ok(2));
    assert_eq!(rt; piece, *b"ab");
    assert_eq!(rt; SureSink::new().write(b"abc"), Ok(3));
    OpenGate.before_submit(1);
    OpenGate.before_put(0);
    Ok(())
}

#[test]
fn vault_keeps_the_last(rt: HostRuntime) -> Result<(), Fail> {
    let mut vault = SureVault::new(rt.alloc());
    assert!(rt; vault.get()?.is_empty());
    for text in ["one", "two"] {
        vault.put(text.as_bytes())?;
        assert_eq!(rt; vault.get()?.as_slice(), text.as_bytes());
    }
    Ok(())
}

#[test]
fn vault_fails_and_alters_by_number(rt: HostRuntime) -> Result<(), Fail> {
    let mut put_fails = Calls::new(rt.alloc());
    put_fails.push(1)?;
    let mut get_fails = Calls::new(rt.alloc());
    get_fails.push(0)?;
    let mut alters = Alters::new(rt.alloc());
    for (get, at, byte) in [(1, 2, b'x'), (1, 3, b'y'), (2, 0, b'z')] {
        alters.push(Alter { get, at, byte })?;
    }
    let mut vault = MemVault::new(rt.alloc(), put_fails, get_fails, alters);
    vault.give(3, Bytes::copy(rt.alloc(), b"another")?);
    assert!(rt; vault.put(b"one").is_ok());
    assert_eq!(rt; vault.put(b"two").err(), Some(VaultErr::Failed));
    assert_eq!(rt; vault.get().err(), Some(VaultErr::Failed));
    for want in ["onx", "zne", "another", "one"] {
        assert_eq!(rt; vault.get()?.as_slice(), want.as_bytes(), "at {want}");
    }
    assert_eq!(rt; vault.put_at(0), Some(b"one".as_slice()));
    assert_eq!(rt; vault.put_at(1), None);
    Ok(())
}

// It gives an error first, and no bytes then.
#[derive(Drop)]
struct Faulty {
    broken: bool,
}

impl Read for Faulty {
    fn read(&mut self, _buf: &mut [u8]) -> io::Result<usize> {
        if self.broken {
            self.broken = false;
            return Err(io::Error::from(io::ErrorKind::Other));
        }
        Ok(0)
    }
}

impl Write for Faulty {
    fn write(&mut self, _buf: &[u8]) -> io::Result<usize> {
        Ok(0)
    }

    fn flush(&mut self) -> io::Result<()> {
        Ok(())
    }
}

#[test]
fn ends_over_std(rt: HostRuntime) -> Result<(), Fail> {
    let mut piece = [0; 4];
    let mut source = StdSource::new(b"abc".as_slice());
    assert_eq!(rt; source.read(&mut piece), Ok(3));
    let mut source = StdSource::new(Faulty { broken: true });
    assert_eq!(rt; source.read(&mut piece), Err(Failed));
    assert_eq!(rt; source.read(&mut piece), Ok(0));
    let mut sink = StdSink::new(Vec::new(rt.alloc()));
    assert_eq!(rt; sink.write(b"abc"), Ok(3));
    let mut sink = StdSink::new(Faulty { broken: false });
    assert_eq!(rt; sink.write(b"abc"), Err(Failed));
    Ok(())
}
