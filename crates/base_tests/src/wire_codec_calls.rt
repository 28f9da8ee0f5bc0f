//! Worked messages, byte by byte: one of each type, and their refusals.

use std::test::Fail;
use wire_codec::{
    Header, Request, RequestErr, TreeOp, kind, read_header, read_request, write_message,
};
use xs_perms::{Letter, Perm};

const READ_A: [u8; 19] = [
    2, 0, 0, 0, 1, 0, 0, 0, 0, 0, 0, 0, 3, 0, 0, 0, b'/', b'a', 0,
];

#[test]
fn reads_and_writes_one_message(rt: HostRuntime) -> Result<(), Fail> {
    let head = read_header(READ_A.first_chunk::<16>().ok_or("short")?);
    let want = head_of(kind::READ);
    assert_eq!(rt; head, want);
    let bytes = write_message(rt.alloc(), want, b"/a\0")?;
    assert_eq!(rt; bytes.as_slice(), READ_A.as_slice());
    Ok(())
}

/// The head of a message of this type.
fn head_of(kind: u32) -> Header {
    Header {
        kind,
        req_id: 1,
        tx_id: 0,
        len: 3,
    }
}

/// A request or its refusal in a word or two.
fn told(got: &Result<Request, RequestErr>) -> &'static str {
    match got {
        Ok(Request::Command(command)) => match &command.op {
            TreeOp::Directory => "directory",
            TreeOp::Read => "read",
            TreeOp::GetPerms => "get perms",
            TreeOp::Write(value) if value.as_slice() == b"v\0".as_slice() => "write v",
            TreeOp::Write(_) => "write",
            TreeOp::Mkdir => "mkdir",
            TreeOp::Rm => "rm",
            TreeOp::SetPerms(_) => "set perms",
            TreeOp::DirectoryPart { .. } => "directory part",
        },
        Ok(Request::Watch { .. }) => "watch",
        Ok(Request::Unwatch { .. }) => "unwatch",
        Ok(Request::Start) => "start",
        Ok(Request::End { commit: true }) => "commit",
        Ok(Request::End { commit: false }) => "drop",
        Ok(Request::Introduce { .. }) => "introduce",
        Ok(Request::Release { .. }) => "release",
        Ok(Request::DomainPath { .. }) => "domain path",
        Ok(Request::IsIntroduced { .. }) => "is introduced",
        Ok(Request::SetTarget { .. }) => "set target",
        Ok(Request::ResetWatches) => "reset watches",
        Err(RequestErr::Einval) => "einval",
        Err(RequestErr::Enosys) => "enosys",
        Err(RequestErr::NoMemory) => "memory",
    }
}

#[test]
fn reads_each_type(rt: HostRuntime) -> Result<(), Fail> {
    let cases = [
        (1, b"/\0".as_slice(), "directory", b"/".as_slice()),
        (2, b"/a\0", "read", b"/a"),
        (3, b"/a\0", "get perms", b"/a"),
        (11, b"/a\0v\0", "write v", b"/a"),
        (12, b"a\0", "mkdir", b"/local/domain/7/a"),
        (13, b"/a\0", "rm", b"/a"),
        (14, b"/a\0n0\0", "set perms", b"/a"),
    ];
    for (kind, payload, want, path) in cases {
        let got = read_request(rt.alloc(), head_of(kind), payload, 7);
        assert_eq!(rt; told(&got), want);
        if let Ok(Request::Command(command)) = &got {
            assert_eq!(rt; command.path.bytes(), path);
        }
    }
    Ok(())
}

/// The numbers that a request has, or zeros.
fn numbers(got: &Result<Request, RequestErr>) -> (u16, u32) {
    match got {
        Ok(Request::Introduce { domid, evtchn }) => (*domid, *evtchn),
        Ok(Request::Release { domid }) => (*domid, 0),
        Ok(Request::DomainPath { domid }) => (*domid, 0),
        Ok(Request::IsIntroduced { domid }) => (*domid, 0),
        Ok(Request::SetTarget { domid, target }) => (*domid, u32::from(*target)),
        _ => (0, 0),
    }
}

#[test]
fn reads_each_domain_type(rt: HostRuntime) -> Result<(), Fail> {
    let cases = [
        (8, b"7\05\09\0".as_slice(), "introduce", (7, 9)),
        (8, b"0\05\04294967295\0x", "introduce", (0, 4_294_967_295)),
        (8, b"7\018446744073709551615\009\0\0", "introduce", (7, 9)),
        (9, b"7\0", "release", (7, 0)),
        (9, b"007\0", "release", (7, 0)),
        (10, b"32751\0", "domain path", (32_751, 0)),
        (10, b"00\0", "domain path", (0, 0)),
        (17, b"7\0", "is introduced", (7, 0)),
        (19, b"7\08\0", "set target", (7, 8)),
        (19, b"00\0032751\0", "set target", (0, 32_751)),
    ];
    for (kind, payload, want, pair) in cases {
        let got = read_request(rt.alloc(), head_of(kind), payload, 0);
        assert_eq!(rt; told(&got), want);
        assert_eq!(rt; numbers(&got), pair);
    }
    Ok(())
}

/// The watch path and the token that a request has, or no bytes.
fn watched(got: &Result<Request, RequestErr>) -> (&[u8], &[u8]) {
    match got {
        Ok(Request::Watch { wpath, token } | Request::Unwatch { wpath, token }) => {
            (wpath.as_slice(), token.as_slice())
        }
        _ => (b"", b""),
    }
}

#[test]
fn reads_watches_and_transactions(rt: HostRuntime) -> Result<(), Fail> {
    let cases = [
        (
            4,
            b"a/b\0t\0".as_slice(),
            "watch",
            b"a/b".as_slice(),
            b"t".as_slice(),
        ),
        (5, b"@releaseDomain\0\0x", "unwatch", b"@releaseDomain", b""),
        (6, b"\0", "start", b"", b""),
        (7, b"T\0", "commit", b"", b""),
        (7, b"F\0", "drop", b"", b""),
        (21, b"\0", "reset watches", b"", b""),
    ];
    for (kind, payload, want, wpath, token) in cases {
        let got = read_request(rt.alloc(), head_of(kind), payload, 7);
        assert_eq!(rt; told(&got), want);
        assert_eq!(rt; watched(&got).0, wpath);
        assert_eq!(rt; watched(&got).1, token);
    }
    Ok(())
}

#[test]
fn refuses_what_is_out_of_form(rt: HostRuntime) -> Result<(), Fail> {
    let cases = [
        (1, b"/a".as_slice()),
        (1, b"/a\0\0"),
        (2, b"/a"),
        (2, b"/a\0b\0"),
        (3, b""),
        (3, b"/a\0n0\0"),
        (11, b"/a"),
        (11, b"//a\0v"),
        (12, b"\0"),
        (12, b"/a\0v"),
        (13, b"/a/\0"),
        (13, b"/\0"),
        (14, b"/a\0"),
        (14, b"/a\0\0"),
        (14, b"/a\0n0"),
        (14, b"/a\0x0\0"),
        (14, b"/a\0n\0"),
        (14, b"/a\0n65536\0"),
        (14, b"/a\0n0\0r\0"),
        (14, b"/a\0n0\0r1"),
        (14, b"/a\0n0\0\0"),
        (4, b"/a\0t"),
        (4, b"@other\0t\0"),
        (5, b"/a\0"),
        (7, b"T"),
        (7, b"T\0\0"),
        (8, b"7\05\0"),
        (8, b"7\05\09"),
        (8, b"7\018446744073709551616\09\0"),
        (8, b"7\05\04294967296\0"),
        (8, b"32752\05\09\0"),
        (8, b"7\0\09\0"),
        (9, b"0\0"),
        (9, b"00\0"),
        (9, b"7\0\0"),
        (10, b"7"),
        (10, b"\0"),
        (10, b"32752\0"),
        (17, b"7\0x"),
        (17, b"7x\0"),
        (19, b"7\0"),
        (19, b"7\08"),
        (19, b"7\08\09\0"),
        (19, b"7\032752\0"),
        (19, b"32752\08\0"),
        (22, b"/a\0"),
        (22, b"/a\0\0"),
        (22, b"/a\00\0\0"),
        (22, b"/a\018446744073709551616"),
        (22, b"a b\00\0"),
    ];
    for (kind, payload) in cases {
        let got = read_request(rt.alloc(), head_of(kind), payload, 7);
        assert_eq!(rt; told(&got), "einval", "type {kind}");
    }
    for kind in [0, 15, 16, 18, 23] {
        let got = read_request(rt.alloc(), head_of(kind), b"/a\0", 7);
        assert_eq!(rt; told(&got), "enosys", "type {kind}");
    }
    Ok(())
}

#[test]
fn reads_an_offset_to_the_end_or_to_one_nul(rt: HostRuntime) -> Result<(), Fail> {
    let cases = [
        (b"/a\00\0".as_slice(), 0),
        (b"/a\0002", 2),
        (b"/a\018446744073709551615\0", u64::MAX),
    ];
    for (payload, want) in cases {
        let got = read_request(rt.alloc(), head_of(kind::DIRECTORY_PART), payload, 7);
        assert_eq!(rt; offset(&got), Some(want));
    }
    Ok(())
}

/// The offset that a request has.
fn offset(got: &Result<Request, RequestErr>) -> Option<u64> {
    match got {
        Ok(Request::Command(command)) => match &command.op {
            TreeOp::DirectoryPart { offset } => Some(*offset),
            _ => None,
        },
        _ => None,
    }
}

#[test]
fn reads_entries_in_order(rt: HostRuntime) -> Result<(), Fail> {
    let payload = b"/a\0n0\0r32752\0b65535\0";
    let got = read_request(rt.alloc(), head_of(kind::SET_PERMS), payload, 7);
    let want = [(Letter::N, 0), (Letter::R, 32752), (Letter::B, 65535)];
    if let Ok(Request::Command(command)) = &got
        && let TreeOp::SetPerms(perms) = &command.op
    {
        assert_eq!(rt; perms.len(), 3);
        for ((letter, domid), perm) in want.iter().zip(perms.as_slice()) {
            let entry = Perm {
                letter: *letter,
                stale: false,
                domid: *domid,
            };
            assert_eq!(rt; *perm, entry);
        }
        return Ok(());
    }
    Err("no entries")?
}
