//! Commands of domains 0 and 5, by hand.

ghost use Rattle.std.specs.Prelude.{◌≤◌};

use node_tree::Tree;
use std::alloc::Global;
use std::test::Fail;
use tree_ops::{Did, run};
use wire_codec::{Header, Request, WireErr, kind, read_request};
use xs_base::Bytes;

/// What comes of a request of a domain that looks at no number.
fn asked(alloc: Global, tree: &mut Tree, kind: u32, payload: &[u8], domid: u16) -> Result<Did, Fail>
    requires { domid ≤ 32751 }
{
    asked_with(alloc, tree, kind, payload, domid, 0)
}

/// What comes of a request of a domain. The length in the header is not looked at.
fn asked_with(
    alloc: Global,
    tree: &mut Tree,
    kind: u32,
    payload: &[u8],
    domid: u16,
    number: u64,
) -> Result<Did, Fail>
    requires { domid ≤ 32751 }
{
    let head = Header {
        kind,
        req_id: 1,
        tx_id: 0,
        len: 0,
    };
    match &read_request(alloc, head, payload, domid) {
        Ok(Request::Command(command)) => Ok(run(alloc, command, domid, None, number, tree)?),
        Ok(_) => Err("no command on the tree")?,
        Err(fault) => Err(*fault)?,
    }
}

#[test]
fn answers_by_the_rights_of_the_domain(rt: HostRuntime) -> Result<(), Fail> {
    let alloc = rt.alloc();
    let mut tree = Tree::new(alloc)?;
    let rows: [(u16, u32, &[u8], Result<&[u8], WireErr>); 12] = [
        (5, kind::READ, b"/x\0", Err(WireErr::Eacces)),
        (0, kind::READ, b"/x\0", Err(WireErr::Enoent)),
        (5, kind::MKDIR, b"/m\0", Err(WireErr::Eacces)),
        (0, kind::SET_PERMS, b"/\0b0\0", Ok(b"OK\0")),
        (5, kind::MKDIR, b"/m\0", Ok(b"OK\0")),
        (5, kind::GET_PERMS, b"/m\0", Ok(b"b5\0")),
        (5, kind::SET_PERMS, b"/m\0n6\0", Err(WireErr::Eacces)),
        (5, kind::WRITE, b"/m/a/b\0v", Ok(b"OK\0")),
        (0, kind::READ, b"/m/a/b\0", Ok(b"v")),
        (0, kind::DIRECTORY, b"/\0", Ok(b"m\0")),
        (0, kind::RM, b"/m\0", Ok(b"OK\0")),
        (0, kind::DIRECTORY, b"/\0", Ok(b"")),
    ];
    for (domid, kind, payload, wanted) in rows {
        let did = asked(alloc, &mut tree, kind, payload, domid)?;
        let reply = did.reply.as_ref().map(|payload| payload.as_slice());
        assert_eq!(rt; reply.ok(), wanted.ok());
        assert_eq!(rt; did.reply.err(), wanted.err());
    }
    Ok(())
}

#[test]
fn tells_what_it_touched_and_wrote(rt: HostRuntime) -> Result<(), Fail> {
    let alloc = rt.alloc();
    let mut tree = Tree::new(alloc)?;
    let did = asked(alloc, &mut tree, kind::MKDIR, b"/m/n\0", 0)?;
    assert_eq!(rt; (did.touched.len(), did.written.len()), (3, 2));
    let did = asked(alloc, &mut tree, kind::RM, b"/m\0", 0)?;
    assert_eq!(rt; (did.touched.len(), did.written.len()), (1, 2));
    let did = asked(alloc, &mut tree, kind::RM, b"/m\0", 0)?;
    assert_eq!(rt; (did.touched.len(), did.written.len()), (2, 0));
    Ok(())
}

#[test]
fn gives_a_list_in_parts(rt: HostRuntime) -> Result<(), Fail> {
    let alloc = rt.alloc();
    let mut tree = Tree::new(alloc)?;
    let rows: [(u32, &[u8], Result<&[u8], WireErr>); 9] = [
        (kind::WRITE, b"/d/x\01", Ok(b"OK\0")),
        (kind::WRITE, b"/d/y\01", Ok(b"OK\0")),
        (kind::DIRECTORY_PART, b"/d\00\0", Ok(b"3\0x\0y\0\0")),
        (kind::DIRECTORY_PART, b"/d\01", Ok(b"3\0\0y\0\0")),
        (kind::DIRECTORY_PART, b"/d\02", Ok(b"3\0y\0\0")),
        (kind::DIRECTORY_PART, b"/d\04\0", Ok(b"3\0\0")),
        (kind::DIRECTORY_PART, b"/d\05\0", Err(WireErr::Einval)),
        (kind::DIRECTORY_PART, b"/\00\0", Ok(b"3\0d\0\0")),
        (kind::DIRECTORY_PART, b"/e\00\0", Err(WireErr::Enoent)),
    ];
    for (kind, payload, wanted) in rows {
        let did = asked_with(alloc, &mut tree, kind, payload, 0, 3)?;
        let reply = did.reply.as_ref().map(|payload| payload.as_slice());
        assert_eq!(rt; reply.ok(), wanted.ok());
        assert_eq!(rt; did.reply.err(), wanted.err());
    }
    Ok(())
}

/// Makes the directory `/d` with the children `n000` to `n999`.
fn make_thousand(alloc: Global, tree: &mut Tree) -> Result<(), Fail> {
    let digits = b"0123456789";
    for hundreds in digits {
        for tens in digits {
            for ones in digits {
                let mut payload = Bytes::copy(alloc, b"/d/n")?;
                payload.push(&[*hundreds, *tens, *ones, 0])?;
                asked(alloc, tree, kind::MKDIR, payload.as_slice(), 0)?;
            }
        }
    }
    Ok(())
}

#[test]
fn gives_a_long_list_in_parts_alone(rt: HostRuntime) -> Result<(), Fail> {
    let alloc = rt.alloc();
    let mut tree = Tree::new(alloc)?;
    make_thousand(alloc, &mut tree)?;
    let did = asked(alloc, &mut tree, kind::DIRECTORY, b"/d\0", 0)?;
    assert_eq!(rt; did.reply.err(), Some(WireErr::E2big));
    let first = asked_with(alloc, &mut tree, kind::DIRECTORY_PART, b"/d\00\0", 0, 1001)?.reply?;
    assert_eq!(rt; (first.len(), names(&first)), (4095, 818));
    let second = asked_with(alloc, &mut tree, kind::DIRECTORY_PART, b"/d\04090", 0, 1001)?.reply?;
    assert_eq!(rt; (second.len(), names(&second)), (916, 183));
    assert!(rt; second.as_slice().ends_with(b"n999\0\0"));
    Ok(())
}

/// How many strings follow the first one.
fn names(payload: &Bytes) -> usize {
    let strings = payload.as_slice().iter().filter(|byte| **byte == 0).count();
    strings.saturating_sub(1)
}
