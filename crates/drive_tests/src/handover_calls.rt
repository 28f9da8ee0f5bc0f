//! Handovers in mid-message, over vaults that keep, fail or alter what they are given; and scripts that resume.

use std::alloc::Global;
use std::test::Fail;
use stream_model::StreamFault;
use xs_base::{Alter, Alters, Bytes, Calls, MemSink, MemVault, NoMemory, SureSource};
use xs_drive::{LoadFault, Status, drive};

/// A WRITE of nothing to `/a`, of whose reply seven bytes leave, and the first three bytes of a READ.
const BEFORE: &str = "send 0 0b0000000200000000000000030000002f6100\n\
    send 0 020000000300000000000000030000002f6100\n\
    put 0 22\nintake 0 4112\ndo 0\nout 0 7\nintake 0 4112\n";

/// The rest of both.
const BEHIND: &str = "put 0 1024\nintake 0 4112\ndo 0\nout 0 4112\ntake 0 4112\n";

const TOLD_BEFORE: &str =
    "send 0 19\nsend 0 19\nput 0 22\nintake 0 19\ndo 0 done\nout 0 7\nintake 0 3\n";

const TOLD_BEHIND: &str = "put 0 16\nintake 0 16\ndo 0 done\nout 0 28\n\
    take 0 0b0000000200000000000000030000004f4b0002000000030000000000000000000000\n";

/// What a script writes over a vault, and how it ends.
fn played(alloc: Global, script: &[u8], vault: &mut MemVault) -> Result<(Status, Bytes), NoMemory> {
    let words = vec![in alloc; String::from_str(alloc, "run")?]?;
    let mut src = SureSource::new(Bytes::copy(alloc, script)?);
    let mut out = MemSink::new(alloc, 4096, Calls::new(alloc))?;
    let status = drive(alloc, words.as_slice(), &mut src, &mut out, vault);
    Ok((status, Bytes::copy(alloc, out.bytes())?))
}

/// These texts, one behind the other.
fn joined(alloc: Global, before: &str, middle: &str, behind: &str) -> Result<Bytes, NoMemory> {
    let mut text = Bytes::copy(alloc, before.as_bytes())?;
    text.push(middle.as_bytes())?;
    text.push(behind.as_bytes())?;
    Ok(text)
}

/// Whether the script with these lines in its middle prints those, and all others as it does without them.
fn prints(alloc: Global, lines: &str, told: &str, vault: &mut MemVault) -> Result<bool, NoMemory> {
    let script = joined(alloc, BEFORE, lines, BEHIND)?;
    let wanted = joined(alloc, TOLD_BEFORE, told, TOLD_BEHIND)?;
    let (status, written) = played(alloc, script.as_slice(), vault)?;
    Ok(status == Status::Done && written.as_slice() == wanted.as_slice())
}

/// A vault in which these puts and gets fail, and that alters a byte.
fn vault(
    alloc: Global,
    put_fails: &[u64],
    get_fails: &[u64],
    alters: &[Alter],
) -> Result<MemVault, NoMemory> {
    let mut altered = Alters::new(alloc);
    for alter in alters {
        altered.push(*alter)?;
    }
    Ok(MemVault::new(
        alloc,
        calls(alloc, put_fails)?,
        calls(alloc, get_fails)?,
        altered,
    ))
}

/// These numbers of calls.
fn calls(alloc: Global, numbers: &[u64]) -> Result<Calls, NoMemory> {
    let mut list = Calls::new(alloc);
    for number in numbers {
        list.push(*number)?;
    }
    Ok(list)
}

#[test]
fn hands_over_in_mid_message(rt: HostRuntime) -> Result<(), Fail> {
    let alloc = rt.alloc();
    let mut keeps = vault(alloc, &[], &[], &[])?;
    assert!(rt; prints(alloc, "", "", &mut keeps)?);
    assert!(rt; keeps.put_at(0).is_none());
    assert!(rt; prints(alloc, "handover\n", "handover new\n", &mut keeps)?);
    let image = keeps.put_at(0).unwrap_or(&[]);
    assert_eq!(rt; image.len(), 160);
    assert_eq!(rt;
        image.get(56..64),
        Some([3, 0, 0, 0, 12, 0, 0, 0].as_slice())
    );
    Ok(())
}

#[test]
fn tells_of_a_vault_that_fails(rt: HostRuntime) -> Result<(), Fail> {
    let alloc = rt.alloc();
    let mut put = vault(alloc, &[0], &[], &[])?;
    assert!(rt; prints(alloc, "handover\n", "handover refused fault\n", &mut put)?);
    assert!(rt; put.put_at(0).is_none());
    let mut get = vault(alloc, &[], &[0], &[])?;
    assert!(rt; prints(alloc, "handover\n", "handover refused fault\n", &mut get)?);
    assert!(rt; get.put_at(0).is_some() && get.put_at(1).is_none());
    let alter = Alter {
        get: 1,
        at: 0,
        byte: 0x79,
    };
    let mut both = vault(alloc, &[], &[0], &[alter])?;
    let told = "handover refused fault\nhandover refused changed 0 78 79\n";
    assert!(rt; prints(alloc, "handover\nhandover\n", told, &mut both)?);
    Ok(())
}

#[test]
fn tells_of_a_vault_that_alters(rt: HostRuntime) -> Result<(), Fail> {
    let alloc = rt.alloc();
    let alter = Alter {
        get: 0,
        at: 83,
        byte: 1,
    };
    let mut padding = vault(alloc, &[], &[], &[alter])?;
    assert!(rt;
        prints(
            alloc,
            "handover\n",
            "handover refused changed 83 00 01\n",
            &mut padding
        )?
    );
    let image = padding.put_at(0).unwrap_or(&[]);
    let mut shorter = vault(alloc, &[], &[], &[])?;
    shorter.give(0, Bytes::copy(alloc, image.get(..159).unwrap_or(&[]))?);
    assert!(rt;
        prints(
            alloc,
            "handover\n",
            "handover refused changed 159 00 end\n",
            &mut shorter
        )?
    );
    let mut more = Bytes::copy(alloc, image)?;
    more.push(&[0])?;
    let mut longer = vault(alloc, &[], &[], &[])?;
    longer.give(0, more);
    assert!(rt;
        prints(
            alloc,
            "handover\n",
            "handover refused changed 160 end 00\n",
            &mut longer
        )?
    );
    Ok(())
}

#[test]
fn resumes_a_state_or_names_its_fault(rt: HostRuntime) -> Result<(), Fail> {
    let alloc = rt.alloc();
    let empty = "resume 78656e73746f72650000000100000000\
        0100000008000000ffffffffffffffff\
        0500000016000000000000000000000002000000000001006e0000002f000000";
    let mut keeps = vault(alloc, &[], &[], &[])?;
    let whole = joined(
        alloc,
        empty,
        "0000000000000000",
        "\ndomain 0 at 0\npage 0\n",
    )?;
    let (status, written) = played(alloc, whole.as_slice(), &mut keeps)?;
    assert_eq!(rt; status, Status::Done);
    assert_eq!(rt; written.as_slice(), b"page 0 0 0 0 0 0\n".as_slice());
    let cut = joined(alloc, empty, "00000000000000", "\npage 0\n")?;
    let (status, written) = played(alloc, cut.as_slice(), &mut keeps)?;
    let fault = LoadFault::Stream(StreamFault::Cut { at: 64 });
    assert_eq!(rt; status, Status::Load { fault });
    assert!(rt; written.is_empty());
    Ok(())
}
