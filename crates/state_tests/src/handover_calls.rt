//! Handovers over vaults that keep, fail or alter what they are given.

use crate::streams::MID_MESSAGE;
use handover::{Change, Handed, Refusal, handover};
use mig_load::load;
use std::alloc::Global;
use std::test::Fail;
use xs_base::{Alter, Alters, Bytes, Calls, MemVault, NoMemory, SureVault, Vault};

/// A vault whose first put or get fails, or that alters one byte of its first answer.
fn vault(
    alloc: Global,
    put_fails: bool,
    get_fails: bool,
    alter: Option<Alter>,
) -> Result<MemVault, NoMemory> {
    let mut alters = Alters::new(alloc);
    if let Some(alter) = alter {
        alters.push(alter)?;
    }
    Ok(MemVault::new(
        alloc,
        first(alloc, put_fails)?,
        first(alloc, get_fails)?,
        alters,
    ))
}

/// The first call, or none.
fn first(alloc: Global, fails: bool) -> Result<Calls, NoMemory> {
    let mut calls = Calls::new(alloc);
    if fails {
        calls.push(0)?;
    }
    Ok(calls)
}

/// Why the store in mid-message is kept, if it is; and whether whoever goes on still has the reply's rest and the inbox.
fn refusal<V: Vault>(alloc: Global, vault: &mut V) -> Result<(Option<Refusal>, bool), Fail> {
    let (daemon, ins) = load(alloc, &MID_MESSAGE)?;
    let (refusal, daemon, ins) = match handover(alloc, daemon, ins, vault) {
        Handed::New(daemon, ins) => (None, daemon, ins),
        Handed::Kept(daemon, ins, refusal) => (Some(refusal), daemon, ins),
    };
    Ok((refusal, daemon.unsent(1) == Some(12) && ins.len() == 1))
}

#[test]
fn goes_on_over_a_vault_that_keeps(rt: HostRuntime) -> Result<(), Fail> {
    let mut sure = SureVault::new(rt.alloc());
    assert_eq!(rt; refusal(rt.alloc(), &mut sure)?, (None, true));
    let mut kept = vault(rt.alloc(), false, false, None)?;
    assert_eq!(rt; refusal(rt.alloc(), &mut kept)?, (None, true));
    assert_eq!(rt; kept.put_at(0), Some(MID_MESSAGE.as_slice()));
    Ok(())
}

#[test]
fn is_refused_where_the_vault_fails(rt: HostRuntime) -> Result<(), Fail> {
    let alloc = rt.alloc();
    let mut put = vault(alloc, true, false, None)?;
    assert_eq!(rt;
        refusal(alloc, &mut put)?,
        (Some(Refusal::VaultFault), true)
    );
    assert!(rt; put.put_at(0).is_none());
    let mut get = vault(alloc, false, true, None)?;
    assert_eq!(rt;
        refusal(alloc, &mut get)?,
        (Some(Refusal::VaultFault), true)
    );
    assert!(rt; get.put_at(0).is_some());
    Ok(())
}

#[test]
fn names_the_first_place_that_changed(rt: HostRuntime) -> Result<(), Fail> {
    let alloc = rt.alloc();
    let mut padding = vault(
        alloc,
        false,
        false,
        Some(Alter {
            get: 0,
            at: 83,
            byte: 1,
        }),
    )?;
    let change = Change {
        at: 83,
        put: Some(0),
        got: Some(1),
    };
    assert_eq!(rt;
        refusal(alloc, &mut padding)?,
        (Some(Refusal::Changed(change)), true)
    );
    let mut shorter = vault(alloc, false, false, None)?;
    shorter.give(0, Bytes::copy(alloc, &MID_MESSAGE[..159])?);
    let change = Change {
        at: 159,
        put: Some(0),
        got: None,
    };
    assert_eq!(rt;
        refusal(alloc, &mut shorter)?,
        (Some(Refusal::Changed(change)), true)
    );
    let mut more = Bytes::copy(alloc, &MID_MESSAGE)?;
    more.push(&[0])?;
    let mut longer = vault(alloc, false, false, None)?;
    longer.give(0, more);
    let change = Change {
        at: 160,
        put: None,
        got: Some(0),
    };
    assert_eq!(rt;
        refusal(alloc, &mut longer)?,
        (Some(Refusal::Changed(change)), true)
    );
    Ok(())
}
