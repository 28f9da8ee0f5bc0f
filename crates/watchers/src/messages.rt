//! What one connection is owed, as whole messages.

ghost use Rattle.std.specs.Prelude.{◌≡◌, ◌+◌, ◌≤◌, ◌++◌, ℕ, Option, true, [], length, flat_map, IfOk, OnOk, OnErr};
ghost use Rattle.std.specs.List.{AllByRecursion};
ghost use Rattle.xs_model.specs.Messages.{message_bytes};
ghost use Rattle.xs_model.specs.Trees.{has_entry};
ghost use Rattle.xs_model.specs.Watches.{owed, special_owed, first_event};
ghost use Rattle.xs_model.specs.Wholes.{whole_behind};
ghost use Rattle.machine_model.specs.History.{unsent_to};
ghost use Rattle.machine_model.specs.Connections.{caller_of};
ghost use Rattle.watch_table.specs.Tables.{watch_of, watches_in};
ghost use Rattle.watchers.specs.Owing.{only_for};

use machine_model::ConnSpec;
use owed_bytes::Owed;
use std::alloc::Global;
use watch_events::{Change, push_first, push_owed, push_special};
use watch_table::Watches;
use xs_base::{Bytes, NoMemory};
use xs_perms::Perms;

/// The domain that asks through a connection, and the one for which that stands besides.
pub fn caller(spec: ConnSpec) -> (u16, Option<u16>)
    ensures { record { domid = result.0; target = result.1 } ≡ caller_of spec }
{
    match spec {
        ConnSpec::Ring { domid, target, .. } => (domid, target),
        ConnSpec::Socket { .. } => (0, None),
    }
}

/// What an event owes to the watches of a domain's connection. Costs what [`push_owed`] costs.
pub fn for_event(
    alloc: Global,
    watches: &Watches,
    change: &Change,
    perms: &Perms,
    domid: u16,
    target: Option<u16>,
) -> Result<Bytes, NoMemory>
    requires entry { has_entry perms.now ≡ true }
    requires domid { AllByRecursion (λ m. m.domid ≡ domid) watches.now }
    ensures bytes { IfOk result (λ bytes. bytes ≡ flat_map message_bytes (owed (record { domid = domid; target = target }) (watches_in watches.now) change.now perms.now)) }
    ensures whole { IfOk result (λ bytes. whole_behind 0 bytes ≡ true) }
{
    // Neither the tokens nor the path are longer than a message has room for.
    watches.is_made();
    let _text = change.path.bytes();
    let mut bytes = Bytes::new(alloc);
    push_owed(&mut bytes, watches, change, perms, domid, target)?;
    Ok(bytes)
}

/// What a special event owes to the watches of a domain's connection. Costs what [`push_special`] costs.
pub fn for_special(
    alloc: Global,
    watches: &Watches,
    special: &[u8],
    domid: u16,
) -> Result<Bytes, NoMemory>
    ensures bytes { IfOk result (λ bytes. (target : Option ℕ) → bytes ≡ flat_map message_bytes (special_owed (record { domid = domid; target = target }) (watches_in watches.now) special.now)) }
    ensures whole { IfOk result (λ bytes. whole_behind 0 bytes ≡ true) }
{
    watches.is_made();
    let mut bytes = Bytes::new(alloc);
    push_special(&mut bytes, watches, special, domid)?;
    Ok(bytes)
}

/// What a new watch is owed.
pub fn for_new(alloc: Global, wpath: &[u8], token: &[u8]) -> Result<Bytes, NoMemory>
    requires { length wpath.now + length token.now + 2 ≤ 4096 }
    ensures bytes { IfOk result (λ bytes. bytes ≡ message_bytes (first_event (watch_of wpath.now token.now))) }
    ensures whole { IfOk result (λ bytes. whole_behind 0 bytes ≡ true) }
{
    let mut bytes = Bytes::new(alloc);
    push_first(&mut bytes, wpath, token)?;
    Ok(bytes)
}

/// Appends whole messages to those for a connection, if there are any.
pub fn append(owed: &mut Owed, conn: u32, messages: Bytes) -> Result<(), NoMemory>
    requires whole { whole_behind 0 messages ≡ true }
    ensures ok { OnOk result ((c : ℕ) → unsent_to c owed.new ≡ unsent_to c owed.old ++ only_for conn messages c) }
    ensures err { OnErr result (owed.new ≡ owed.old) }
{
    if messages.is_empty() {
        return Ok(());
    }
    owed.append(conn, messages)
}
