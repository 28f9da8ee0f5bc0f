//! What an event owes, connection by connection.

ghost use Rattle.std.specs.Prelude.{◌≡◌, ◌++◌, ◌||◌, ℕ, true, false, [], None, OnOk};
ghost use Rattle.std.specs.List.{list_any};
ghost use Rattle.std.specs.Ordering.{nat_cmp};
ghost use Rattle.std.specs.FinMap.{find};
ghost use Rattle.xs_model.specs.Trees.{is_present, has_entry};
ghost use Rattle.xs_model.specs.Watches.{event_perms};
ghost use Rattle.machine_model.specs.History.{unsent_to};
ghost use Rattle.watch_table.specs.Tables.{is_reached};
ghost use Rattle.watchers.specs.Watched.{made_by, AreOwn};
ghost use Rattle.watchers.specs.Owing.{event_bytes, special_bytes, only_for};

use crate::Watchers;
use crate::index::Ids;
use crate::messages::{append, caller, for_event, for_special};
use conn_table::Conns;
use owed_bytes::Owed;
use watch_events::{Change, Nodes, perms_at};
use xs_base::NoMemory;
use xs_perms::Perms;

/// Appends what an event owes to a connection.
pub fn owe_event(
    watchers: &Watchers,
    conns: &Conns,
    conn: u32,
    change: &Change,
    perms: &Perms,
    owed: &mut Owed,
) -> Result<(), NoMemory>
    requires own { AreOwn conns.now watchers.now }
    requires entry { has_entry perms.now ≡ true }
    ensures { OnOk result ((c : ℕ) → unsent_to c owed.new ≡ unsent_to c owed.old ++ only_for conn (event_bytes conns.now watchers.now change.now perms.now conn) c) }
{
    let Some(spec) = conns.spec(conn) else {
        return Ok(());
    };
    let Some(watches) = watchers.watches(conn) else {
        return Ok(());
    };
    let (domid, target) = caller(spec);
    let messages = for_event(watchers.allocator(), watches, change, perms, domid, target)?;
    append(owed, conn, messages)
}

/// Appends what an event of a change owes to each connection of a table. Only those that it reaches are gone over.
pub fn owe_change<A: Nodes, B: Nodes>(
    watchers: &Watchers,
    conns: &Conns,
    before: &A,
    change: &Change,
    after: &B,
    owed: &mut Owed,
) -> Result<(), NoMemory>
    requires own { AreOwn conns.now watchers.now }
    requires there { (is_present (A.nodes before.now) change.now.path || is_present (B.nodes after.now) change.now.path) ≡ true }
    ensures { OnOk result ((c : ℕ) → unsent_to c owed.new ≡ unsent_to c owed.old ++ event_bytes conns.now watchers.now change.now (event_perms (A.nodes before.now) (B.nodes after.now) change.now.path) c) }
{
    let Some(perms) = perms_at(before, &change.path, after) else {
        return Ok(());
    };
    let ids = watchers.reached_by(change)?;
    owe_each(watchers, conns, &ids, change, perms, owed)
}

/// Appends what an event owes to each connection of a set. It reaches nobody else.
fn owe_each(
    watchers: &Watchers,
    conns: &Conns,
    ids: &Ids,
    change: &Change,
    perms: &Perms,
    owed: &mut Owed,
) -> Result<(), NoMemory>
    requires own { AreOwn conns.now watchers.now }
    requires entry { has_entry perms.now ≡ true }
    requires others { (c : ℕ) → find nat_cmp c ids.now.entries ≡ None → list_any (is_reached change.now) (made_by c watchers.now) ≡ false }
    ensures { OnOk result ((c : ℕ) → unsent_to c owed.new ≡ unsent_to c owed.old ++ event_bytes conns.now watchers.now change.now perms.now c) }
{
    // Nothing but 0 itself stands before those above 0.
    owe_event(watchers, conns, 0, change, perms, owed)?;
    let mut at = 0;
    'ids: while let Some(conn) = ids.next_after(at) {
        owe_event(watchers, conns, conn, change, perms, owed)?;
        at = conn;
    }
    Ok(())
}

/// Appends what a special event owes to a connection.
fn owe_special(
    watchers: &Watchers,
    conns: &Conns,
    conn: u32,
    special: &[u8],
    owed: &mut Owed,
) -> Result<(), NoMemory>
    ensures { OnOk result ((c : ℕ) → unsent_to c owed.new ≡ unsent_to c owed.old ++ only_for conn (special_bytes conns.now watchers.now special.now conn) c) }
{
    let Some(spec) = conns.spec(conn) else {
        return Ok(());
    };
    let Some(watches) = watchers.watches(conn) else {
        return Ok(());
    };
    let (domid, _target) = caller(spec);
    let messages = for_special(watchers.allocator(), watches, special, domid)?;
    append(owed, conn, messages)
}

/// Appends what a special event owes to each connection of a table.
pub fn owe_special_each(
    watchers: &Watchers,
    conns: &Conns,
    special: &[u8],
    owed: &mut Owed,
) -> Result<(), NoMemory>
    ensures { OnOk result ((c : ℕ) → unsent_to c owed.new ≡ unsent_to c owed.old ++ special_bytes conns.now watchers.now special.now c) }
{
    owe_special(watchers, conns, 0, special, owed)?;
    let mut at = 0;
    'conns: while let Some(conn) = conns.next_after(at) {
        owe_special(watchers, conns, conn, special, owed)?;
        at = conn;
    }
    Ok(())
}
