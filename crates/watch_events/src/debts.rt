//! What an event owes to the watches of one connection.

ghost use Rattle.std.specs.Prelude.{◌≡◌, ◌++◌, ℕ, Option, true, [], map, IfOk, OnOk, OnErr, MatchOption};
ghost use Rattle.std.specs.List.{flat_map, AllByRecursion};
ghost use Rattle.xs_model.specs.Messages.{message_bytes};
ghost use Rattle.xs_model.specs.Trees.{has_entry};
ghost use Rattle.xs_model.specs.Watches.{owed, special_owed};
ghost use Rattle.watch_table.specs.Tables.{watches_in, at_each};
ghost use Rattle.watch_events.specs.Told.{told};

use crate::change::Change;
use crate::sending::{Messages, firsts, joined, listed};
use std::alloc::Global;
use watch_table::Watches;
use xs_base::{Bytes, NoMemory};
use xs_perms::{Perms, rights};

/// Appends the messages that an event owes to the watches of a domain's connection, in the order in which these were
/// made. There is none where the domain may not read a node with these entries. `target` is the domain for which it
/// stands besides, if any. Refused, the list is as before.
///
/// Costs O(entries), what [`Watches::reached`] costs, and O(bytes of the longest message) for each message.
pub fn push_owed(
    into: &mut Bytes,
    watches: &Watches,
    change: &Change,
    perms: &Perms,
    domid: u16,
    target: Option<u16>,
) -> Result<(), NoMemory>
    requires entry { has_entry perms.now ≡ true }
    requires domid { AllByRecursion (λ m. m.domid ≡ domid) watches.now }
    ensures ok { OnOk result (into.new ≡ into.old ++ flat_map message_bytes (owed (record { domid = domid; target = target }) (watches_in watches.now) change.now perms.now)) }
    ensures err { OnErr result (into.new ≡ into.old) }
{
    let Some(places) = told_places(watches, change, perms, domid, target)? else {
        return Ok(());
    };
    let messages = joined(*places.allocator(), watches, &places, &change.path, domid)?;
    into.push(messages.as_slice())
}

/// The same messages, each for itself.
pub fn owed(
    alloc: Global,
    watches: &Watches,
    change: &Change,
    perms: &Perms,
    domid: u16,
    target: Option<u16>,
) -> Result<Messages, NoMemory>
    requires entry { has_entry perms.now ≡ true }
    requires domid { AllByRecursion (λ m. m.domid ≡ domid) watches.now }
    ensures { IfOk result (λ messages. messages ≡ map message_bytes (owed (record { domid = domid; target = target }) (watches_in watches.now) change.now perms.now)) }
{
    let Some(places) = told_places(watches, change, perms, domid, target)? else {
        return Ok(Messages::new(alloc));
    };
    listed(alloc, watches, &places, &change.path, domid)
}

/// The places of the watches that are told of an event, or none where the domain may not read a node with these entries.
fn told_places(
    watches: &Watches,
    change: &Change,
    perms: &Perms,
    domid: u16,
    target: Option<u16>,
) -> Result<Option<Vec<usize>>, NoMemory>
    requires entry { has_entry perms.now ≡ true }
    requires domid { AllByRecursion (λ m. m.domid ≡ domid) watches.now }
    ensures { IfOk result (λ told_at. MatchOption told_at
        (owed (record { domid = domid; target = target }) (watches_in watches.now) change.now perms.now ≡ [])
        (λ places. map (told domid change.now.path) (watches_in (at_each places.items watches.now)) ≡ owed (record { domid = domid; target = target }) (watches_in watches.now) change.now perms.now)) }
{
    if !rights(perms, domid, target).can_read {
        return Ok(None);
    }
    Ok(Some(watches.reached(&change.path, change.exact)?))
}

/// Appends the messages that a special event owes to the watches of a domain's connection, in the order in which these
/// were made. Only domain 0 is owed any. Refused, the list is as before.
///
/// Costs what [`Watches::specials`] costs, and O(bytes of the longest message) for each message.
pub fn push_special(
    into: &mut Bytes,
    watches: &Watches,
    special: &[u8],
    domid: u16,
) -> Result<(), NoMemory>
    ensures ok { OnOk result ((target : Option ℕ) → into.new ≡ into.old ++ flat_map message_bytes (special_owed (record { domid = domid; target = target }) (watches_in watches.now) special.now)) }
    ensures err { OnErr result (into.new ≡ into.old) }
{
    if domid != 0 {
        return Ok(());
    }
    let places = watches.specials(special)?;
    let messages = firsts(*places.allocator(), watches, &places)?;
    into.push(messages.as_slice())
}
