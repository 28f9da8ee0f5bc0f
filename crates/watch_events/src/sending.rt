//! The messages of one event, watch by watch.

ghost use Rattle.std.specs.Prelude.{◌≡◌, ◌++◌, map, IfOk, IfSome, OnOk};
ghost use Rattle.std.specs.List.{flat_map};
ghost use Rattle.std.specs.Option.{option_map};
ghost use Rattle.xs_model.specs.Messages.{message_bytes};
ghost use Rattle.xs_model.specs.Watches.{first_event};
ghost use Rattle.watch_table.specs.Tables.{watch_of, watches_in, at_each};
ghost use Rattle.watch_events.specs.Told.{told, watch_at, told_at, first_at, Fit};

use crate::message::{push_event, push_first};
use crate::naming::named;
use std::alloc::Global;
use watch_table::Watches;
use xs_base::{Bytes, Items, NoMemory};
use xs_path::Path;

/// Messages, each with its header.
pub type Messages = Items<Bytes>;

/// The messages of an event at a path for the watches at these places, one behind the other.
pub fn joined(
    alloc: Global,
    watches: &Watches,
    places: &[usize],
    path: &Path,
    domid: u16,
) -> Result<Bytes, NoMemory>
    ensures { IfOk result (λ messages. messages ≡ flat_map message_bytes (map (told domid path.now) (watches_in (at_each places.now watches.now)))) }
{
    let mut messages = Bytes::new(alloc);
    for place in places {
        push_told(watches, *place, path, domid, &mut messages)?;
    }
    Ok(messages)
}

/// Appends the message for the watch at a place, if there is one.
fn push_told(
    watches: &Watches,
    place: usize,
    path: &Path,
    domid: u16,
    messages: &mut Bytes,
) -> Result<(), NoMemory>
    ensures { OnOk result (messages.new ≡ messages.old ++ flat_map message_bytes (told_at domid path.now watches.now place)) }
{
    match watch_at(watches, place) {
        Some((wpath, token)) => push_event(messages, named(path, wpath, domid), token),
        None => Ok(()),
    }
}

/// The same messages, each for itself.
pub fn listed(
    alloc: Global,
    watches: &Watches,
    places: &[usize],
    path: &Path,
    domid: u16,
) -> Result<Messages, NoMemory>
    ensures { IfOk result (λ messages. messages ≡ map message_bytes (map (told domid path.now) (watches_in (at_each places.now watches.now)))) }
{
    let mut messages = Messages::new(alloc);
    for place in places {
        list_told(alloc, watches, *place, path, domid, &mut messages)?;
    }
    Ok(messages)
}

/// Appends the message for the watch at a place to a list of messages, if there is one.
fn list_told(
    alloc: Global,
    watches: &Watches,
    place: usize,
    path: &Path,
    domid: u16,
    messages: &mut Messages,
) -> Result<(), NoMemory>
    ensures { OnOk result (messages.new ≡ messages.old ++ map message_bytes (told_at domid path.now watches.now place)) }
{
    let Some((wpath, token)) = watch_at(watches, place) else {
        return Ok(());
    };
    let mut message = Bytes::new(alloc);
    push_event(&mut message, named(path, wpath, domid), token)?;
    messages.push(message)
}

/// The first messages of the watches at these places, one behind the other.
pub fn firsts(alloc: Global, watches: &Watches, places: &[usize]) -> Result<Bytes, NoMemory>
    ensures { IfOk result (λ messages. messages ≡ flat_map message_bytes (map first_event (watches_in (at_each places.now watches.now)))) }
{
    let mut messages = Bytes::new(alloc);
    for place in places {
        push_first_at(watches, *place, &mut messages)?;
    }
    Ok(messages)
}

/// Appends the first message of the watch at a place, if there is one.
fn push_first_at(watches: &Watches, place: usize, messages: &mut Bytes) -> Result<(), NoMemory>
    ensures { OnOk result (messages.new ≡ messages.old ++ flat_map message_bytes (first_at watches.now place)) }
{
    match watch_at(watches, place) {
        Some((wpath, token)) => push_first(messages, wpath, token),
        None => Ok(()),
    }
}

/// The path and the token of the watch at a place, which fit in a message.
fn watch_at(watches: &Watches, place: usize) -> Option<(&[u8], &[u8])>
    ensures watch { option_map (λ parts. watch_of parts.0.now parts.1.now) result ≡ watch_at watches.now place }
    ensures fit { IfSome result Fit }
{
    watches.is_made();
    watches.at(place)
}
