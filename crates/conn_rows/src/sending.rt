//! A reply, and what is owed beside it, on the way to what is unsent. The walks go over those that are sent something, and
//! pass the others over.

ghost use Rattle.std.specs.Prelude.{◌≡◌, ◌+◌, ◌≤◌, ◌<◌, ◌==◌, true, ℕ, [], None, length, nat_lt, if◌then◌else◌, IfOk, IfSome, OnOk};
ghost use Rattle.std.specs.List.{AllByRecursion};
ghost use Rattle.xs_model.specs.Wholes.{whole_behind};
ghost use Rattle.machine_model.specs.declared.bounds.TheConstants.{CROWD_LIMIT};
ghost use Rattle.conn_rows.specs.Queued.{unsent_of};
ghost use Rattle.conn_rows.specs.Sending.{count_by, crowding, HasRoomFor};
ghost use Rattle.conn_rows.specs.Receivers.{GetsNothing, IsNextReceiver, queues_of, seen_in, seen_after};

use crate::row::Row;
use id_map::IdMap;
use machine_model::CROWD_LIMIT;
use owed_bytes::Owed;
use xs_base::NoMemory;

/// The one that asked, if it is above an id.
fn asker_above(conn: u32, at: u32) -> Option<u32>
    ensures some { IfSome result (λ next. (next ≡ conn) × (at < conn)) }
    ensures none { result ≡ None → conn ≤ at }
{
    if at < conn { Some(conn) } else { None }
}

/// The next connection above an id that is sent something. O(log connections that are owed something).
fn next_receiver(conn: u32, owed: &Owed, at: u32) -> Option<u32>
    ensures some { IfSome result (IsNextReceiver conn owed.now at) }
    ensures none { result ≡ None → (c : ℕ) → at < c → GetsNothing conn owed.now c }
{
    let Some(next) = owed.next_after(at) else {
        return asker_above(conn, at);
    };
    if at < conn && conn < next {
        return Some(conn);
    }
    Some(next)
}

/// How much of a reply of so many bytes goes to a connection.
fn count_of(conn: u32, reply: usize, receiver: u32) -> usize
    ensures { result ≡ (if receiver == conn then reply else 0) }
{
    if receiver == conn { reply } else { 0 }
}

/// What of a reply goes to a connection.
fn part_of(conn: u32, reply: &[u8], receiver: u32) -> &[u8]
    ensures { result.now ≡ (if receiver == conn then reply.now else []) }
{
    if receiver == conn { reply } else { b"" }
}

/// How many bytes are sent to a connection. More than memory has are refused.
fn count_for(conn: u32, reply: usize, owed: &Owed, receiver: u32) -> Result<usize, NoMemory>
    ensures { IfOk result (λ count. count ≡ count_by conn reply owed.now receiver) }
{
    match count_of(conn, reply, receiver).checked_add(owed.bytes(receiver).len()) {
        Some(count) => Ok(count),
        None => Err(NoMemory),
    }
}

/// Whether so many bytes are too many to be unsent.
fn is_crowd(unsent: usize, reply: usize, owed: usize) -> bool
    ensures { result ≡ nat_lt CROWD_LIMIT (unsent + (reply + owed)) }
{
    unsent.saturating_add(reply).saturating_add(owed) > CROWD_LIMIT
}

/// Whether a row would have too many bytes unsent.
fn is_crowded(row: &Row, conn: u32, reply: usize, owed: &Owed, receiver: u32) -> bool
    ensures { result ≡ nat_lt CROWD_LIMIT (length row.now.queue.bytes + count_by conn reply owed.now receiver) }
{
    let reply = count_of(conn, reply, receiver);
    is_crowd(row.unsent(), reply, owed.bytes(receiver).len())
}

/// The least connection that would have too many bytes unsent, if any.
pub(crate) fn crowding(rows: &IdMap<Row>, conn: u32, reply: usize, owed: &Owed) -> Option<u32>
    requires positive { AllByRecursion (λ e. 1 ≤ e.0) rows.now.entries }
    requires short { AllByRecursion (λ e. length e.1.queue.bytes ≤ CROWD_LIMIT) rows.now.entries }
    ensures { result ≡ crowding conn reply owed.now (unsent_of (queues_of rows.now.entries)) }
{
    let mut at = 0;
    'walk: while let Some(receiver) = next_receiver(conn, owed, at) {
        if let Some(row) = rows.get(receiver) {
            if is_crowded(row, conn, reply, owed, receiver) {
                return Some(receiver);
            }
        }
        at = receiver;
    }
    None
}

/// Takes memory for what is sent.
pub(crate) fn reserve_all(
    rows: &mut IdMap<Row>,
    conn: u32,
    reply: usize,
    owed: &Owed,
) -> Result<(), NoMemory>
    requires positive { AllByRecursion (λ e. 1 ≤ e.0) rows.old.entries }
    ensures ok { OnOk result (HasRoomFor conn reply owed.now (queues_of rows.new.entries)) }
    ensures seen { seen_in rows.new.entries ≡ seen_in rows.old.entries }
{
    let mut at = 0;
    'walk: while let Some(receiver) = next_receiver(conn, owed, at) {
        let count = count_for(conn, reply, owed, receiver)?;
        if let Some(row) = rows.get_mut(receiver) {
            row.reserve(count)?;
        }
        at = receiver;
    }
    Ok(())
}

/// Appends a reply, and what is owed, for which there is memory.
pub(crate) fn send(rows: &mut IdMap<Row>, conn: u32, reply: &[u8], owed: &Owed)
    requires positive { AllByRecursion (λ e. 1 ≤ e.0) rows.old.entries }
    requires whole { whole_behind 0 reply.now ≡ true }
    requires room { HasRoomFor conn (length reply.now) owed.now (queues_of rows.old.entries) }
    ensures seen { seen_in rows.new.entries ≡ seen_after conn reply.now owed.now rows.old.entries }
{
    let mut at = 0;
    'walk: while let Some(receiver) = next_receiver(conn, owed, at) {
        if let Some(row) = rows.get_mut(receiver) {
            row.send(part_of(conn, reply, receiver), owed.bytes(receiver));
        }
        at = receiver;
    }
}
