//! The inbox of a connection.

ghost use Rattle.std.specs.Prelude.{◌≡◌, ◌+◌, ◌≤◌, ◌++◌, ℕ, true, [], length, take, drop, IfOk};
ghost use Rattle.world_model.specs.Fronts.{Whole, front, is_part};
ghost use Rattle.msg_reassembly.specs.Inboxes.{front_view, room};
ghost use Rattle.msg_reassembly.specs.Cuts.{is_whole};

use crate::front::{Front, front_of, room_of};
use id_map::IdMap;
use std::alloc::Global;
use std::marker::Model;
use xs_base::{ByteQueue, NoMemory};
use xs_model::message::MESSAGE_MAX;

/// The bytes that were taken from a connection and are not answered yet. Contracts see them as a list.
#[derive(Debug, Drop)]
pub struct Inbox {
    // Where it is less than a message, there is memory behind it for the whole of the longest.
    taken: ByteQueue,
}

/// Inboxes by the ids of their connections. Contracts see the list of entries in rising order of the ids, and for how
/// many more inboxes there is memory: `reserve` takes it, and `put` takes none.
pub type Ins = IdMap<Inbox>;

impl Model for Inbox {
    ghost use Rattle.std.specs.Prelude.{◌≡◌, ◌+◌, ◌≤◌, ℕ, true, List, length};
    ghost use Rattle.world_model.specs.Fronts.{front, is_part};

    ghost Value = { List ℕ };

    ghost view = { λ inbox. inbox.taken.bytes };

    ghost invariant = { λ inbox. (4112 ≤ inbox.taken.kept)
        × (is_part (front inbox.taken.bytes) ≡ true → 4112 ≤ length inbox.taken.bytes + inbox.taken.spare) };
}

impl Inbox {
    /// An empty inbox. It takes the memory for the longest message, 4112 bytes, and keeps no more. O(that number).
    pub fn new(alloc: Global) -> Result<Inbox, NoMemory>
        ensures { IfOk result (λ inbox. inbox ≡ []) }
    {
        Ok(Inbox {
            taken: ByteQueue::with_capacity(alloc, MESSAGE_MAX)?,
        })
    }

    /// An inbox of these bytes, of which there may be more than a message. It takes the memory for them, and at
    /// least for 4112 bytes, and keeps no more. O(their number).
    pub fn of(alloc: Global, bytes: &[u8]) -> Result<Inbox, NoMemory>
        ensures { IfOk result (λ inbox. inbox ≡ bytes.now) }
    {
        let capacity = bytes.len().max(MESSAGE_MAX);
        let mut taken = ByteQueue::with_capacity(alloc, capacity)?;
        taken.push_reserved(bytes);
        Ok(Inbox { taken })
    }

    /// How many bytes it may take at once: up to the end of the header or of the message in front, and none
    /// where the message is whole or its header has a length above 4096. O(1).
    pub fn room(&self) -> usize
        ensures { result ≡ room self.now }
    {
        room_of(self.taken.bytes())
    }

    /// Appends bytes for which there is room. It takes no memory. O(their number).
    pub fn feed(&mut self, bytes: &[u8])
        requires { length bytes.now ≤ room self.old }
        ensures { self.new ≡ self.old ++ bytes.now }
    {
        self.taken.push_reserved(bytes);
    }

    /// What stands in front. O(1).
    pub fn front(&self) -> Front
        ensures { front_view result ≡ front self.now }
    {
        front_of(self.taken.bytes())
    }

    /// Removes the message in front, and says how long it was. It copies nothing of it; less than a message behind
    /// it is moved to the front of the memory once. O(length of what is moved).
    pub fn skip_front(&mut self) -> usize
        requires { is_whole (front self.old) ≡ true }
        ensures len { front self.old ≡ Whole result }
        ensures after { self.new ≡ drop result self.old }
    {
        let len = whole_len(self.taken.bytes());
        self.taken.skip(len);
        settle(&mut self.taken);
        len
    }

    /// Moves the message in front to the first bytes of `into`, and says how long it is. The rest of `into` is as
    /// before. O(its length); less than a message behind it is moved to the front of the memory once.
    pub fn take_front(&mut self, into: &mut [u8; MESSAGE_MAX]) -> usize
        requires { is_whole (front self.old) ≡ true }
        ensures len { front self.old ≡ Whole result }
        ensures taken { into.new ≡ take result self.old ++ drop result into.old }
        ensures after { self.new ≡ drop result self.old }
    {
        copy_front(self.taken.bytes(), into);
        self.skip_front()
    }

    /// All the bytes, of which the first ones are the message in front. O(1).
    pub fn bytes(&self) -> &[u8]
        ensures { result.now ≡ self.now }
    {
        self.taken.bytes()
    }
}

/// How long the message in front is. O(1).
fn whole_len(bytes: &[u8]) -> usize
    requires { is_whole (front bytes.now) ≡ true }
    ensures len { front bytes.now ≡ Whole result }
    ensures within { result ≤ length bytes.now }
{
    let Front::Whole { len } = front_of(bytes) else {
        unreachable!()
    };
    len
}

/// Copies the message in front to the first bytes of `into`. O(its length).
fn copy_front(bytes: &[u8], into: &mut [u8; MESSAGE_MAX])
    requires { is_whole (front bytes.now) ≡ true }
    ensures { (n : ℕ) → front bytes.now ≡ Whole n → into.new ≡ take n bytes.now ++ drop n into.old }
{
    let len = whole_len(bytes);
    into[..len].copy_from_slice(&bytes[..len]);
}

/// Where the bytes are less than a message, all memory that is not theirs is behind them then. O(length of a message).
fn settle(taken: &mut ByteQueue)
    ensures bytes { taken.new.bytes ≡ taken.old.bytes }
    ensures kept { taken.new.kept ≡ taken.old.kept }
    ensures spare { is_part (front taken.old.bytes) ≡ true → length taken.new.bytes + taken.new.spare ≡ taken.old.kept }
{
    if let Front::Part = front_of(taken.bytes()) {
        taken.move_to_front();
    }
}
