//! The queue.

ghost use Rattle.std.specs.Prelude.{◌≡◌, ◌≢◌, ◌+◌, ◌*◌, ◌<◌, ◌≤◌, ◌++◌, ◌↔◌, [], length, take, drop, min, max, IfOk, OnOk, OnErr, IsErrOf, true, false};
ghost use Rattle.xs_base.specs.ByteQueue.{gone};
ghost use Rattle.xs_model.specs.Wholes.{whole_behind, rest_after};
ghost use Rattle.out_queues.specs.Queues.{Queue, held, is_queue};

use crate::{NoMemory, messages};
use std::alloc::{AllocError, Global};
use std::marker::Model;
use thiserror::Error;
use xs_base::ByteQueue;

/// Why no queue is made of bytes.
#[derive(Clone, Copy, Debug, PartialEq, Eq, Error)]
pub enum OutErr {
    /// The rest is longer than the bytes, or what follows it is not whole messages, or there are more than
    /// 16777216 bytes.
    #[error("the bytes are not the rest of a message and whole messages behind it")]
    BadOut,
    /// No memory was found for the bytes.
    #[error("out of memory")]
    NoMemory,
}

impl From<AllocError> for OutErr {
    ghost use Rattle.std.specs.Prelude.{◌≡◌};
    ghost use Rattle.out_queues.specs.declared.queue.OutErr.TheVariants.{NoMemory};

    ghost from_gives = { λ _ e. e ≡ NoMemory };

    fn from(_error: AllocError) -> OutErr {
        OutErr::NoMemory
    }
}

/// The most bytes that a stream may bring.
const UNSENT_LIMIT: usize = 16777216;

/// The bytes that a connection has still to send.
///
/// Contracts see a `Queue`: the bytes, how many of them are the rest of a message that was sent in part, for how
/// many more there is memory, and for how many there is memory in all.
#[derive(Debug, Drop)]
pub struct OutQueue {
    unsent: ByteQueue,
    rest: usize,
}

impl Model for OutQueue {
    ghost use Rattle.std.specs.Prelude.{◌≡◌, true};
    ghost use Rattle.xs_model.specs.Wholes.{whole_behind};
    ghost use Rattle.out_queues.specs.Queues.{Queue};

    ghost Value = { Queue };

    ghost view = { λ queue. record {
      bytes = queue.unsent.bytes;
      rest = queue.rest;
      spare = queue.unsent.spare;
      kept = queue.unsent.kept;
    } };

    ghost invariant = { λ queue. whole_behind queue.rest queue.unsent.bytes ≡ true };
}

impl OutQueue {
    /// Nothing to send. It takes no memory.
    pub fn new(alloc: Global) -> OutQueue
        ensures bytes { result.bytes ≡ [] }
        ensures rest { result.rest ≡ 0 }
        ensures kept { result.kept ≡ 0 }
    {
        OutQueue {
            unsent: ByteQueue::new(alloc),
            rest: 0,
        }
    }

    /// A queue of these bytes, of which the first `rest` end a message that was sent in part. It takes memory for
    /// them and no more. O(their number).
    pub fn of(alloc: Global, rest: usize, bytes: &[u8]) -> Result<OutQueue, OutErr>
        ensures ok { IfOk result (λ queue. (queue.bytes ≡ bytes.now) × (queue.rest ≡ rest)) }
        ensures kept { IfOk result (λ queue. queue.kept ≡ length bytes.now) }
        ensures bad { IsErrOf result OutErr.BadOut ↔ (is_queue rest bytes.now ≡ false) }
    {
        if bytes.len() > UNSENT_LIMIT || !messages::whole_behind(rest, bytes) {
            return Err(OutErr::BadOut);
        }
        let mut unsent = ByteQueue::with_capacity(alloc, bytes.len())?;
        unsent.push_reserved(bytes);
        Ok(OutQueue { unsent, rest })
    }

    /// Takes memory for so many bytes more than are unsent, so that pushes of so many bytes take none. Where there
    /// is memory, nothing is done. What is unsent is moved only where at least as much was sent since the last
    /// move, or where the memory becomes twice what is unsent and what is asked for: O(`bytes`) on average.
    /// Refused, it is as before, and it was to get more memory.
    pub fn reserve(&mut self, bytes: usize) -> Result<(), NoMemory>
        ensures ok { OnOk result (bytes ≤ self.new.spare) }
        ensures spare { self.old.spare ≤ self.new.spare }
        ensures same { (self.new.bytes ≡ self.old.bytes) × (self.new.rest ≡ self.old.rest) }
        ensures kept { self.new.kept ≤ max self.old.kept (2 * length self.old.bytes + bytes) }
        ensures still { bytes ≤ self.old.spare → self.new ≡ self.old }
        ensures moved { self.old.spare < bytes → gone (held self.old) < length self.old.bytes → OnOk result (self.new.kept ≡ 2 * length self.old.bytes + bytes) }
        ensures err { OnErr result (self.new ≡ self.old) }
        ensures refused { OnErr result (self.old.kept < 2 * length self.old.bytes + bytes) }
    {
        self.unsent.reserve(bytes)
    }

    /// Appends a whole message, or several, for which there is memory. It takes none, and moves nothing. O(its
    /// length).
    pub fn push(&mut self, message: &[u8])
        requires whole { whole_behind 0 message.now ≡ true }
        requires room { length message.now ≤ self.old.spare }
        ensures bytes { self.new.bytes ≡ self.old.bytes ++ message.now }
        ensures rest { self.new.rest ≡ self.old.rest }
        ensures spare { self.new.spare + length message.now ≡ self.old.spare }
        ensures kept { self.new.kept ≡ self.old.kept }
    {
        self.unsent.push_reserved(message);
    }

    /// Moves the first unsent bytes into `into`, as many as there are and as it has room for, and says how many.
    /// The rest of `into` is as before. What stays unsent is not moved. O(bytes moved).
    pub fn pull(&mut self, into: &mut [u8]) -> usize
        ensures count { result ≡ min (length into.old) (length self.old.bytes) }
        ensures taken { into.new ≡ take result self.old.bytes ++ drop result into.old }
        ensures bytes { self.new.bytes ≡ drop result self.old.bytes }
        ensures rest { self.new.rest ≡ rest_after self.old.rest result self.old.bytes }
        ensures spare { self.old.spare ≤ self.new.spare }
        ensures still { self.new.bytes ≢ [] → self.new.spare ≡ self.old.spare }
        ensures kept { self.new.kept ≡ self.old.kept }
    {
        let count = into.len().min(self.unsent.len());
        self.rest = messages::rest_after(self.rest, count, self.unsent.bytes());
        self.unsent.pull(into)
    }

    /// How many bytes are unsent. O(1).
    pub fn unsent(&self) -> usize
        ensures { result ≡ length self.now.bytes }
    {
        self.unsent.len()
    }

    /// How many bytes are left of a message in front that was sent in part, 0 for none. O(1).
    pub fn rest(&self) -> usize
        ensures { result ≡ self.now.rest }
    {
        self.rest
    }

    /// The unsent bytes. Behind the rest they are whole messages. O(1).
    pub fn bytes(&self) -> &[u8]
        ensures value { result.now ≡ self.now.bytes }
        ensures whole { whole_behind self.now.rest self.now.bytes ≡ true }
    {
        self.unsent.bytes()
    }
}
