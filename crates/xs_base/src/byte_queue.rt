//! A queue of bytes.

ghost use Rattle.std.specs.Prelude.{◌≡◌, ◌+◌, ◌-◌, ◌*◌, ◌<◌, ◌≤◌, ◌++◌, [], length, take, drop, min, max, IfOk, OnOk, OnErr, vec_len, vec_capacity, ◌≢◌};
ghost use Rattle.xs_base.specs.ByteQueue.{QueueState, gone};

use crate::NoMemory;
use std::alloc::Global;
use std::marker::Model;

/// A list of bytes that grows at its end and is taken from at its front.
///
/// Contracts see a `QueueState`: the bytes, for how many more there is memory behind them, and for how many there
/// is memory in all. It lies in one piece of memory, and the bytes are moved in there only by
/// [`ByteQueue::reserve`], [`ByteQueue::push`] and [`ByteQueue::move_to_front`].
#[derive(Debug, Drop)]
pub struct ByteQueue {
    // All the memory, of which the bytes are those from `start` up to `end`.
    memory: Vec<u8>,
    start: usize,
    end: usize,
}

impl Model for ByteQueue {
    ghost use Rattle.std.specs.Prelude.{◌≡◌, ◌-◌, ◌≤◌, take, drop, vec_len, vec_capacity};
    ghost use Rattle.xs_base.specs.ByteQueue.{QueueState};

    ghost Value = { QueueState };

    ghost view = { λ queue. record {
      bytes = take (queue.end - queue.start) (drop queue.start queue.memory.items);
      spare = vec_len queue.memory - queue.end;
      kept = vec_capacity queue.memory;
    } };

    ghost invariant = { λ queue. (queue.start ≤ queue.end)
        × (queue.end ≤ vec_len queue.memory)
        × (vec_capacity queue.memory ≡ vec_len queue.memory) };
}

impl ByteQueue {
    /// No bytes. It takes no memory.
    pub fn new(alloc: Global) -> ByteQueue
        ensures { result ≡ record { bytes = []; spare = 0; kept = 0 } }
    {
        ByteQueue {
            memory: Vec::new(alloc),
            start: 0,
            end: 0,
        }
    }

    /// No bytes, with memory for so many. O(their number).
    pub fn with_capacity(alloc: Global, capacity: usize) -> Result<ByteQueue, NoMemory>
        ensures { IfOk result (λ queue. queue ≡ record { bytes = []; spare = capacity; kept = capacity }) }
    {
        Ok(ByteQueue {
            memory: zeros(alloc, capacity)?,
            start: 0,
            end: 0,
        })
    }

    /// All the bytes. O(1).
    pub fn bytes(&self) -> &[u8]
        ensures { result.now ≡ self.now.bytes }
    {
        &self.memory[self.start..self.end]
    }

    /// How many bytes there are. O(1).
    pub fn len(&self) -> usize
        ensures { result ≡ length self.now.bytes }
    {
        self.end - self.start
    }

    /// Takes memory for so many bytes more, so that pushes of so many take none. Where there is memory, nothing is
    /// done. The bytes are moved only where at least as many left since the last move, or where the memory becomes
    /// twice the bytes and what is asked for: O(`more`) on average. Refused, it is as before, and it was to get more
    /// memory.
    pub fn reserve(&mut self, more: usize) -> Result<(), NoMemory>
        ensures ok { OnOk result (more ≤ self.new.spare) }
        ensures bytes { self.new.bytes ≡ self.old.bytes }
        ensures spare { self.old.spare ≤ self.new.spare }
        ensures kept { self.new.kept ≤ max self.old.kept (2 * length self.old.bytes + more) }
        ensures still { more ≤ self.old.spare → self.new ≡ self.old }
        ensures moved { self.old.spare < more → gone self.old < length self.old.bytes → OnOk result (self.new.kept ≡ 2 * length self.old.bytes + more) }
        ensures err { OnErr result (self.new ≡ self.old) }
        ensures refused { OnErr result (self.old.kept < 2 * length self.old.bytes + more) }
    {
        if more <= self.memory.len() - self.end {
            return Ok(());
        }
        if self.len() <= self.start && more <= self.memory.len() - self.len() {
            self.move_to_front();
            return Ok(());
        }
        *self = self.grown(more)?;
        Ok(())
    }

    /// Appends the bytes. Refused, it is as before. O(their number) on average.
    pub fn push(&mut self, more: &[u8]) -> Result<(), NoMemory>
        ensures ok { OnOk result (self.new.bytes ≡ self.old.bytes ++ more.now) }
        ensures kept { self.new.kept ≤ max self.old.kept (2 * length self.old.bytes + length more.now) }
        ensures err { OnErr result (self.new ≡ self.old) }
        ensures refused { OnErr result (self.old.kept < 2 * length self.old.bytes + length more.now) }
    {
        self.reserve(more.len())?;
        self.push_reserved(more);
        Ok(())
    }

    /// Appends bytes for which there is memory. It takes none, and moves nothing. O(their number).
    pub fn push_reserved(&mut self, more: &[u8])
        requires { length more.now ≤ self.old.spare }
        ensures bytes { self.new.bytes ≡ self.old.bytes ++ more.now }
        ensures spare { self.new.spare + length more.now ≡ self.old.spare }
        ensures kept { self.new.kept ≡ self.old.kept }
    {
        write_at(&mut self.memory, self.end, more);
        self.end += more.len();
    }

    /// Moves the first bytes into `into`, as many as there are and as it has room for, and says how many. The rest
    /// of `into` is as before. What stays is not moved. O(bytes moved).
    pub fn pull(&mut self, into: &mut [u8]) -> usize
        ensures count { result ≡ min (length into.old) (length self.old.bytes) }
        ensures taken { into.new ≡ take result self.old.bytes ++ drop result into.old }
        ensures bytes { self.new.bytes ≡ drop result self.old.bytes }
        ensures spare { self.old.spare ≤ self.new.spare }
        ensures still { self.new.bytes ≢ [] → self.new.spare ≡ self.old.spare }
        ensures kept { self.new.kept ≡ self.old.kept }
    {
        let bytes = self.bytes();
        let count = into.len().min(bytes.len());
        into[..count].copy_from_slice(&bytes[..count]);
        self.skip(count);
        count
    }

    /// Removes the first so many bytes. What stays is not moved. O(1).
    pub fn skip(&mut self, count: usize)
        requires { count ≤ length self.old.bytes }
        ensures bytes { self.new.bytes ≡ drop count self.old.bytes }
        ensures spare { self.old.spare ≤ self.new.spare }
        ensures still { count < length self.old.bytes → self.new.spare ≡ self.old.spare }
        ensures emptied { count ≡ length self.old.bytes → self.new.spare ≡ self.old.kept }
        ensures kept { self.new.kept ≡ self.old.kept }
    {
        self.start += count;
        if self.start == self.end {
            self.start = 0;
            self.end = 0;
        }
    }

    /// Moves the bytes to the front of the memory, so that all that is not theirs is behind them. It takes no
    /// memory. O(their number).
    pub fn move_to_front(&mut self)
        ensures bytes { self.new.bytes ≡ self.old.bytes }
        ensures spare { self.new.spare + length self.old.bytes ≡ self.old.kept }
        ensures kept { self.new.kept ≡ self.old.kept }
    {
        let len = self.len();
        self.memory.copy_within(self.start..self.end, 0);
        self.start = 0;
        self.end = len;
    }

    /// The same bytes in memory for twice as many and so many more. O(memory).
    fn grown(&self, more: usize) -> Result<ByteQueue, NoMemory>
        ensures bytes { IfOk result (λ queue. queue.bytes ≡ self.now.bytes) }
        ensures spare { IfOk result (λ queue. queue.spare ≡ length self.now.bytes + more) }
        ensures kept { IfOk result (λ queue. queue.kept ≡ 2 * length self.now.bytes + more) }
    {
        let capacity = self.twice_and(more)?;
        let mut queue = ByteQueue::with_capacity(*self.memory.allocator(), capacity)?;
        queue.push_reserved(self.bytes());
        Ok(queue)
    }

    /// Twice the bytes and so many more; no memory has so many where that is no number.
    fn twice_and(&self, more: usize) -> Result<usize, NoMemory>
        ensures { IfOk result (λ n. n ≡ 2 * length self.now.bytes + more) }
    {
        let twice = self.len().checked_mul(2).ok_or(NoMemory)?;
        twice.checked_add(more).ok_or(NoMemory)
    }
}

/// Memory for so many bytes, each of them 0, and for no more. O(their number).
fn zeros(alloc: Global, count: usize) -> Result<Vec<u8>, NoMemory>
    ensures len { IfOk result (λ memory. vec_len memory ≡ count) }
    ensures capacity { IfOk result (λ memory. vec_capacity memory ≡ count) }
{
    let mut memory = Vec::with_capacity(alloc, count)?;
    for _ in 0..count {
        memory.push_reserved(0);
    }
    Ok(memory)
}

/// Writes bytes over those from a place on. O(their number).
fn write_at(memory: &mut Vec<u8>, at: usize, bytes: &[u8])
    requires { at + length bytes.now ≤ vec_len memory.old }
    ensures items { memory.new.items ≡ take at memory.old.items ++ (bytes.now ++ drop (at + length bytes.now) memory.old.items) }
    ensures len { vec_len memory.new ≡ vec_len memory.old }
    ensures capacity { vec_capacity memory.new ≡ vec_capacity memory.old }
{
    memory[at..at + bytes.len()].copy_from_slice(bytes);
}
