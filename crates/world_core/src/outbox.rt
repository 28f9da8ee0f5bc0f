//! The bytes that a guest has still to put.

ghost use Rattle.std.specs.Prelude.{◌≡◌, ◌+◌, ◌≤◌, ◌++◌, [], length, drop, OnOk, OnErr, vec_len};

use std::alloc::Global;
use std::marker::Model;
use xs_base::NoMemory;

/// The bytes that a guest has still to put. Contracts see them as a list.
#[derive(Drop)]
pub struct Outbox {
    // What was put up to `start`, and what is still to be put from there on.
    items: Vec<u8>,
    start: usize,
}

impl Model for Outbox {
    ghost use Rattle.std.specs.Prelude.{ℕ, ◌≤◌, List, drop, vec_len};

    ghost Value = { List ℕ };

    ghost view = { λ outbox. drop outbox.start outbox.items.items };

    ghost invariant = { λ outbox. outbox.start ≤ vec_len outbox.items };
}

impl Outbox {
    /// No bytes. It takes no memory.
    pub fn new(alloc: Global) -> Outbox
        ensures { result ≡ [] }
    {
        Outbox {
            items: Vec::new(alloc),
            start: 0,
        }
    }

    /// Appends the bytes. Refused, it is as before. O(their number) on average: what is left is moved only where
    /// at least as much was put since the last move.
    pub fn push(&mut self, bytes: &[u8]) -> Result<(), NoMemory>
        ensures ok { OnOk result (self.new ≡ self.old ++ bytes.now) }
        ensures err { OnErr result (self.new ≡ self.old) }
    {
        if self.start >= self.items.len() - self.start {
            drop_front(&mut self.items, self.start);
            self.start = 0;
        }
        self.items.extend_from_slice(bytes)
    }

    /// The bytes. O(1).
    pub fn bytes(&self) -> &[u8]
        ensures { result.now ≡ self.now }
    {
        &self.items[self.start..]
    }

    /// Removes the first so many bytes. O(1).
    pub fn skip(&mut self, count: usize)
        requires { count ≤ length self.old }
        ensures { self.new ≡ drop count self.old }
    {
        self.start += count;
    }
}

/// Moves the items from a place on to the front. O(their number).
fn drop_front(items: &mut Vec<u8>, start: usize)
    requires { start ≤ vec_len items.old }
    ensures items { items.new.items ≡ drop start items.old.items }
{
    let len = items.len();
    items.copy_within(start..len, 0);
    items.truncate(len - start);
}
