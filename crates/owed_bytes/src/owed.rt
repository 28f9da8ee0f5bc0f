//! What is owed, by connection.

ghost use Rattle.std.specs.Prelude.{◌≡◌, ◌==◌, ◌++◌, ◌∷◌, [], ℕ, true, length, if◌then◌else◌, IfOk, IfSome, OnOk, OnErr};
ghost use Rattle.xs_model.specs.Wholes.{whole_behind};
ghost use Rattle.machine_model.specs.History.{unsent_to};
ghost use Rattle.id_map.specs.Ids.{IsNext, above, first_id};

use id_map::IdMap;
use std::alloc::Global;
use std::marker::Model;
use xs_base::{Bytes, NoMemory};

/// The bytes of whole messages by the connections that are owed them. Nobody is owed anything at first.
#[derive(Drop)]
pub struct Owed {
    messages: IdMap<Bytes>,
}

impl Model for Owed {
    ghost use Rattle.std.specs.Prelude.{◌≡◌, ℕ, List, true};
    ghost use Rattle.std.specs.List.{AllByRecursion};
    ghost use Rattle.xs_model.specs.Wholes.{whole_behind};

    ghost Value = { List (ℕ × List ℕ) };

    ghost view = { λ owed. owed.messages.entries };

    ghost invariant = { λ owed. AllByRecursion (λ e. whole_behind 0 e.1 ≡ true) owed.messages.entries };
}

impl Owed {
    /// Nobody is owed anything. It takes no memory.
    pub fn new(alloc: Global) -> Owed
        ensures { result ≡ [] }
    {
        Owed {
            messages: IdMap::new(alloc),
        }
    }

    /// Whether nobody is owed anything. O(1).
    pub fn is_empty(&self) -> bool
        ensures { result ≡ (length self.now == 0) }
    {
        self.messages.is_empty()
    }

    /// The bytes for a connection. O(log connections that are owed something).
    pub fn bytes(&self, conn: u32) -> &[u8]
        ensures bytes { result.now ≡ unsent_to conn self.now }
        ensures whole { whole_behind 0 result.now ≡ true }
    {
        match self.messages.get(conn) {
            Some(bytes) => bytes.as_slice(),
            None => b"",
        }
    }

    /// The least connection above an id that is owed something.
    pub fn next_after(&self, id: u32) -> Option<u32>
        ensures next { result ≡ first_id (above id self.now) }
        ensures least { IfSome result (IsNext self.now id) }
    {
        self.messages.next_after(id)
    }

    /// Appends whole messages to those for a connection. Refused, nothing has changed. O(their length + connections that
    /// are owed something).
    pub fn append(&mut self, conn: u32, messages: Bytes) -> Result<(), NoMemory>
        requires whole { whole_behind 0 messages ≡ true }
        ensures ok { OnOk result ((c : ℕ) → unsent_to c self.new ≡ unsent_to c self.old ++ (if c == conn then messages else [])) }
        ensures err { OnErr result (self.new ≡ self.old) }
    {
        match self.messages.get_mut(conn) {
            Some(bytes) => bytes.push(messages.as_slice()),
            None => self.messages.add(conn, messages),
        }
    }
}
