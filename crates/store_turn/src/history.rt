//! What was called.

ghost use Rattle.std.specs.Prelude.{◌≡◌, ◌≤◌, Some, IfSome, IfNone, length, slice_get};

use crate::object::Object;
use std::marker::Model;

/// A call: whose it was, and what it asked for.
#[derive(Drop)]
pub struct Entry<O: Object> {
    pub caller: u32,
    pub op: O::Op,
}

/// The calls that changed an object, oldest first.
///
/// Contracts see a list of entries.
#[derive(Drop)]
pub struct History<O: Object> {
    pub(crate) entries: Vec<Entry<O>>,
}

impl<O: Object> Model for History<O> {
    ghost use Rattle.std.specs.Prelude.{List};
    ghost use Rattle.store_turn.specs.declared.history.Entry.{Entry};

    ghost Value = { List (Entry O O.Op O.Answer) };

    ghost view = { λ history. history.entries.items };
}

impl<O: Object> History<O> {
    /// How many calls there are. O(1).
    pub fn len(&self) -> usize
        ensures { result ≡ length self.now }
    {
        self.entries.len()
    }

    /// The call at a place, counted from 0. O(1).
    pub fn at(&self, place: usize) -> Option<&Entry<O>>
        ensures some { IfSome result (λ entry. slice_get self.now place ≡ Some entry.now) }
        ensures none { IfNone result (length self.now ≤ place) }
    {
        self.entries.get(place)
    }
}
