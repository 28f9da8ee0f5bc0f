//! The callers of a turn.

ghost use Rattle.std.specs.Prelude.{◌≡◌, ◌<◌, ℕ, ◌≤◌, length, IfSome, IfNone, IsSome, None, Some, slice_get, slice_set, slice_index_or, true, ◌↔◌};
ghost use Rattle.store_turn.specs.Sides.{TurnId, Party, Crowd};
ghost use Rattle.store_turn.specs.Turns.{AllThere, Filled};
ghost use Rattle.store_turn.specs.Seats.{IsFirst, NoneBefore, NoneThere};

use crate::object::Object;
use crate::views::View;
use atomic_table::Badge;
use std::marker::Model;
use std::mem;

/// One of those who call. It may go to another thread, and so may a struct that holds it.
///
/// Contracts see a `Party`.
#[derive(Drop)]
pub struct Caller<O: Object> {
    pub(crate) number: u32,
    pub(crate) badge: Badge<View<O>>,
}

impl<O: Object> Model for Caller<O> {
    ghost use Rattle.store_turn.specs.Sides.{Party};
    ghost use Rattle.store_turn.specs.Seats.{party_of, IsCaller};

    ghost Value = { Party O O.Op O.Answer };

    ghost view = { λ caller. party_of caller.badge.table_id caller.number caller.badge.views };

    ghost invariant = { λ caller. IsCaller caller.number caller.badge.views };
}

/// The callers of a turn that are with no thread.
///
/// Contracts see a `Crowd`.
#[derive(Drop)]
pub struct Callers<O: Object> {
    pub(crate) root: Badge<View<O>>,
    pub(crate) there: Vec<Option<Caller<O>>>,
}

impl<O: Object> Model for Callers<O> {
    ghost use Rattle.store_turn.specs.Sides.{Crowd};
    ghost use Rattle.store_turn.specs.Seats.{view_of, turn_id, IsCrowd};

    ghost Value = { Crowd O O.Op O.Answer };

    ghost view = { λ callers. record { turn = turn_id callers.root.table_id (view_of callers.root.views); there = callers.there.items } };

    ghost invariant = { λ callers. IsCrowd callers.root.table_id callers.root.views callers.there.items };
}

/// The lowest number of those that are there, or how many places there are.
fn lowest<O: Object>(there: &[Option<Caller<O>>]) -> usize
    ensures before { NoneBefore there.now result }
    ensures at { result < length there.now → IsSome (slice_index_or there.now result None) }
    ensures within { result ≤ length there.now }
{
    let mut place = 0;
    while place < there.len() && there[place].is_none() {
        place += 1;
    }
    place
}

/// Whether a caller is there in all places.
fn filled<O: Object>(there: &[Option<Caller<O>>]) -> bool
    ensures yes { result ≡ true → Filled there.now }
    ensures no { Filled there.now → result ≡ true }
{
    let mut place = 0;
    while place < there.len() {
        if there[place].is_none() {
            return false;
        }
        place += 1;
    }
    true
}

impl<O: Object> Callers<O> {
    /// Whether all callers of the turn are there. O(number of callers).
    pub fn all_there(&self) -> bool
        ensures { (result ≡ true) ↔ AllThere self.now }
    {
        filled(&self.there)
    }

    /// Takes the caller with the lowest number of those that are there, if any is there. O(number of callers).
    pub fn take(&mut self) -> Option<Caller<O>>
        ensures turn { self.new.turn ≡ self.old.turn }
        ensures some { IfSome result (λ caller. IsFirst self.old.there caller.number caller × (self.new.there ≡ slice_set self.old.there caller.number None)) }
        ensures own { IfSome result (λ caller. caller.turn ≡ self.old.turn) }
        ensures none { IfNone result (NoneThere self.old.there × (self.new.there ≡ self.old.there)) }
    {
        let place = lowest(&self.there);
        if place == self.there.len() {
            return None;
        }
        mem::replace(&mut self.there[place], None)
    }

    /// Takes a caller back. It takes no memory. O(1).
    pub fn give(&mut self, caller: Caller<O>)
        requires own { caller.turn ≡ self.old.turn }
        ensures turn { self.new.turn ≡ self.old.turn }
        ensures there { self.new.there ≡ slice_set self.old.there caller.number (Some caller) }
    {
        let place = caller.number as usize;
        self.there[place] = Some(caller);
    }
}
