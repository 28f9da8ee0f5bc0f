//! The turn.

ghost use Rattle.std.specs.Prelude.{◌≡◌, ℕ, ◌≤◌, true, [], Some, IfOk, OnErr, length};
ghost use Rattle.store_turn.specs.Calls.{after, calls_by, is_loud};
ghost use Rattle.store_turn.specs.Rule.{Each, Fits};
ghost use Rattle.store_turn.specs.declared.views.Stage.TheVariants.{Idle};
ghost use Rattle.store_turn.specs.Sides.{newcomers};
ghost use Rattle.store_turn.specs.Seats.{IsIdle, party_at};
ghost use Rattle.store_turn.specs.Turns.{IsAnswered, Refused, IsSame, AllThere, IsWhole};

use crate::callers::{Caller, Callers};
use crate::deals::{deal_all, gather_all};
use crate::desk::Desk;
use crate::history::History;
use crate::object::{NoMemory, Object};
use crate::steps::{Board, Place, draw, give, wait, work};
use crate::views::{Terms, Tickets, View};
use atomic_table::{Badge, Table};
use std::alloc::Global;
use std::marker::Model;
use std::mem;
use std::snapshot::Snapshot;
use std::sync::Wait;

/// An object that several threads call, one at a time.
///
/// Contracts see a `Side`.
#[derive(Drop)]
pub struct Turn<O: Object> {
    pub(crate) table: Table<Desk<O>, View<O>, Terms<O>, Tickets<O>, Global>,
}

impl<O: Object> Model for Turn<O> {
    ghost use Rattle.std.specs.Prelude.{◌≡◌, Some};
    ghost use Rattle.store_turn.specs.Sides.{Side};

    ghost Value = { Side O };

    ghost view = { λ turn. record {
      id = record { table = turn.table.shared.table_id; callers = turn.table.shared.key.callers; start = Some turn.table.shared.key.start.value };
      start = turn.table.shared.key.start.value;
    } };

    ghost invariant = { λ turn. (turn.table.shared.table_id.words ≡ 2) × (turn.table.shared.table_id.slots ≡ 1) };
}

/// Opens a table whose callers are all known in one seat.
fn open<O: Object>(
    table: Table<Desk<O>, View<O>, Terms<O>, Tickets<O>, Global>,
    root: Place<O>,
) -> Desk<O>
    requires own { (root.table_id ≡ table.shared.table_id) × (table.shared.table_id.slots ≡ 1) }
    requires all { (root.me.0.stage ≡ Idle) × (length root.me.0.known ≡ table.shared.key.callers) }
    ensures start { result.start.value ≡ table.shared.key.start.value }
    ensures known { Each (Fits table.shared.key.callers result.entries.items) root.me.0.known }
    ensures others { (n : ℕ) → table.shared.key.callers ≤ n → calls_by n result.entries.items ≡ [] }
{
    let mut closed = table.close_with(root);
    let desk = closed.take(0);
    closed.free();
    desk
}

/// One call, on a seat that waits for nothing.
fn take_turn<O: Object, R: Wait>(
    rt: &R,
    board: &Board<O>,
    seat: &mut Place<O>,
    number: u32,
    op: O::Op,
) -> Result<O::Answer, NoMemory>
    requires own { (seat.old.table_id ≡ board.now.table_id) × (board.now.table_id.words ≡ 2) }
    requires idle { IsIdle number seat.old.me.0 × (seat.old.me.1 ≡ []) }
    requires start { seat.old.me.0.start ≡ Some board.now.key.start.value }
    requires fits { O.fits op }
    ensures own { (seat.new.table_id ≡ seat.old.table_id) × (seat.new.id ≡ seat.old.id) }
    ensures idle { IsIdle number seat.new.me.0 × (seat.new.me.1 ≡ []) }
    ensures same { (seat.new.me.0.start ≡ seat.old.me.0.start) × (seat.new.me.0.callers ≡ seat.old.me.0.callers) }
    ensures answered { IfOk result (λ given. IsAnswered O.next O.answer O.is_quiet board.now.key.start.value (party_at seat.old.table_id number seat.old.me.0) op given (party_at seat.old.table_id number seat.new.me.0)) }
    ensures refused { OnErr result (Refused (party_at seat.old.table_id number seat.old.me.0) (party_at seat.old.table_id number seat.new.me.0)) }
{
    let ticket = draw(board, seat);
    wait(rt, board, seat, ticket);
    let answer = work(board, seat, number, op);
    give(board, seat, ticket);
    answer
}

impl<O: Object> Turn<O> {
    /// A turn of so many callers, who are numbered from 0. O(number of callers).
    pub fn new(alloc: Global, object: O, callers: u32) -> Result<(Turn<O>, Callers<O>), NoMemory>
        ensures turn { IfOk result (λ made. (made.0.start ≡ object) × (made.0.id.callers ≡ callers)) }
        ensures callers { IfOk result (λ made. (made.1.turn ≡ made.0.id) × (made.1.there ≡ newcomers made.0.id 0 callers)) }
    {
        let terms = Terms {
            callers,
            start: Snapshot::of(&object),
        };
        let mut there = Vec::with_capacity(alloc, callers as usize)?;
        let mut slots = Vec::with_capacity(alloc, 1)?;
        slots.push_reserved(Desk::new(alloc, object));
        let Ok((table, mut root)) = Table::new(alloc, &[0, 0], slots, &terms) else {
            return Err(NoMemory);
        };
        deal_all(&table.shared, &mut root, callers, &mut there);
        let root = root.into_badge();
        Ok((Turn { table }, Callers { root, there }))
    }

    /// Calls the object, once all calls are done that drew a ticket before. It waits for these, and says nothing of how
    /// long. At `NoMemory`, which is a free answer, nothing is recorded, as for a quiet answer.
    pub fn call<R: Wait>(
        &self,
        rt: &R,
        caller: &mut Caller<O>,
        op: O::Op,
    ) -> Result<O::Answer, NoMemory>
        requires own { caller.old.turn ≡ self.now.id }
        requires fits { O.fits op }
        ensures same { IsSame caller.old caller.new }
        ensures answered { IfOk result (λ given. IsAnswered O.next O.answer O.is_quiet self.now.start caller.old op given caller.new) }
        ensures refused { OnErr result (Refused caller.old caller.new) }
    {
        let badge = mem::replace(&mut caller.badge, Badge::blank());
        let mut seat = badge.into_seat();
        let answer = take_turn(rt, &self.table.shared, &mut seat, caller.number, op);
        caller.badge = seat.into_badge();
        answer
    }

    /// Ends the turn, once all its callers are there: the object, and the whole history. O(number of callers).
    pub fn close(self, callers: Callers<O>) -> (O, History<O>)
        requires own { callers.turn ≡ self.id }
        requires there { AllThere callers }
        ensures replayed { result.0 ≡ after O.next self.start result.1 }
        ensures loud { is_loud O.next O.answer O.is_quiet self.start result.1 ≡ true }
        ensures whole { IsWhole callers result.1 }
    {
        let Turn { table } = self;
        let Callers { root, there } = callers;
        let root = gather_all(&table.shared, root.into_seat(), there);
        let Desk {
            object,
            entries,
            ..
        } = open(table, root);
        (object, History { entries })
    }
}
