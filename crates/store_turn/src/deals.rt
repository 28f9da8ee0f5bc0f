//! How the first seat is dealt to callers, and how it takes them in again.

ghost use Rattle.std.specs.Prelude.{◌≡◌, ℕ, ◌+◌, ◌<◌, ◌≤◌, [], ◌∷◌, ◌++◌, length, Some, vec_len, vec_capacity};
ghost use Rattle.store_turn.specs.declared.views.Stage.TheVariants.{Idle};
ghost use Rattle.store_turn.specs.Rule.{view, fresh, rest_of};
ghost use Rattle.store_turn.specs.Sides.{newcomer, newcomers};
ghost use Rattle.store_turn.specs.Seats.{IsNext, known_of, turn_id, AreKnown};
ghost use Rattle.store_turn.specs.Turns.{AreThere};

use crate::callers::Caller;
use crate::object::Object;
use crate::steps::{Board, Place};
use crate::views::{Deal, Gather};

/// Cuts the next caller off.
fn deal<O: Object>(board: &Board<O>, root: &mut Place<O>, number: u32) -> Caller<O>
    requires own { (root.old.table_id ≡ board.now.table_id) × (board.now.table_id.words ≡ 2) }
    requires idle { (root.old.me.0.stage ≡ Idle) × (root.old.me.1 ≡ []) }
    requires next { IsNext number root.old.me.0.known × (number < root.old.me.0.callers) }
    ensures own { (root.new.table_id ≡ root.old.table_id) × (root.new.me ≡ (rest_of root.old.me.0, [])) }
    ensures caller { result ≡ newcomer (turn_id root.old.table_id root.old.me.0) number }
{
    let seat = board.split_seat::<Deal>(root);
    Caller {
        number,
        badge: seat.into_badge(),
    }
}

/// Cuts all callers off.
pub fn deal_all<O: Object>(
    board: &Board<O>,
    root: &mut Place<O>,
    callers: u32,
    there: &mut Vec<Option<Caller<O>>>,
)
    requires own { (root.old.table_id ≡ board.now.table_id) × (board.now.table_id.words ≡ 2) }
    requires root { (root.old.me.0 ≡ view Idle root.old.me.0.start callers (fresh 0 callers)) × (root.old.me.1 ≡ []) }
    requires room { (there.old.items ≡ []) × (callers ≤ vec_capacity there.old) }
    ensures own { (root.new.table_id ≡ root.old.table_id) × (root.new.me ≡ (view Idle root.old.me.0.start callers [], [])) }
    ensures there { there.new.items ≡ newcomers (turn_id root.old.table_id root.old.me.0) 0 callers }
{
    for number in 0..callers {
        there.push_reserved(Some(deal(board, root, number)));
    }
}

/// Takes a caller in.
fn gather<O: Object>(board: &Board<O>, root: &mut Place<O>, caller: Caller<O>)
    requires own { (root.old.table_id ≡ board.now.table_id) × (board.now.table_id.words ≡ 2) }
    requires idle { (root.old.me.0.stage ≡ Idle) × (root.old.me.1 ≡ []) }
    requires caller { caller.turn.table ≡ board.now.table_id }
    ensures own { root.new.table_id ≡ root.old.table_id }
    ensures idle { (root.new.me.0.stage ≡ Idle) × (root.new.me.1 ≡ []) }
    ensures known { root.new.me.0.known ≡ root.old.me.0.known ++ known_of caller ∷ [] }
{
    let seat = caller.badge.into_seat();
    board.join_seat::<Gather>(root, seat);
}

/// Takes all callers in.
pub fn gather_all<O: Object>(
    board: &Board<O>,
    mut root: Place<O>,
    mut there: Vec<Option<Caller<O>>>,
) -> Place<O>
    requires own { (root.table_id ≡ board.now.table_id) × (board.now.table_id.words ≡ 2) }
    requires idle { (root.me.0.stage ≡ Idle) × (root.me.1 ≡ []) × (root.me.0.known ≡ []) }
    requires there { AreThere board.now.table_id there.items }
    ensures own { result.table_id ≡ root.table_id }
    ensures idle { (result.me.0.stage ≡ Idle) × (result.me.1 ≡ []) }
    ensures count { length result.me.0.known ≡ length there.items }
    ensures known { AreKnown there.items result.me.0.known }
{
    while let Some(place) = there.pop() {
        gather(board, &mut root, place.unwrap());
    }
    root
}
