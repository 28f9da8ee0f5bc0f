//! The steps of a call, each on a seat of the table.

ghost use Rattle.std.specs.Prelude.{◌≡◌, ℕ, ◌+◌, ◌%◌, ◌^◌, [], ◌∷◌, length, ⊤};
ghost use Rattle.store_turn.specs.declared.views.Stage.TheVariants.{Idle};
ghost use Rattle.store_turn.specs.Rule.{Drawn, WaitsWith, Has, Taken, MayGive, left_with};
ghost use Rattle.store_turn.specs.Turns.{Served};

use crate::desk::Desk;
use crate::object::{NoMemory, Object};
use crate::views::{Draw, Give, Look, Terms, Tickets, View};
use atomic_table::{Seat, Shared};
use std::sync::Wait;
use std::{hint, thread};

/// The word with the next ticket.
pub const TICKET: usize = 0;

/// The word with the ticket that is served.
pub const SERVING: usize = 1;

pub type Board<O> = Shared<Desk<O>, View<O>, Terms<O>, Tickets<O>>;

pub type Place<O> = Seat<Desk<O>, View<O>>;

/// Draws the next ticket.
pub fn draw<O: Object>(board: &Board<O>, seat: &mut Place<O>) -> u64
    requires own { (seat.old.table_id ≡ board.now.table_id) × (board.now.table_id.words ≡ 2) }
    requires idle { (seat.old.me.0.stage ≡ Idle) × (length seat.old.me.0.known ≡ 1) }
    ensures own { (seat.new.table_id ≡ seat.old.table_id) × (seat.new.id ≡ seat.old.id) }
    ensures drawn { Drawn seat.old.me result seat.new.me }
{
    board.fetch_add::<Draw>(seat, TICKET, 1)
}

/// Waits until the ticket is served, and takes the slot. After 64 looks it lets other threads run between two looks, since
/// there may be more threads than processors.
pub fn wait<O: Object, R: Wait>(rt: &R, board: &Board<O>, seat: &mut Place<O>, ticket: u64)
    requires own { (seat.old.table_id ≡ board.now.table_id) × (board.now.table_id.words ≡ 2) }
    requires waits { WaitsWith ticket seat.old.me }
    ensures own { (seat.new.table_id ≡ seat.old.table_id) × (seat.new.id ≡ seat.old.id) }
    ensures taken { Taken (λ desk. desk.entries.items) (λ desk. desk.start.value) ticket seat.old.me seat.new.me }
{
    let mut looks = 0;
    for _ in rt.forever() {
        if board.load::<Look>(seat, SERVING) == ticket {
            return;
        }
        if looks < 64 {
            looks += 1;
            hint::spin_loop();
        } else {
            thread::yield_now();
        }
    }
    unreachable!()
}

/// Does the call on what lies in the slot.
pub fn work<O: Object>(
    board: &Board<O>,
    seat: &mut Place<O>,
    number: u32,
    op: O::Op,
) -> Result<O::Answer, NoMemory>
    requires own { seat.old.table_id ≡ board.now.table_id }
    requires has { Has seat.old.me (λ _. ⊤) }
    requires fits { O.fits op }
    ensures own { (seat.new.table_id ≡ seat.old.table_id) × (seat.new.id ≡ seat.old.id) }
    ensures view { seat.new.me.0 ≡ seat.old.me.0 }
    ensures served { Has seat.old.me (λ old. Has seat.new.me (λ new. Served O.next O.answer O.is_quiet number op result old.start.value old.entries.items new.start.value new.entries.items new.last)) }
{
    let desk = seat.slot_mut(board, 0);
    desk.serve(number, op)
}

/// Gives the slot back, and serves the next ticket.
pub fn give<O: Object>(board: &Board<O>, seat: &mut Place<O>, ticket: u64)
    requires own { (seat.old.table_id ≡ board.now.table_id) × (board.now.table_id.words ≡ 2) }
    requires may { MayGive (λ desk. desk.entries.items) (λ desk. desk.start.value) ticket seat.old.me }
    ensures own { (seat.new.table_id ≡ seat.old.table_id) × (seat.new.id ≡ seat.old.id) }
    ensures left { Has seat.old.me (λ desk. seat.new.me ≡ (left_with desk.last desk.entries.items seat.old.me.0, [])) }
{
    board.store::<Give>(seat, SERVING, ticket.wrapping_add(1))
}
