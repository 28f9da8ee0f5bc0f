//! The producer's four kinds of step.

ghost use Rattle.std.specs.Prelude.{◌≡◌, ◌+◌, ◌%◌, ◌<◌, length};
ghost use Rattle.ring_words.specs.Indices.{index_of};
ghost use Rattle.ring_words.specs.Seats.{IsSeatOf, Becomes};
ghost use Rattle.ring_words.specs.Steps.{after_load_cons, after_store_byte, after_store_prod, after_store_note};
ghost use Rattle.ring_words.specs.declared.view.Role.TheVariants.{Producer};

use crate::plays::{LoadCons, StoreByte, StoreNote, StoreProd};
use crate::rule::{RingTable, Seat};

/// The producer loads CONS, and sees how many bytes were freed.
pub fn load_cons(table: &RingTable, seat: &mut Seat) -> u32
    requires { IsSeatOf Producer table.now.shared.table_id seat.old }
    ensures { Becomes seat.old seat.new (after_load_cons result seat.old.me.0) }
{
    table.shared.load::<LoadCons>(seat, 1025) as u32
}

/// The producer stores a byte where the next one goes, which it saw to be free.
pub fn stage_byte(table: &RingTable, seat: &mut Seat, place: usize, byte: u8)
    requires seat { IsSeatOf Producer table.now.shared.table_id seat.old }
    requires place { let view = seat.old.me.0 in place ≡ (view.start + (length view.sent + length view.staged)) % 1024 }
    requires room { let view = seat.old.me.0 in length view.sent + length view.staged < view.seen + 1024 }
    ensures { Becomes seat.old seat.new (after_store_byte byte seat.old.me.0) }
{
    table
        .shared
        .store::<StoreByte>(seat, place, u64::from(byte));
}

/// The producer stores PROD, and so gives over what it staged.
pub fn store_prod(table: &RingTable, seat: &mut Seat, prod: u32)
    requires seat { IsSeatOf Producer table.now.shared.table_id seat.old }
    requires index { let view = seat.old.me.0 in prod ≡ index_of view.start (length view.sent + length view.staged) }
    ensures { Becomes seat.old seat.new (after_store_prod seat.old.me.0) }
{
    table.shared.store::<StoreProd>(seat, 1024, u64::from(prod));
}

/// The producer stores NOTE.
pub fn note(table: &RingTable, seat: &mut Seat, value: u64)
    requires { IsSeatOf Producer table.now.shared.table_id seat.old }
    ensures { Becomes seat.old seat.new (after_store_note value seat.old.me.0) }
{
    table.shared.store::<StoreNote>(seat, 1026, value);
}
