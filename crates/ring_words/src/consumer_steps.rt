//! The consumer's four kinds of step.

ghost use Rattle.std.specs.Prelude.{◌≡◌, ◌+◌, ◌%◌, ◌<◌, length};
ghost use Rattle.ring_words.specs.Indices.{index_of};
ghost use Rattle.ring_words.specs.Seats.{IsSeatOf, Becomes};
ghost use Rattle.ring_words.specs.Steps.{after_load_prod, after_load_byte, after_store_cons, after_load_note};
ghost use Rattle.ring_words.specs.declared.view.Role.TheVariants.{Consumer};

use crate::plays::{LoadByte, LoadNote, LoadProd, StoreCons};
use crate::rule::{RingTable, Seat};

/// The consumer loads PROD, and sees how many bytes were sent.
pub fn load_prod(table: &RingTable, seat: &mut Seat) -> u32
    requires { IsSeatOf Consumer table.now.shared.table_id seat.old }
    ensures { Becomes seat.old seat.new (after_load_prod result seat.old.me.0) }
{
    table.shared.load::<LoadProd>(seat, 1024) as u32
}

/// The consumer loads the next byte, which it saw to be sent.
pub fn load_byte(table: &RingTable, seat: &mut Seat, place: usize) -> u8
    requires seat { IsSeatOf Consumer table.now.shared.table_id seat.old }
    requires place { let view = seat.old.me.0 in place ≡ (view.start + length view.read) % 1024 }
    requires there { let view = seat.old.me.0 in length view.read < view.seen }
    ensures { Becomes seat.old seat.new (after_load_byte result seat.old.me.0) }
{
    table.shared.load::<LoadByte>(seat, place) as u8
}

/// The consumer stores CONS, and so frees what it read.
pub fn store_cons(table: &RingTable, seat: &mut Seat, cons: u32)
    requires seat { IsSeatOf Consumer table.now.shared.table_id seat.old }
    requires index { let view = seat.old.me.0 in cons ≡ index_of view.start (length view.read) }
    ensures { Becomes seat.old seat.new (after_store_cons seat.old.me.0) }
{
    table.shared.store::<StoreCons>(seat, 1025, u64::from(cons));
}

/// The consumer loads NOTE.
pub fn hear(table: &RingTable, seat: &mut Seat) -> u64
    requires { IsSeatOf Consumer table.now.shared.table_id seat.old }
    ensures { Becomes seat.old seat.new (after_load_note result seat.old.me.0) }
{
    table.shared.load::<LoadNote>(seat, 1026)
}
