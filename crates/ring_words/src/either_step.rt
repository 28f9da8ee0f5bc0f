//! The step by which an end breaks the ring.

ghost use Rattle.std.specs.Prelude.{◌≡◌, ◌⊎◌};
ghost use Rattle.ring_words.specs.Seats.{IsSeatOf, Becomes};
ghost use Rattle.ring_words.specs.Steps.{after_poke};
ghost use Rattle.ring_words.specs.declared.view.Role.TheVariants.{Producer, Consumer};

use crate::plays::Poke;
use crate::rule::{RingTable, Seat};

/// Either end stores any number into PROD, where `prod` is true, or else into CONS.
pub fn poke(table: &RingTable, seat: &mut Seat, prod: bool, value: u32)
    requires { IsSeatOf Producer table.now.shared.table_id seat.old ⊎ IsSeatOf Consumer table.now.shared.table_id seat.old }
    ensures { Becomes seat.old seat.new (after_poke seat.old.me.0) }
{
    let word = if prod { 1024 } else { 1025 };
    table.shared.store::<Poke>(seat, word, u64::from(value));
}
