//! The rule as the table takes it.

use crate::view::View;
use atomic_table::{Table, TableRule};
use std::alloc::Global;

/// The rule of a ring of words.
pub struct RingRule;

impl TableRule<(), View, u32> for RingRule {
    ghost use Rattle.ring_words.specs.Rule.{IsRing};
    ghost use Rattle.ring_words.specs.Views.{fresh};

    ghost holds = { λ _ table. IsRing table.words table.views };

    ghost first = { λ start. fresh start };
}

/// The words of a ring. It has no slots, and its key is the index of the first byte.
pub type RingTable = Table<(), View, u32, RingRule, Global>;

/// A place at a ring. It has no bytes.
pub type Seat = atomic_table::Seat<(), View>;
