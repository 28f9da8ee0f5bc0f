//! The end that takes bytes.

ghost use Rattle.std.specs.Prelude.{◌≡◌, ℕ, ◌+◌, ◌≤◌, ◌++◌, [], true, false, length, take, drop, min, IfOk, IfErr, MatchResult};
ghost use Rattle.ring_words.specs.Indices.{is_bad};
ghost use Rattle.ring_words.specs.Seats.{IsSeatOf, Becomes};
ghost use Rattle.ring_words.specs.Steps.{after_load_prod, after_load_note, after_poke};
ghost use Rattle.ring_words.specs.Views.{take_index, with_role, fresh};
ghost use Rattle.ring_words.specs.declared.view.Role.TheVariants as roles;
ghost use Rattle.ring_ends.specs.Ends.{end_of, filled, after_take};

use ring_words::{
    BadIndex, RING_SIZE, RingTable, Seat, hear, load_byte, load_prod, store_cons, used,
};
use std::marker::Model;

/// What a take did.
#[derive(Clone, Copy, Debug, PartialEq, Eq)]
pub struct Take {
    /// How many bytes it took.
    pub n: usize,
    /// The value that it loaded from PROD.
    pub seen_prod: u32,
}

/// The end that takes bytes. Contracts see an `End`: its table and its view.
#[derive(Drop)]
pub struct Consumer {
    seat: Seat,
    // Where the next byte is taken.
    own: u32,
}

impl Model for Consumer {
    ghost use Rattle.ring_ends.specs.Ends.{End, end_of, IsConsumer};

    ghost Value = { End };

    ghost view = { λ consumer. end_of consumer.seat };

    ghost invariant = { λ consumer. IsConsumer consumer.own consumer.seat };
}

/// Loads bytes from those on that were read, and fills the slice. O(its length).
fn fetch(table: &RingTable, seat: &mut Seat, own: u32, into: &mut [u8])
    requires seat { IsSeatOf roles.Consumer table.now.shared.table_id seat.old }
    requires own { own ≡ take_index seat.old.me.0 }
    requires fits { length into.old ≤ 1024 }
    requires there { length seat.old.me.0.read + length into.old ≤ seat.old.me.0.seen }
    ensures { Becomes seat.old seat.new (record seat.old.me.0 { read = seat.old.me.0.read ++ into.new }) }
{
    for k in 0..into.len() {
        let place = own.wrapping_add(k as u32) % RING_SIZE;
        into[k] = load_byte(table, seat, place as usize);
    }
}

impl Consumer {
    pub(crate) fn at(seat: Seat, start: u32) -> Consumer
        requires seat { IsSeatOf roles.Consumer seat.table_id seat }
        requires fresh { seat.me ≡ (with_role roles.Consumer (fresh start), []) }
        ensures { result ≡ end_of seat }
    {
        Consumer { seat, own: start }
    }

    pub(crate) fn into_seat(self) -> Seat
        ensures end { end_of result ≡ self }
        ensures seat { IsSeatOf roles.Consumer result.table_id result × (result.me.1 ≡ []) }
    {
        let Consumer { seat, own: _ } = self;
        seat
    }

    /// Takes as many bytes as are there and find room in the slice, by its own index and by PROD, which it loads
    /// once, and frees them. At bad indices it takes nothing. O(the bytes that it takes).
    pub fn take(&mut self, table: &RingTable, into: &mut [u8]) -> Result<Take, BadIndex>
        requires { self.old.table ≡ table.now.shared.table_id }
        ensures table { self.new.table ≡ self.old.table }
        ensures took { IfOk result (λ took. (took.n ≡ min (length into.old) (filled took.seen_prod self.old.view))
            × (self.new.view ≡ after_take (take took.n into.new) (after_load_prod took.seen_prod self.old.view))
            × (drop took.n into.new ≡ drop took.n into.old)) }
        ensures bad { IfErr result (λ bad. (bad.cons ≡ take_index self.old.view) × (into.new ≡ into.old)
            × (self.new.view ≡ after_load_prod bad.prod self.old.view)) }
        ensures exactly { MatchResult result (λ took. is_bad took.seen_prod (take_index self.old.view) ≡ false) (λ bad. is_bad bad.prod bad.cons ≡ true) }
        ensures freed { self.new.view.freed ≡ length self.new.view.read }
        ensures whole { self.new.view.whole ≡ self.new.view.heard }
        ensures looks { self.new.view.looks ≡ self.old.view.looks + 1 }
    {
        let seen_prod = load_prod(table, &mut self.seat);
        let filled = used(seen_prod, self.own)?;
        let n = into.len().min(filled as usize);
        fetch(table, &mut self.seat, self.own, &mut into[..n]);
        self.own = self.own.wrapping_add(n as u32);
        store_cons(table, &mut self.seat, self.own);
        Ok(Take { n, seen_prod })
    }

    /// Loads NOTE. O(1).
    pub fn noted(&mut self, table: &RingTable) -> u64
        requires { self.old.table ≡ table.now.shared.table_id }
        ensures table { self.new.table ≡ self.old.table }
        ensures view { self.new.view ≡ after_load_note result self.old.view }
        ensures heard { result ≡ self.new.view.heard }
    {
        hear(table, &mut self.seat)
    }

    /// Stores any number into PROD, where `prod` is true, or else into CONS. O(1).
    pub fn poke(&mut self, table: &RingTable, prod: bool, value: u32)
        requires { self.old.table ≡ table.now.shared.table_id }
        ensures table { self.new.table ≡ self.old.table }
        ensures view { self.new.view ≡ after_poke self.old.view }
    {
        ring_words::poke(table, &mut self.seat, prod, value);
    }
}
