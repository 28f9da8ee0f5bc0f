//! The end that puts bytes.

ghost use Rattle.std.specs.Prelude.{◌≡◌, ℕ, ◌+◌, ◌≤◌, [], true, false, length, take, min, IfOk, IfErr, MatchResult};
ghost use Rattle.ring_words.specs.Indices.{is_bad};
ghost use Rattle.ring_words.specs.Seats.{IsSeatOf, Becomes};
ghost use Rattle.ring_words.specs.Steps.{after_load_cons, after_store_note, after_poke};
ghost use Rattle.ring_words.specs.Views.{put_index, with_role, fresh};
ghost use Rattle.ring_words.specs.declared.view.Role.TheVariants as roles;
ghost use Rattle.ring_ends.specs.Ends.{end_of, free, after_put};

use ring_words::{BadIndex, RING_SIZE, RingTable, Seat, load_cons, stage_byte, store_prod, used};
use std::marker::Model;

/// What a put did.
#[derive(Clone, Copy, Debug, PartialEq, Eq)]
pub struct Put {
    /// How many bytes it put.
    pub n: usize,
    /// The value that it loaded from CONS.
    pub seen_cons: u32,
}

/// The end that puts bytes. Contracts see an `End`: its table and its view.
#[derive(Drop)]
pub struct Producer {
    seat: Seat,
    // Where the next byte is put.
    own: u32,
}

impl Model for Producer {
    ghost use Rattle.ring_ends.specs.Ends.{End, end_of, IsProducer};

    ghost Value = { End };

    ghost view = { λ producer. end_of producer.seat };

    ghost invariant = { λ producer. IsProducer producer.own producer.seat };
}

/// Stores bytes behind those that were given over. O(their number).
fn stage(table: &RingTable, seat: &mut Seat, own: u32, bytes: &[u8])
    requires seat { IsSeatOf roles.Producer table.now.shared.table_id seat.old }
    requires own { own ≡ put_index seat.old.me.0 }
    requires staged { seat.old.me.0.staged ≡ [] }
    requires fits { length bytes.now ≤ 1024 }
    requires room { length seat.old.me.0.sent + length bytes.now ≤ seat.old.me.0.seen + 1024 }
    ensures { Becomes seat.old seat.new (record seat.old.me.0 { staged = bytes.now }) }
{
    for (k, byte) in bytes.iter().enumerate() {
        let place = own.wrapping_add(k as u32) % RING_SIZE;
        stage_byte(table, seat, place as usize, *byte);
    }
}

impl Producer {
    pub(crate) fn at(seat: Seat, start: u32) -> Producer
        requires seat { IsSeatOf roles.Producer seat.table_id seat }
        requires fresh { seat.me ≡ (with_role roles.Producer (fresh start), []) }
        ensures { result ≡ end_of seat }
    {
        Producer { seat, own: start }
    }

    pub(crate) fn into_seat(self) -> Seat
        ensures end { end_of result ≡ self }
        ensures seat { IsSeatOf roles.Producer result.table_id result }
    {
        let Producer { seat, own: _ } = self;
        seat
    }

    /// Puts as many bytes as there is room for, by its own index and by CONS, which it loads once. At bad indices
    /// it puts nothing. O(the bytes that it puts).
    pub fn put(&mut self, table: &RingTable, from: &[u8]) -> Result<Put, BadIndex>
        requires { self.old.table ≡ table.now.shared.table_id }
        ensures table { self.new.table ≡ self.old.table }
        ensures put { IfOk result (λ put. (put.n ≡ min (length from.now) (free put.seen_cons self.old.view))
            × (self.new.view ≡ after_put (take put.n from.now) (after_load_cons put.seen_cons self.old.view))) }
        ensures bad { IfErr result (λ bad. (bad.prod ≡ put_index self.old.view) × (self.new.view ≡ after_load_cons bad.cons self.old.view)) }
        ensures exactly { MatchResult result (λ put. is_bad (put_index self.old.view) put.seen_cons ≡ false) (λ bad. is_bad bad.prod bad.cons ≡ true) }
        ensures staged { self.new.view.staged ≡ [] }
        ensures looks { self.new.view.looks ≡ self.old.view.looks + 1 }
    {
        let seen_cons = load_cons(table, &mut self.seat);
        let free = RING_SIZE - used(self.own, seen_cons)?;
        let n = from.len().min(free as usize);
        stage(table, &mut self.seat, self.own, &from[..n]);
        self.own = self.own.wrapping_add(n as u32);
        store_prod(table, &mut self.seat, self.own);
        Ok(Put { n, seen_cons })
    }

    /// For how many bytes there is room, by its own index and by CONS, which it loads once. O(1).
    pub fn room(&mut self, table: &RingTable) -> Result<u32, BadIndex>
        requires { self.old.table ≡ table.now.shared.table_id }
        ensures table { self.new.table ≡ self.old.table }
        ensures room { IfOk result (λ room. (cons : ℕ) × (is_bad (put_index self.old.view) cons ≡ false) × (room ≡ free cons self.old.view)
            × (self.new.view ≡ after_load_cons cons self.old.view)) }
        ensures bad { IfErr result (λ bad. (is_bad bad.prod bad.cons ≡ true) × (bad.prod ≡ put_index self.old.view)
            × (self.new.view ≡ after_load_cons bad.cons self.old.view)) }
        ensures lists { (self.new.view.sent ≡ self.old.view.sent) × (self.new.view.staged ≡ []) }
        ensures looks { self.new.view.looks ≡ self.old.view.looks + 1 }
    {
        let cons = load_cons(table, &mut self.seat);
        Ok(RING_SIZE - used(self.own, cons)?)
    }

    /// Stores a value into NOTE. O(1).
    pub fn note(&mut self, table: &RingTable, value: u64)
        requires { self.old.table ≡ table.now.shared.table_id }
        ensures table { self.new.table ≡ self.old.table }
        ensures view { self.new.view ≡ after_store_note value self.old.view }
    {
        ring_words::note(table, &mut self.seat, value);
    }

    /// Stores any number into PROD, where `prod` is true, or else into CONS, as a guest may that writes over its
    /// indices. O(1).
    pub fn poke(&mut self, table: &RingTable, prod: bool, value: u32)
        requires { self.old.table ≡ table.now.shared.table_id }
        ensures table { self.new.table ≡ self.old.table }
        ensures view { self.new.view ≡ after_poke self.old.view }
    {
        ring_words::poke(table, &mut self.seat, prod, value);
    }
}
