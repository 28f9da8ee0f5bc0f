//! A ring is opened with two seats, and closed with them.

ghost use Rattle.std.specs.Prelude.{◌≡◌, [], false, replicate, slice_set, IfOk};
ghost use Rattle.ring_words.specs.Rule.{Agree, IsBlamed};
ghost use Rattle.ring_words.specs.Seats.{IsSeatOf};
ghost use Rattle.ring_words.specs.Views.{closed, fresh, with_role};
ghost use Rattle.ring_words.specs.declared.view.Role.TheVariants.{Producer, Consumer, Kept};

use crate::NoMemory;
use crate::plays::{Keep, Open, Shut};
use crate::rule::{RingTable, Seat};
use std::alloc::Global;

/// Zeros, and both indices at their start.
fn first_words(start: u32) -> [u64; 1027]
    ensures { result ≡ slice_set (slice_set (replicate 1027 0) 1024 start) 1025 start }
{
    let mut words = [0; 1027];
    words[1024] = u64::from(start);
    words[1025] = u64::from(start);
    words
}

/// A ring whose indices start here, with the seats of its producer and its consumer. It takes all its memory here.
pub fn open(alloc: Global, start: u32) -> Result<(RingTable, Seat, Seat), NoMemory>
    ensures producer { IfOk result (λ ring. IsSeatOf Producer ring.0.shared.table_id ring.1 × (ring.1.me ≡ (with_role Producer (fresh start), []))) }
    ensures consumer { IfOk result (λ ring. IsSeatOf Consumer ring.0.shared.table_id ring.2 × (ring.2.me ≡ (with_role Consumer (fresh start), []))) }
{
    let words = first_words(start);
    let (table, mut producer) = RingTable::of_words(alloc, &words, &start)?;
    let consumer = table.shared.split_seat::<Open>(&mut producer);
    Ok((table, producer, consumer))
}

/// Closes a ring, and gives a seat that keeps what its two ends did.
pub fn shut(table: RingTable, producer: Seat, consumer: Seat) -> Seat
    requires producer { IsSeatOf Producer table.shared.table_id producer }
    requires consumer { IsSeatOf Consumer table.shared.table_id consumer × (consumer.me.1 ≡ []) }
    ensures view { result.me.0 ≡ with_role Kept (closed producer.me.0 consumer.me.0) }
    ensures agree { producer.me.0.poked ≡ false → consumer.me.0.poked ≡ false → Agree producer.me.0 consumer.me.0 }
    ensures blame { IsBlamed producer.me.0 consumer.me.0 }
{
    let mut seat = producer;
    table.shared.join_seat::<Shut>(&mut seat, consumer);
    let kept = table.shared.split_seat::<Keep>(&mut seat);
    table.close_with(seat).free();
    kept
}
