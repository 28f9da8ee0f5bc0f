//! A ring is made with its ends, and closed with them.

ghost use Rattle.std.specs.Prelude.{◌≡◌, ◌||◌, false, IfOk};
ghost use Rattle.ring_words.specs.Rule.{Agree, Begins, IsBlamed};
ghost use Rattle.ring_words.specs.Views.{fresh, with_role};
ghost use Rattle.ring_words.specs.declared.view.Role.TheVariants as roles;

use crate::consumer::Consumer;
use crate::producer::Producer;
use ring_words::{NoMemory, RingTable, Seat, open, shut};
use std::alloc::Global;
use std::marker::Model;

/// What is left of a closed ring. It has no bytes.
///
/// Contracts see a `ClosedLists`: the bytes that were sent and the bytes that were got, whether an end poked, and
/// the indices at the first load of each end that found bad ones. [`close_ring`] alone makes one.
#[derive(Drop)]
pub struct Lists {
    seat: Seat,
}

impl Model for Lists {
    ghost use Rattle.ring_ends.specs.Ends.{ClosedLists, lists_of};

    ghost Value = { ClosedLists };

    ghost view = { λ lists. lists_of lists.seat.me.0 };
}

/// A ring whose indices start here, with its two ends. It takes all the memory of the ring: 1027 words of 8 bytes.
pub fn ring(alloc: Global, start: u32) -> Result<(RingTable, Producer, Consumer), NoMemory>
    ensures tables { IfOk result (λ ring. (ring.1.table ≡ ring.0.shared.table_id) × (ring.2.table ≡ ring.0.shared.table_id)) }
    ensures producer { IfOk result (λ ring. ring.1.view ≡ with_role roles.Producer (fresh start)) }
    ensures consumer { IfOk result (λ ring. ring.2.view ≡ with_role roles.Consumer (fresh start)) }
{
    let (table, producer, consumer) = open(alloc, start)?;
    Ok((
        table,
        Producer::at(producer, start),
        Consumer::at(consumer, start),
    ))
}

/// Takes a ring and its ends back, and gives what was sent and what was got.
///
/// While nobody poked, what was got begins what was sent, and the notes that the consumer heard were the
/// producer's. Where an end met bad indices, or the producer saw a free byte go, somebody poked. O(1).
pub fn close_ring(table: RingTable, producer: Producer, consumer: Consumer) -> Lists
    requires producer { producer.table ≡ table.shared.table_id }
    requires consumer { consumer.table ≡ table.shared.table_id }
    ensures sent { result.sent ≡ producer.view.sent }
    ensures got { result.got ≡ consumer.view.read }
    ensures poked { result.poked ≡ (producer.view.poked || consumer.view.poked) }
    ensures bad { (result.bad_put ≡ producer.view.bad_put) × (result.bad_take ≡ consumer.view.bad_take) }
    ensures begins { result.poked ≡ false → Begins result.got result.sent }
    ensures agree { result.poked ≡ false → Agree producer.view consumer.view }
    ensures blame { IsBlamed producer.view consumer.view }
{
    let seat = shut(table, producer.into_seat(), consumer.into_seat());
    Lists { seat }
}
