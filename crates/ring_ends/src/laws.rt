//! What several calls say together.

ghost use Rattle.std.specs.Prelude.{◌≡◌, ◌+◌, ◌⊎◌, ◌≤◌, ◌++◌, true, false, length, take, min, IfOk, IfErr, IfSome, IsSome};

use crate::closing::{Lists, close_ring, ring};
use crate::consumer::Consumer;
use crate::producer::{Producer, Put};
use ring_words::{BadIndex, NoMemory, RingTable};
use std::alloc::Global;

/// What `room` answers, the next put finds, or CONS was poked meanwhile and the producer's view tells of it.
pub fn put_after_room(
    producer: &mut Producer,
    table: &RingTable,
    from: &[u8],
) -> Result<(u32, Put), BadIndex>
    requires { producer.old.table ≡ table.now.shared.table_id }
    ensures table { producer.new.table ≡ producer.old.table }
    ensures found { IfOk result (λ both. (min both.0 (length from.now) ≤ both.1.n) ⊎ (producer.new.view.short ≡ true)) }
    ensures looks { IfOk result (λ both. producer.new.view.looks ≡ producer.old.view.looks + 2) }
    ensures put { IfOk result (λ both. length producer.new.view.sent ≡ length producer.old.view.sent + both.1.n) }
    ensures bad { IfErr result (λ bad. IsSome producer.new.view.bad_put) }
{
    let room = producer.room(table)?;
    let put = producer.put(table, from)?;
    Ok((room, put))
}

fn crosses<T: Send>(_value: &T) {}

fn is_shared<T: Sync>(_value: &T) {}

/// The ends may go to other threads, and threads may share the table.
pub fn ends_cross(table: &RingTable, producer: &Producer, consumer: &Consumer) {
    is_shared(table);
    crosses(producer);
    crosses(consumer);
}
