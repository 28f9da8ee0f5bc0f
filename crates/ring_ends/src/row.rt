//! A ring that is filled to the last byte across the wrap of its indices.

ghost use Rattle.std.specs.Prelude.{◌≡◌, ◌++◌, false, length, take, IfOk, IfSome};

use crate::closing::{Lists, close_ring, ring};
use crate::consumer::Take;
use crate::producer::Put;
use ring_words::NoMemory;
use std::alloc::Global;

/// On a ring that starts at 4294967290: a put of 1024 bytes finds room for all, a put of one byte for none, a take
/// into 10 bytes finds 10, and then a put of 20 bytes finds room for 10.
///
/// No clause of one end tells the numbers of the second and the third put. So it answers `Some` exactly where all
/// numbers were these.
pub fn worked_row(
    alloc: Global,
    full: &[u8],
    one: &[u8],
    more: &[u8],
) -> Result<Option<Lists>, NoMemory>
    requires full { length full.now ≡ 1024 }
    requires one { length one.now ≡ 1 }
    requires more { length more.now ≡ 20 }
    ensures sent { IfOk result (λ row. IfSome row (λ lists. (lists.sent ≡ full.now ++ take 10 more.now) × (length lists.sent ≡ 1034))) }
    ensures got { IfOk result (λ row. IfSome row (λ lists. lists.got ≡ take 10 full.now)) }
    ensures poked { IfOk result (λ row. IfSome row (λ lists. lists.poked ≡ false)) }
{
    let (table, mut producer, mut consumer) = ring(alloc, 4294967290)?;
    let mut got = [0; 10];
    let Ok(
        Put {
            n: 1024,
            seen_cons: 4294967290,
        },
    ) = producer.put(&table, full)
    else {
        return Ok(None);
    };
    let Ok(
        Put {
            n: 0,
            seen_cons: 4294967290,
        },
    ) = producer.put(&table, one)
    else {
        return Ok(None);
    };
    let Ok(
        Take {
            n: 10,
            seen_prod: 1018,
        },
    ) = consumer.take(&table, &mut got)
    else {
        return Ok(None);
    };
    let Ok(
        Put {
            n: 10,
            seen_cons: 4,
        },
    ) = producer.put(&table, more)
    else {
        return Ok(None);
    };
    Ok(Some(close_ring(table, producer, consumer)))
}
