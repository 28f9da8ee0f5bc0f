//! Calls on their happy path, by hand.

ghost use Rattle.std.specs.Prelude.{◌≡◌, true, IfOk};
ghost use Rattle.xs_model.specs.Wholes.{whole_behind};

use owed_bytes::{NoMemory, Owed};
use std::alloc::Global;
use std::test::Fail;
use xs_base::Bytes;

/// A message without a payload.
const SHORT: [u8; 16] = [13, 0, 0, 0, 0, 0, 0, 0, 0, 0, 0, 0, 0, 0, 0, 0];

/// A message with a payload of one byte.
const LONG: [u8; 17] = [13, 0, 0, 0, 0, 0, 0, 0, 0, 0, 0, 0, 1, 0, 0, 0, b'a'];

fn short(alloc: Global) -> Result<Bytes, NoMemory>
    ensures { IfOk result (λ bytes. whole_behind 0 bytes ≡ true) }
{
    Bytes::copy(alloc, &SHORT)
}

fn long(alloc: Global) -> Result<Bytes, NoMemory>
    ensures { IfOk result (λ bytes. whole_behind 0 bytes ≡ true) }
{
    Bytes::copy(alloc, &LONG)
}

/// Connection 7 is owed the long message, connection 2 both.
fn some(alloc: Global) -> Result<Owed, NoMemory> {
    let mut owed = Owed::new(alloc);
    owed.append(7, long(alloc)?)?;
    owed.append(2, short(alloc)?)?;
    owed.append(2, long(alloc)?)?;
    Ok(owed)
}

#[test]
fn joins_the_messages_of_a_connection(rt: HostRuntime) -> Result<(), Fail> {
    let owed = some(rt.alloc())?;
    assert_eq!(rt; owed.bytes(7), LONG.as_slice());
    assert_eq!(rt; owed.bytes(2).len(), 33);
    assert_eq!(rt; &owed.bytes(2)[16..], LONG.as_slice());
    assert_eq!(rt; owed.bytes(3).len(), 0);
    Ok(())
}

#[test]
fn finds_who_is_owed_something(rt: HostRuntime) -> Result<(), Fail> {
    let owed = some(rt.alloc())?;
    assert!(rt; !owed.is_empty());
    for (id, next) in [(0, Some(2)), (2, Some(7)), (6, Some(7)), (7, None)] {
        assert_eq!(rt; owed.next_after(id), next);
    }
    assert!(rt; Owed::new(rt.alloc()).is_empty());
    Ok(())
}
