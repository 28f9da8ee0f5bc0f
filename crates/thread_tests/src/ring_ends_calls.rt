//! Worked values of rings, found by hand, and a ring between two threads.

ghost use Rattle.std.specs.Prelude.{◌≡◌, ◌≤◌};

use ring_ends::{
    BadIndex, Consumer, NoMemory, Producer, Put, RingTable, Take, close_ring, ring, worked_row,
};
use std::alloc::Global;
use std::sync::Wait;
use std::test::Fail;
use std::thread;
use std::thread::Threads;

#[test]
fn fills_a_ring_across_the_wrap(rt: HostRuntime) -> Result<(), Fail> {
    let row = worked_row(rt.alloc(), &[1; 1024], &[2], &[3; 20])?;
    assert!(rt; row.is_some());
    Ok(())
}

#[test]
fn hears_notes_and_gives_bytes(rt: HostRuntime) -> Result<(), Fail> {
    let (table, mut producer, mut consumer) = ring(rt.alloc(), 7)?;
    let mut got = [0; 4];
    assert!(rt; producer.room(&table) == Ok(1024) && consumer.noted(&table) == 0);
    assert!(rt; producer.put(&table, b"abc") == Ok(Put { n: 3, seen_cons: 7 }));
    producer.note(&table, 9);
    assert!(rt; consumer.noted(&table) == 9);
    assert!(rt;
        consumer.take(&table, &mut got)
            == Ok(Take {
                n: 3,
                seen_prod: 10
            })
    );
    assert!(rt; got == [b'a', b'b', b'c', 0]);
    close_ring(table, producer, consumer);
    Ok(())
}

/// What the ends answer at a ring whose index was poked when 2 of 5 bytes were taken.
type Answers = (
    Result<u32, BadIndex>,
    Result<Take, BadIndex>,
    Result<Put, BadIndex>,
    Result<Take, BadIndex>,
);

fn answers_after_poke(alloc: Global, by_producer: bool, prod: bool) -> Result<Answers, NoMemory> {
    let (table, mut producer, mut consumer) = ring(alloc, 0)?;
    let mut got = [0; 2];
    let _ = producer.put(&table, b"abcde");
    let _ = consumer.take(&table, &mut got);
    if by_producer {
        producer.poke(&table, prod, 2000);
    } else {
        consumer.poke(&table, prod, 2000);
    }
    let room = producer.room(&table);
    let mut rest = [0; 9];
    let took = consumer.take(&table, &mut rest);
    let put = producer.put(&table, b"f");
    let last = consumer.take(&table, &mut rest);
    Ok((room, took, put, last))
}

#[test]
fn answers_bad_indices_until_the_index_is_stored_again(rt: HostRuntime) -> Result<(), Fail> {
    for by_producer in [true, false] {
        assert_eq!(rt;
            answers_after_poke(rt.alloc(), by_producer, true)?,
            (
                Ok(1021),
                Err(BadIndex {
                    prod: 2000,
                    cons: 2
                }),
                Ok(Put { n: 1, seen_cons: 2 }),
                Ok(Take { n: 4, seen_prod: 6 }),
            )
        );
        assert_eq!(rt;
            answers_after_poke(rt.alloc(), by_producer, false)?,
            (
                Err(BadIndex {
                    prod: 5,
                    cons: 2000
                }),
                Ok(Take { n: 3, seen_prod: 5 }),
                Ok(Put { n: 1, seen_cons: 5 }),
                Ok(Take { n: 1, seen_prod: 6 }),
            )
        );
    }
    Ok(())
}

const TOTAL: usize = 100000;

/// The length of the next piece, where so many bytes are left.
fn piece(left: usize) -> usize
    ensures { result ≤ left }
{
    left.min(left % 1500 + 1)
}

/// Puts all the bytes, in pieces of changing length.
fn put_all<R: Wait>(rt: &R, table: &RingTable, mut producer: Producer, bytes: &[u8]) -> Producer
    requires { producer.table ≡ table.now.shared.table_id }
    ensures { result.table ≡ producer.table }
{
    let mut rest = bytes;
    for _ in rt.forever() {
        if rest.is_empty() {
            break;
        }
        let size = piece(rest.len());
        let Ok(put) = producer.put(table, &rest[..size]) else {
            break;
        };
        rest = &rest[put.n..];
    }
    producer
}

/// Takes bytes until the list is full, in pieces of changing length.
fn take_all<R: Wait>(
    rt: &R,
    table: &RingTable,
    mut consumer: Consumer,
    mut list: Vec<u8>,
) -> (Consumer, Vec<u8>)
    requires { consumer.table ≡ table.now.shared.table_id }
    ensures { result.0.table ≡ consumer.table }
{
    let into = list.as_mut_slice();
    let mut done = 0;
    for _ in rt.forever() {
        if done >= into.len() {
            break;
        }
        let size = piece(into.len() - done);
        let Ok(took) = consumer.take(table, &mut into[done..done + size]) else {
            break;
        };
        done += took.n;
    }
    (consumer, list)
}

/// Puts the bytes in one thread and takes them in another.
fn carry<R: Threads + Wait + Sync>(
    rt: &R,
    table: &RingTable,
    producer: Producer,
    consumer: Consumer,
    bytes: &[u8],
    list: Vec<u8>,
) -> (Producer, (Consumer, Vec<u8>))
    requires producer { producer.table ≡ table.now.shared.table_id }
    requires consumer { consumer.table ≡ table.now.shared.table_id }
    ensures producer { result.0.table ≡ table.now.shared.table_id }
    ensures consumer { result.1.0.table ≡ table.now.shared.table_id }
{
    thread::join(
        rt,
        move || -> Producer
            requires { producer.table ≡ table.now.shared.table_id }
            ensures { result.table ≡ table.entry.now.shared.table_id }
        { put_all(rt, table, producer, bytes) },
        move || -> (Consumer, Vec<u8>)
            requires { consumer.table ≡ table.now.shared.table_id }
            ensures { result.0.table ≡ table.entry.now.shared.table_id }
        { take_all(rt, table, consumer, list) },
    )
}

#[test]
fn carries_bytes_between_two_threads(rt: HostRuntime) -> Result<(), Fail> {
    let mut bytes = Vec::from_elem(rt.alloc(), 0u8, TOTAL)?;
    for (k, byte) in bytes.iter_mut().enumerate() {
        *byte = (k % 251) as u8;
    }
    let list = Vec::from_elem(rt.alloc(), 0u8, TOTAL)?;
    let (table, producer, consumer) = ring(rt.alloc(), 4294960000)?;
    let (producer, (consumer, list)) = carry(&rt, &table, producer, consumer, &bytes, list);
    assert!(rt; list.as_slice() == bytes.as_slice());
    close_ring(table, producer, consumer);
    Ok(())
}
