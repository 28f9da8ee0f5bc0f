//! Worked values, found by hand, and what a caller of `get_mut` knows.

ghost use Rattle.std.specs.Prelude.{◌≡◌, ◌++◌, true, None, IfSome, OnOk};
ghost use Rattle.std.specs.FinMap.{find, put};
ghost use Rattle.std.specs.Ordering.{nat_cmp};

use id_map::{IdMap, NoMemory};
use std::test::Fail;
use xs_base::Bytes;

/// A number and a mark.
#[derive(Debug, Drop)]
struct Marked {
    number: u32,
    mark: bool,
}

impl Marked {
    fn set_mark(&mut self)
        ensures { self.new ≡ record self.old { mark = true } }
    {
        self.mark = true;
    }
}

/// Marks the number of an id, if it has one.
fn mark(map: &mut IdMap<Marked>, id: u32)
    ensures there { IfSome (find nat_cmp id map.old.entries)
        (λ item. map.new.entries ≡ put nat_cmp id (record item { mark = true }) map.old.entries) }
    ensures absent { find nat_cmp id map.old.entries ≡ None → map.new ≡ map.old }
{
    if let Some(item) = map.get_mut(id) {
        item.set_mark();
    }
}

/// Appends to the text of an id, and says whether it has one.
fn append(map: &mut IdMap<Bytes>, id: u32, more: &[u8]) -> Result<bool, NoMemory>
    ensures there { OnOk result (IfSome (find nat_cmp id map.old.entries)
        (λ text. map.new.entries ≡ put nat_cmp id (text ++ more.now) map.old.entries)) }
    ensures absent { find nat_cmp id map.old.entries ≡ None → map.new ≡ map.old }
{
    match map.get_mut(id) {
        Some(text) => {
            text.push(more)?;
            Ok(true)
        }
        None => Ok(false),
    }
}

#[test]
fn keeps_items_by_id(rt: HostRuntime) -> Result<(), Fail> {
    let mut map = IdMap::new(rt.alloc());
    assert!(rt; map.is_empty());
    for id in [7, 2, 5] {
        assert!(rt; map.get(id).is_none());
        let number = 10 * id;
        map.add(
            id,
            Marked {
                number,
                mark: false,
            },
        )?;
    }
    assert_eq!(rt; map.len(), 3);
    mark(&mut map, 5);
    mark(&mut map, 6);
    for (id, seen) in [(2, Some((20, false))), (5, Some((50, true))), (6, None)] {
        assert_eq!(rt; map.get(id).map(|item| (item.number, item.mark)), seen);
    }
    for (id, next) in [
        (0, Some(2)),
        (2, Some(5)),
        (3, Some(5)),
        (6, Some(7)),
        (7, None),
    ] {
        assert_eq!(rt; map.next_after(id), next);
    }
    assert_eq!(rt; (map.remove(2), map.remove(2)), (true, false));
    assert_eq!(rt; map.next_after(0), Some(5));
    Ok(())
}

#[test]
fn changes_a_text(rt: HostRuntime) -> Result<(), Fail> {
    let mut map = IdMap::new(rt.alloc());
    map.add(4, Bytes::new(rt.alloc()))?;
    assert_eq!(rt; append(&mut map, 4, b"ab")?, true);
    assert_eq!(rt; append(&mut map, 3, b"cd")?, false);
    assert_eq!(rt; map.get(4).map(|text| text.len()), Some(2));
    Ok(())
}

#[test]
fn finds_the_least_free_id(rt: HostRuntime) -> Result<(), Fail> {
    let mut map = IdMap::new(rt.alloc());
    assert_eq!(rt; map.least_free(), 1);
    for (id, free) in [
        (2, 1),
        (0, 1),
        (7, 1),
        (1, 3),
        (4, 3),
        (3, 5),
        (5, 6),
        (6, 8),
    ] {
        assert!(rt; map.get(id).is_none());
        map.add(id, ())?;
        assert!(rt; map.len() < 10);
        assert_eq!(rt; map.least_free(), free);
    }
    assert!(rt; map.remove(4));
    assert!(rt; map.len() < 10);
    assert_eq!(rt; map.least_free(), 4);
    Ok(())
}

#[test]
fn puts_items_where_memory_was_reserved(rt: HostRuntime) -> Result<(), Fail> {
    let mut map = IdMap::new(rt.alloc());
    map.reserve(2)?;
    map.put(3, 30);
    map.put(3, 31);
    assert_eq!(rt; (map.len(), map.get(3).copied()), (1, Some(31)));
    let entries = map.into_vec();
    assert_eq!(rt; entries.as_slice(), [(3, 31)].as_slice());
    Ok(())
}
