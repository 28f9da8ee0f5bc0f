//! Calls on their happy path, and what a caller of `get_mut` knows.

ghost use Rattle.std.specs.Prelude.{◌≡◌, true, None, IfSome};
ghost use Rattle.std.specs.FinMap.{find, put};
ghost use Rattle.xs_model.specs.Paths.{path_cmp};

use path_map::{NoMemory, PathMap};
use std::alloc::Global;
use std::test::Fail;
use xs_path::Path;

/// A number and a mark.
#[derive(Debug, Drop)]
struct Marked {
    number: u8,
    mark: bool,
}

impl Marked {
    fn set_mark(&mut self)
        ensures { self.new ≡ record self.old { mark = true } }
    {
        self.mark = true;
    }
}

/// Marks the item of a path, if it has one.
fn mark(map: &mut PathMap<Marked>, path: &Path)
    ensures there { IfSome (find path_cmp path.now map.old.entries)
        (λ item. map.new.entries ≡ put path_cmp path.now (record item { mark = true }) map.old.entries) }
    ensures absent { find path_cmp path.now map.old.entries ≡ None → map.new ≡ map.old }
{
    if let Some(item) = map.get_mut(path) {
        item.set_mark();
    }
}

/// A path of one name of two letters, in the order of the numbers.
fn numbered(alloc: Global, number: u8) -> Result<Path, Fail> {
    let text = [b'/', b'a' + number / 16, b'a' + number % 16];
    Ok(Path::read(alloc, &text, 0)?)
}

fn add(alloc: Global, map: &mut PathMap<Marked>, number: u8) -> Result<(), Fail> {
    map.reserve(1)?;
    map.put(
        numbered(alloc, number)?,
        Marked {
            number,
            mark: false,
        },
    );
    Ok(())
}

#[test]
fn finds_what_was_put_and_walks_in_order(rt: HostRuntime) -> Result<(), Fail> {
    let alloc = rt.alloc();
    let mut map = PathMap::new(alloc);
    let mut at = Path::root(alloc)?;
    assert!(rt; map.is_empty() && map.get(&at).is_none() && map.next_after(&at).is_none());
    for step in 0..200u8 {
        add(alloc, &mut map, step.wrapping_mul(77) % 200)?;
    }
    for number in 0..200u8 {
        add(alloc, &mut map, number)?;
    }
    mark(&mut map, &numbered(alloc, 150)?);
    for number in 0..200u8 {
        let next = map.next_after(&at).ok_or("a path")?.copy(alloc)?;
        let item = map.get(&next).ok_or("an item")?;
        assert_eq!(rt; (item.number, item.mark), (number, number == 150));
        at = next;
    }
    for number in 0..200u8 {
        map.remove(&numbered(alloc, number)?);
    }
    assert!(rt; map.is_empty());
    Ok(())
}
