//! The connections by the nodes that they watch.

ghost use Rattle.std.specs.Prelude.{◌≡◌, ◌==◌, ◌&&◌, ℕ, true, false, None, IfOk, IfSome, OnOk};
ghost use Rattle.std.specs.FinMap.{find};
ghost use Rattle.xs_model.specs.Paths.{Path as Place, path_cmp, same_path};
ghost use Rattle.watchers.specs.Index.{Ids as Set, has_id, is_listed, HasRoom, HasRoomAt, HasAllReached, StaysListed, StaysIn};

use id_map::IdMap;
use path_map::PathMap;
use std::alloc::Global;
use watch_events::Change;
use xs_base::NoMemory;
use xs_path::Path;

/// A set of connections, by their ids.
pub type Ids = IdMap<()>;

/// Such a set for each node.
pub type Index = PathMap<Ids>;

/// Puts a connection into a set. Refused, the set is as before.
fn put_in(ids: &mut Ids, conn: u32) -> Result<(), NoMemory>
    ensures here { OnOk result (has_id conn ids.new ≡ true) }
    ensures kept { StaysIn ids.old ids.new }
{
    ids.reserve(1)?;
    ids.put(conn, ());
    Ok(())
}

/// Puts a connection into a set if it is in another.
fn join_one(ids: &mut Ids, more: &Ids, conn: u32) -> Result<(), NoMemory>
    ensures more { OnOk result (has_id conn more.now ≡ true → has_id conn ids.new ≡ true) }
    ensures kept { StaysIn ids.old ids.new }
{
    match more.get(conn) {
        Some(_) => put_in(ids, conn),
        None => Ok(()),
    }
}

/// Puts the connections of one set into another.
fn join(ids: &mut Ids, more: &Ids) -> Result<(), NoMemory>
    ensures more { OnOk result (StaysIn more.now ids.new) }
    ensures kept { StaysIn ids.old ids.new }
{
    join_one(ids, more, 0)?;
    let mut at = 0;
    'ids: while let Some(conn) = more.next_after(at) {
        join_one(ids, more, conn)?;
        at = conn;
    }
    Ok(())
}

/// Puts the connections that are found at a node into a set.
fn join_at(ids: &mut Ids, index: &Index, node: &Path) -> Result<(), NoMemory>
    ensures more { OnOk result ((c : ℕ) → is_listed c node.now index.now.entries ≡ true → has_id c ids.new ≡ true) }
    ensures kept { StaysIn ids.old ids.new }
{
    match index.get(node) {
        Some(more) => join(ids, more),
        None => Ok(()),
    }
}

/// The connections that are found at the nodes that an event reaches. Costs a look-up for each of these nodes, and
/// O(connections · log connections) of those that are found.
pub fn reached_in(alloc: Global, index: &Index, change: &Change) -> Result<Ids, NoMemory>
    ensures { IfOk result (HasAllReached change.now index.now.entries) }
{
    let mut ids = IdMap::new(alloc);
    join_at(&mut ids, index, &change.path)?;
    if change.exact {
        return Ok(ids);
    }
    let mut node = change.path.copy(alloc)?;
    'up: while node.pop() {
        join_at(&mut ids, index, &node)?;
    }
    Ok(ids)
}

/// Takes the memory with which a connection can be listed at a node, so that [`list`] takes none. It gives a set for it,
/// which is for a node where nobody is found yet. Whoever was found is still, also where there is no memory.
pub fn make_room(index: &mut Index, alloc: Global, node: &Path) -> Result<Ids, NoMemory>
    ensures room { IfOk result (HasRoomAt node.now index.new) }
    ensures kept { StaysListed index.old.entries index.new.entries }
{
    index.reserve(1)?;
    reserve_at(index, node)?;
    let mut first = IdMap::new(alloc);
    first.reserve(1)?;
    Ok(first)
}

/// Takes memory for one connection more in the set of a node, if it has one.
fn reserve_at(index: &mut Index, node: &Path) -> Result<(), NoMemory>
    ensures room { OnOk result (IfSome (find path_cmp node.now index.new.entries) HasRoom) }
    ensures kept { StaysListed index.old.entries index.new.entries }
    ensures spare { index.new.spare ≡ index.old.spare }
{
    match index.get_mut(node) {
        Some(ids) => ids.reserve(1),
        None => Ok(()),
    }
}

/// Lists a connection at a node, for which there is memory. Whoever was found is still. It takes no memory.
pub fn list(index: &mut Index, node: Path, first: Ids, conn: u32)
    requires { HasRoomAt node index.old first }
    ensures here { is_listed conn node index.new.entries ≡ true }
    ensures kept { StaysListed index.old.entries index.new.entries }
{
    match index.get_mut(&node) {
        Some(ids) => ids.put(conn, ()),
        None => list_first(index, node, first, conn),
    }
}

/// Lists a connection at a node where nobody is found.
fn list_first(index: &mut Index, node: Path, first: Ids, conn: u32)
    requires room { HasRoomAt node index.old first }
    requires none { find path_cmp node index.old.entries ≡ None }
    ensures here { is_listed conn node index.new.entries ≡ true }
    ensures kept { StaysListed index.old.entries index.new.entries }
{
    let mut ids = first;
    ids.put(conn, ());
    index.put(node, ids);
}

/// Takes a connection from a node. Every other one is still found where it was. It takes no memory.
pub fn unlist(index: &mut Index, node: &Path, conn: u32)
    ensures { (c : ℕ) (p : Place) → (c == conn && same_path p node.now) ≡ false → is_listed c p index.old.entries ≡ true → is_listed c p index.new.entries ≡ true }
{
    if take_from(index, node, conn) {
        index.remove(node);
    }
}

/// Takes a connection from a node, and says whether nobody is left there.
fn take_from(index: &mut Index, node: &Path, conn: u32) -> bool
    ensures others { (c : ℕ) (p : Place) → (c == conn && same_path p node.now) ≡ false → is_listed c p index.old.entries ≡ true → is_listed c p index.new.entries ≡ true }
    ensures none { result ≡ true → (c : ℕ) → is_listed c node.now index.new.entries ≡ false }
{
    match index.get_mut(node) {
        Some(ids) => remove_from(ids, conn),
        None => false,
    }
}

/// Takes a connection from a set, and says whether nobody is left.
fn remove_from(ids: &mut Ids, conn: u32) -> bool
    ensures others { (c : ℕ) → (c == conn) ≡ false → has_id c ids.old ≡ true → has_id c ids.new ≡ true }
    ensures none { result ≡ true → (c : ℕ) → has_id c ids.new ≡ false }
{
    ids.remove(conn);
    ids.is_empty()
}
