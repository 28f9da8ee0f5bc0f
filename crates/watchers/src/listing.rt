//! The index follows the watches.

ghost use Rattle.std.specs.Prelude.{◌≡◌, ◌==◌, ◌≤◌, ◌&&◌, ℕ, List, true, false, not, Some, IfOk, OnOk, slice_get};
ghost use Rattle.xs_model.specs.Paths.{Path as Place, path_of};
ghost use Rattle.xs_model.specs.Requests.{ok_value};
ghost use Rattle.xs_model.specs.Watches.{same_watch};
ghost use Rattle.watch_table.specs.Tables.{Made, watch_of, is_on};
ghost use Rattle.watchers.specs.Watched.{made_by};
ghost use Rattle.watchers.specs.Index.{is_listed, left_on, StaysListed};

use crate::index::{Index, unlist};
use id_map::IdMap;
use std::alloc::Global;
use watch_table::Watches;
use xs_base::NoMemory;
use xs_path::{Path, PathFault};

/// The node that a watch is on: that of its path as a path of the domain, if it is one. O(bytes).
pub fn node_of(alloc: Global, wpath: &[u8], domid: u16) -> Result<Option<Path>, NoMemory>
    requires { domid ≤ 32751 }
    ensures { IfOk result (λ node. node ≡ ok_value (path_of wpath.now domid)) }
{
    match Path::read(alloc, wpath, domid) {
        Ok(path) => Ok(Some(path)),
        Err(PathFault::NoMemory) => Err(NoMemory),
        Err(_) => Ok(None),
    }
}

/// Takes a connection from the node of its watch with this path and token, unless another watch of it is on that node.
pub fn unlist_watch(
    index: &mut Index,
    watches: &IdMap<Watches>,
    conn: u32,
    wpath: &[u8],
    token: &[u8],
)
    ensures { (c : ℕ) (p : Place) → (c ≡ conn → left_on (watch_of wpath.now token.now) p (made_by conn watches.now.entries) ≡ true) → is_listed c p index.old.entries ≡ true → is_listed c p index.new.entries ≡ true }
{
    if let Some(those) = watches.get(conn) {
        unlist_one(index, those, conn, wpath, token);
    }
}

/// The same, of the watches of that connection.
fn unlist_one(index: &mut Index, those: &Watches, conn: u32, wpath: &[u8], token: &[u8])
    ensures { (c : ℕ) (p : Place) → (c ≡ conn → left_on (watch_of wpath.now token.now) p those.now ≡ true) → is_listed c p index.old.entries ≡ true → is_listed c p index.new.entries ≡ true }
{
    let Some(node) = node_with(those, wpath, token) else {
        return;
    };
    if !is_left_on(those, wpath, token, node) {
        unlist(index, node, conn);
    }
}

/// The node of the watch with this path and token. O(watches).
fn node_with<'a>(watches: &'a Watches, wpath: &[u8], token: &[u8]) -> Option<&'a Path> {
    for place in 0..watches.len() {
        if is_at(watches, place, wpath, token) {
            return watches.watched(place);
        }
    }
    None
}

/// Whether the watch at a place has this path and token.
fn is_at(watches: &Watches, place: usize, wpath: &[u8], token: &[u8]) -> bool
    ensures { (m : Made) → slice_get watches.now place ≡ Some m → result ≡ same_watch (watch_of wpath.now token.now) m.watch }
{
    match watches.at(place) {
        Some((path, other)) => wpath == path && token == other,
        None => false,
    }
}

/// Whether a watch is on a node that has not this path and token. O(watches).
fn is_left_on(watches: &Watches, wpath: &[u8], token: &[u8], node: &Path) -> bool
    ensures { result ≡ left_on (watch_of wpath.now token.now) node.now watches.now }
{
    for place in 0..watches.len() {
        if is_left_at(watches, place, wpath, token, node) {
            return true;
        }
    }
    false
}

/// Whether the watch at a place is on a node, and has not this path and token.
fn is_left_at(watches: &Watches, place: usize, wpath: &[u8], token: &[u8], node: &Path) -> bool
    ensures { (m : Made) → slice_get watches.now place ≡ Some m → result ≡ (not (same_watch (watch_of wpath.now token.now) m.watch) && is_on node.now m) }
{
    !is_at(watches, place, wpath, token) && watches.matches(place, node, true)
}

/// Takes a connection from the nodes of all its watches. Every other one is still found where it was.
pub fn unlist_all(index: &mut Index, watches: &IdMap<Watches>, conn: u32)
    ensures { (c : ℕ) (p : Place) → (c == conn) ≡ false → is_listed c p index.old.entries ≡ true → is_listed c p index.new.entries ≡ true }
{
    if let Some(those) = watches.get(conn) {
        unlist_each(index, those, conn);
    }
}

/// The same, of the watches of that connection.
fn unlist_each(index: &mut Index, those: &Watches, conn: u32)
    ensures { (c : ℕ) (p : Place) → (c == conn) ≡ false → is_listed c p index.old.entries ≡ true → is_listed c p index.new.entries ≡ true }
{
    for place in 0..those.len() {
        unlist_at(index, those, place, conn);
    }
}

/// Takes a connection from the node of its watch at a place, if that is on any.
fn unlist_at(index: &mut Index, those: &Watches, place: usize, conn: u32)
    ensures { (c : ℕ) (p : Place) → (c == conn) ≡ false → is_listed c p index.old.entries ≡ true → is_listed c p index.new.entries ≡ true }
{
    if let Some(node) = those.watched(place) {
        unlist(index, node, conn);
    }
}
