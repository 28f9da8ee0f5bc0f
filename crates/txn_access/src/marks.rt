//! Marks by path.

ghost use Rattle.std.specs.Prelude.{◌≡◌, ◌<◌, ◌≤◌, ◌+◌};
ghost use Rattle.std.specs.Option.{option_copied};
ghost use Rattle.mark_model.specs.Marks.{access, note, write, first_conflict};
ghost use Rattle.path_map.specs.Chunks.{joined};

use crate::mark::Held;
use node_tree::Node;
use path_map::{Chunk, PathMap};
use xs_path::Path;

/// A command looked at the path.
pub fn access(map: &mut PathMap<Held>, path: Path)
    requires { 0 < map.old.spare }
    ensures marks { map.new.entries ≡ access path map.old.entries }
    ensures spare { map.old.spare ≤ map.new.spare + 1 }
    ensures kept { map.new.kept ≤ map.old.kept }
{
    if let Some(held) = map.get_mut(&path) {
        held.access();
        return;
    }
    map.put(path, Held::seen());
}

/// Others changed the path: what stood there just before.
pub fn note(map: &mut PathMap<Held>, path: Path, old: Option<Node>)
    requires { 0 < map.old.spare }
    ensures marks { map.new.entries ≡ note path old map.old.entries }
    ensures spare { map.old.spare ≤ map.new.spare + 1 }
    ensures kept { map.new.kept ≤ map.old.kept }
{
    if let Some(held) = map.get_mut(&path) {
        held.note(old);
        return;
    }
    map.put(path, Held::kept(old));
}

/// A command gave the path its node, or removed it.
pub fn write(map: &mut PathMap<Held>, path: Path, node: Option<Node>)
    requires { 0 < map.old.spare }
    ensures marks { map.new.entries ≡ write path node map.old.entries }
    ensures spare { map.old.spare ≤ map.new.spare + 1 }
    ensures kept { map.new.kept ≤ map.old.kept }
{
    if let Some(held) = map.get_mut(&path) {
        held.write(node);
        return;
    }
    map.put(path, Held::written(node, false));
}

/// The first path with a conflict.
pub fn conflict(parts: &[Chunk<Held>]) -> Option<&Path>
    ensures { option_copied result ≡ first_conflict (joined parts.now) }
{
    for part in parts {
        if let Some(path) = conflict_in(part.entries()) {
            return Some(path);
        }
    }
    None
}

/// The first path with a conflict of those of a chunk.
fn conflict_in(entries: &[(Path, Held)]) -> Option<&Path>
    ensures { option_copied result ≡ first_conflict entries.now }
{
    for entry in entries {
        if entry.1.is_conflict() {
            return Some(&entry.0);
        }
    }
    None
}
