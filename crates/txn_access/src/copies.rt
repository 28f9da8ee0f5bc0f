//! Copies of marks.

ghost use Rattle.std.specs.Prelude.{◌≡◌, ◌++◌, true, OnOk, IfOk};
ghost use Rattle.std.specs.FinMap.{put, is_sorted};
ghost use Rattle.path_map.specs.Chunks.{joined};
ghost use Rattle.xs_model.specs.Paths.{path_cmp};

use crate::mark::Held;
use path_map::{Chunk, PathMap};
use std::alloc::Global;
use xs_base::NoMemory;
use xs_path::Path;

/// A map with the same marks.
pub fn copied(alloc: Global, chunks: &[Chunk<Held>]) -> Result<PathMap<Held>, NoMemory>
    requires { is_sorted path_cmp (joined chunks.now) ≡ true }
    ensures { IfOk result (λ map. map.entries ≡ joined chunks.now) }
{
    let mut map = PathMap::new(alloc);
    for chunk in chunks {
        copy_chunk(alloc, chunk.entries(), &mut map)?;
    }
    Ok(map)
}

/// Puts copies of these marks behind those of the map.
fn copy_chunk(
    alloc: Global,
    entries: &[(Path, Held)],
    map: &mut PathMap<Held>,
) -> Result<(), NoMemory>
    requires { is_sorted path_cmp (map.old.entries ++ entries.now) ≡ true }
    ensures { OnOk result (map.new.entries ≡ map.old.entries ++ entries.now) }
{
    for entry in entries {
        copy_one(alloc, &entry.0, &entry.1, map)?;
    }
    Ok(())
}

fn copy_one(
    alloc: Global,
    path: &Path,
    held: &Held,
    map: &mut PathMap<Held>,
) -> Result<(), NoMemory>
    ensures { OnOk result (map.new.entries ≡ put path_cmp path.now held.now map.old.entries) }
{
    let held = held.copy(alloc)?;
    map.reserve(1)?;
    map.put(path.copy(alloc)?, held);
    Ok(())
}
