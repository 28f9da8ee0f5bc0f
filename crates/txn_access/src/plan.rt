//! What a commit prepares.

ghost use Rattle.std.specs.Prelude.{◌≡◌, ◌++◌, OnOk, IfOk, is_some};
ghost use Rattle.std.specs.Option.{option_map};
ghost use Rattle.mark_model.specs.Marks.{written, written_paths};
ghost use Rattle.path_map.specs.Chunks.{joined};
ghost use Rattle.txn_access.specs.Plans.{written_here, change_by, changes};
ghost use Rattle.xs_model.specs.Changes.{change_at};
ghost use Rattle.xs_model.specs.Trees.{is_present};

use crate::mark::Held;
use node_tree::{Tree, View};
use path_map::Chunk;
use std::alloc::Global;
use xs_base::NoMemory;
use xs_path::{Path, Paths};

/// A commit that has all its memory.
#[derive(Debug, Drop)]
pub struct Plan {
    /// The paths that it writes, rising.
    pub written: Paths,
    /// The paths that change, and count as changed for others.
    pub changed: Paths,
    /// Room for the paths that are removed.
    pub(crate) gone: Vec<Path>,
}

/// The paths that a commit of these marks writes.
pub fn written(alloc: Global, parts: &[Chunk<Held>]) -> Result<Paths, NoMemory>
    ensures { IfOk result (λ paths. paths ≡ written_paths (joined parts.now)) }
{
    let mut paths = Paths::new(alloc);
    for part in parts {
        written_in(alloc, part.entries(), &mut paths)?;
    }
    Ok(paths)
}

fn written_in(alloc: Global, entries: &[(Path, Held)], paths: &mut Paths) -> Result<(), NoMemory>
    ensures { OnOk result (paths.new ≡ paths.old ++ written_paths entries.now) }
{
    for entry in entries {
        written_one(alloc, &entry.0, &entry.1, paths)?;
    }
    Ok(())
}

fn written_one(alloc: Global, path: &Path, held: &Held, paths: &mut Paths) -> Result<(), NoMemory>
    ensures { OnOk result (paths.new ≡ paths.old ++ written_here path.now (written held.now)) }
{
    match held.leaves() {
        Some(_) => {
            paths.push(path.copy(alloc)?)?;
            Ok(())
        }
        None => Ok(()),
    }
}

/// The paths that a commit of these marks changes.
pub fn changed(alloc: Global, tree: &Tree, parts: &[Chunk<Held>]) -> Result<Paths, NoMemory>
    ensures { IfOk result (λ paths. paths ≡ changes tree.now.nodes (joined parts.now)) }
{
    let mut paths = Paths::new(alloc);
    for part in parts {
        changed_in(alloc, tree, part.entries(), &mut paths)?;
    }
    Ok(paths)
}

fn changed_in(
    alloc: Global,
    tree: &Tree,
    entries: &[(Path, Held)],
    paths: &mut Paths,
) -> Result<(), NoMemory>
    ensures { OnOk result (paths.new ≡ paths.old ++ changes tree.now.nodes entries.now) }
{
    for entry in entries {
        changed_one(alloc, tree, &entry.0, &entry.1, paths)?;
    }
    Ok(())
}

fn changed_one(
    alloc: Global,
    tree: &Tree,
    path: &Path,
    held: &Held,
    paths: &mut Paths,
) -> Result<(), NoMemory>
    ensures { OnOk result (paths.new ≡ paths.old ++ change_by tree.now.nodes path.now (written held.now)) }
{
    match held.leaves() {
        Some(after) => {
            let before = tree.node(path).is_some();
            change(alloc, path, before, after, paths)
        }
        None => Ok(()),
    }
}

/// The path, if it was there or is, and its parent, if it came or went.
fn change(
    alloc: Global,
    path: &Path,
    before: bool,
    after: bool,
    paths: &mut Paths,
) -> Result<(), NoMemory>
    ensures { OnOk result (paths.new ≡ paths.old ++ change_at before after path.now) }
{
    if !before && !after {
        return Ok(());
    }
    paths.push(path.copy(alloc)?)?;
    if before && after {
        return Ok(());
    }
    match path.parent(alloc)? {
        Some(parent) => {
            paths.push(parent)?;
            Ok(())
        }
        None => Ok(()),
    }
}
