//! Making edits.

ghost use Rattle.std.specs.Prelude.{◌≡◌, ◌≤◌, [], IfOk, OnOk, OnErr, vec_len, reverse};
ghost use Rattle.xs_model.specs.Trees.{edited, edit_paths};
ghost use Rattle.xs_model.specs.Commands.{removals};
ghost use Rattle.tree_ops.specs.Answers.{edits_of, sets};
ghost use Rattle.tree_ops.specs.Fits.{Fits, FitsSets, FitsRemovals};

use crate::answer::Edits;
use node_tree::{Node, View};
use std::alloc::Global;
use xs_base::NoMemory;
use xs_path::{Path, Paths};

/// The paths of edits.
pub fn written(alloc: Global, edits: &Edits) -> Result<Paths, NoMemory>
    ensures { IfOk result (λ paths. paths ≡ edit_paths (edits_of edits.now)) }
{
    match edits {
        Edits::Sets(entries) => set_paths(alloc, entries),
        Edits::Removals(paths) => copies(alloc, paths),
    }
}

/// The paths of nodes that are to be set.
fn set_paths(alloc: Global, entries: &[(Path, Node)]) -> Result<Paths, NoMemory>
    ensures { IfOk result (λ paths. paths ≡ edit_paths (sets entries.now)) }
{
    let mut paths = Paths::new(alloc);
    for entry in entries {
        paths.push(entry.0.copy(alloc)?)?;
    }
    Ok(paths)
}

/// The same paths.
fn copies(alloc: Global, from: &[Path]) -> Result<Paths, NoMemory>
    ensures { IfOk result (λ paths. paths ≡ edit_paths (removals from.now)) }
{
    let mut paths = Paths::new(alloc);
    for path in from {
        paths.push(path.copy(alloc)?)?;
    }
    Ok(paths)
}

/// Makes edits, all or none.
pub fn make<V: View>(view: &mut V, edits: Edits) -> Result<(), NoMemory>
    requires { Fits (V.nodes view.old) edits }
    ensures ok { OnOk result (V.nodes view.new ≡ edited (V.nodes view.old) (edits_of edits)) }
    ensures made { OnOk result (V.made view.old (edits_of edits) view.new) }
    ensures err { OnErr result (V.nodes view.new ≡ V.nodes view.old) }
    ensures made_err { OnErr result (V.made view.old [] view.new) }
{
    match edits {
        Edits::Sets(entries) => {
            view.reserve(entries.len())?;
            set_all(view, entries);
        }
        Edits::Removals(paths) => {
            view.reserve(paths.len())?;
            remove_all(view, paths);
        }
    }
    Ok(())
}

/// Gives each path its node, the first one first.
fn set_all<V: View>(view: &mut V, entries: Vec<(Path, Node)>)
    requires fits { FitsSets (V.nodes view.old) entries.items }
    requires spare { vec_len entries ≤ V.spare view.old }
    ensures nodes { V.nodes view.new ≡ edited (V.nodes view.old) (sets entries.items) }
    ensures made { V.made view.old (sets entries.items) view.new }
{
    let mut left = entries;
    left.reverse();
    'left: while !left.is_empty() {
        let (path, node) = left.pop().unwrap();
        view.set(path, node);
    }
}

/// Removes paths, the last one first, so that each one has no children when it goes.
fn remove_all<V: View>(view: &mut V, paths: Vec<Path>)
    requires fits { FitsRemovals (V.nodes view.old) paths.items }
    requires spare { vec_len paths ≤ V.spare view.old }
    ensures nodes { V.nodes view.new ≡ edited (V.nodes view.old) (removals paths.items) }
    ensures made { V.made view.old (removals paths.items) view.new }
{
    let mut left = paths;
    'left: while !left.is_empty() {
        let path = left.pop().unwrap();
        view.remove(path);
    }
}
