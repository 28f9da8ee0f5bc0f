//! The way down to a path.

ghost use Rattle.std.specs.Prelude.{◌≡◌, ◌≤◌, ◌∷◌, [], Some, length, take, drop, reverse, IfOk, OnOk, true, false};
ghost use Rattle.xs_model.specs.Paths.{way_down};
ghost use Rattle.xs_model.specs.Trees.{IsTree, node_at, is_present};
ghost use Rattle.xs_model.specs.Commands.{nearest_of, absent_of};
ghost use Rattle.tree_ops.specs.Ways.{IsNearest};

use node_tree::{Node, View};
use std::alloc::Global;
use xs_base::NoMemory;
use xs_path::{Path, Paths};

/// The nearest present path at or above a path, and the absent ones from there down to it. Costs one look-up where the
/// path is there, and else O(log names) of them and O(bytes) for each path that is given.
pub fn look<V: View>(alloc: Global, view: &V, path: &Path) -> Result<Paths, NoMemory>
    ensures way { IfOk result (λ way. way ≡ nearest_of (V.nodes view.now) [] (way_down [] path.now) ∷ absent_of (V.nodes view.now) (way_down [] path.now)) }
    ensures tree { OnOk result (IsTree (V.nodes view.now)) }
{
    if is_there(view, path) {
        return alone(alloc, path);
    }
    let depth = path.depth();
    let names = nearest(alloc, view, path, depth)?;
    let ups = upward(alloc, path, depth, names)?;
    reversed(alloc, ups)
}

/// The path alone.
fn alone(alloc: Global, path: &Path) -> Result<Paths, NoMemory>
    ensures { IfOk result (λ way. way ≡ path.now ∷ []) }
{
    let mut way = Paths::new(alloc);
    way.push(path.copy(alloc)?)?;
    Ok(way)
}

/// The number of names of the nearest present path above one that is absent. What is above a present path is present, so
/// the search halves what is left; it begins next to the path, where most paths have their nearest one.
fn nearest<V: View>(alloc: Global, view: &V, path: &Path, depth: usize) -> Result<usize, NoMemory>
    requires tree { IsTree (V.nodes view.now) }
    requires absent { is_present (V.nodes view.now) path.now ≡ false }
    requires depth { depth ≡ length path.now }
    ensures { IfOk result (IsNearest (V.nodes view.now) path.now) }
{
    let mut present = 0;
    let mut highest = depth - 1;
    let mut step = 0;
    'halves: while present < highest {
        let up = usize::min(step, (highest - present) / 2);
        if has_first(alloc, view, path, highest - up)? {
            present = highest - up;
        } else {
            highest -= up + 1;
            step = 2 * up + 1;
        }
    }
    Ok(present)
}

/// Whether the first so many names of a path lead to a node.
fn has_first<V: View>(alloc: Global, view: &V, path: &Path, names: usize) -> Result<bool, NoMemory>
    ensures { IfOk result (λ found. found ≡ is_present (V.nodes view.now) (take names path.now)) }
{
    let first = path.prefix(alloc, names)?;
    Ok(is_there(view, &first))
}

/// Whether a path has a node.
fn is_there<V: View>(view: &V, path: &Path) -> bool
    ensures found { result ≡ is_present (V.nodes view.now) path.now }
    ensures tree { IsTree (V.nodes view.now) }
{
    view.node(path).is_some()
}

/// The paths from a path up to its first so many names.
fn upward(alloc: Global, path: &Path, depth: usize, names: usize) -> Result<Vec<Path>, NoMemory>
    requires depth { depth ≡ length path.now }
    requires names { names ≤ length path.now }
    ensures { IfOk result (λ ups. reverse ups.items ≡ way_down (take names path.now) (drop names path.now)) }
{
    let mut ups = Vec::new(alloc);
    let mut up = path.copy(alloc)?;
    let mut at = depth;
    'ups: while at > names {
        ups.push(up.copy(alloc)?)?;
        up.pop();
        at -= 1;
    }
    ups.push(up)?;
    Ok(ups)
}

/// The paths, the last one first.
fn reversed(alloc: Global, paths: Vec<Path>) -> Result<Paths, NoMemory>
    ensures { IfOk result (λ way. way ≡ reverse paths.items) }
{
    let mut left = paths;
    let mut way = Paths::new(alloc);
    'left: while let Some(path) = left.pop() {
        way.push(path)?;
    }
    Ok(way)
}

/// The node of a path that is there.
pub fn present<'a, V: View>(view: &'a V, path: &Path) -> &'a Node
    requires { is_present (V.nodes view.now) path.now ≡ true }
    ensures { node_at (V.nodes view.now) path.now ≡ Some result.now }
{
    view.node(path).unwrap()
}

/// The paths from a place on.
pub fn from_place(paths: &[Path], place: usize) -> &[Path]
    requires { place ≤ length paths.now }
    ensures { result.now ≡ drop place paths.now }
{
    &paths[place..]
}
