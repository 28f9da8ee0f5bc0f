//! A commit, once it has all its memory: sets from the first path to the last, then removals from the last to the first.

ghost use Rattle.std.specs.Prelude.{◌≡◌, ◌≤◌, ◌+◌, [], ◌++◌, ⊤, length, vec_len, vec_capacity};
ghost use Rattle.mark_model.specs.Marks.{edits_by, written, written_paths};
ghost use Rattle.node_tree.specs.Made.{IsMade};
ghost use Rattle.txn_access.specs.Plans.{wrote, gone, gone_paths, written_here, edits_at, FitsSets, FitsGone};
ghost use Rattle.xs_model.specs.Commands.{removals};

use crate::mark::{Held, Mark};
use node_tree::{Tree, View};
use path_map::PathMap;
use xs_path::Path;

/// Sets what was written, and gives the paths that are to be removed.
pub fn set_all(tree: &mut Tree, map: PathMap<Held>, gone: Vec<Path>) -> Vec<Path>
    requires fits { FitsSets tree.old.nodes (edits_by wrote map.entries) }
    requires spare { length (written_paths map.entries) ≤ tree.old.spare }
    requires room { length (written_paths map.entries) ≤ vec_capacity gone }
    requires none { gone.items ≡ [] }
    ensures made { IsMade tree.old (edits_by wrote map.entries) tree.new }
    ensures gone { result.items ≡ gone_paths map.entries }
{
    let mut left = map;
    let mut gone = gone;
    'left: while let Some((path, held)) = left.pop_first() {
        set_one(tree, path, held, &mut gone);
    }
    gone
}

fn set_one(tree: &mut Tree, path: Path, held: Held, list: &mut Vec<Path>)
    requires fits { FitsSets tree.old.nodes (edits_at path (wrote held)) }
    requires spare { length (written_here path (written held)) ≤ tree.old.spare }
    requires room { vec_len list.old + length (written_here path (written held)) ≤ vec_capacity list.old }
    ensures made { IsMade tree.old (edits_at path (wrote held)) tree.new }
    ensures spare { tree.old.spare ≤ tree.new.spare + length (written_here path (written held)) }
    ensures gone { list.new.items ≡ list.old.items ++ written_here path (gone held) }
    ensures len { vec_len list.new ≤ vec_len list.old + length (written_here path (written held)) }
    ensures capacity { vec_capacity list.old ≤ vec_capacity list.new }
{
    match held.mark {
        Mark::Seen => {}
        Mark::Changed(_) => {}
        Mark::Wrote { node, .. } => tree.set(path, node),
        Mark::Gone { .. } => list.push(path).unwrap(),
        Mark::Kept(_) => {}
    }
}

/// Removes paths, the last one first, so that each has no children when it goes.
pub fn remove_all(tree: &mut Tree, gone: Vec<Path>)
    requires { FitsGone tree.old.nodes gone.items }
    ensures { IsMade tree.old (removals gone.items) tree.new }
{
    let mut left = gone;
    'left: while !left.is_empty() {
        let path = left.pop().unwrap();
        tree.remove(path);
    }
}
