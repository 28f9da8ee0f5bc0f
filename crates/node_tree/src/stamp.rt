//! Numbers for changed paths.

ghost use Rattle.std.specs.Prelude.{◌≡◌, ◌||◌, true, is_some, if◌then◌else◌};
ghost use Rattle.std.specs.FinMap.{find, is_sorted};
ghost use Rattle.xs_model.specs.Paths.{path_cmp};
ghost use Rattle.xs_model.specs.Generations.{next_generation};
ghost use Rattle.node_tree.specs.KeptTree.{gens_of};
ghost use Rattle.node_tree.specs.Numbers.{one_has, with_number, with_numbers};

use crate::entry::Entry;
use path_map::PathMap;
use xs_path::{Path, Paths};

/// The last number of 48 bits.
const GENERATION_MAX: u64 = 281474976710655;

/// One more, or the last number.
pub fn next_generation(number: u64) -> u64
    ensures { result ≡ next_generation number }
{
    if number < GENERATION_MAX {
        number + 1
    } else {
        GENERATION_MAX
    }
}

/// Gives each of these paths that is there a number, and says whether one is.
pub fn stamp_all(map: &mut PathMap<Entry>, changed: &Paths, number: u64) -> bool
    ensures map { map.new ≡ record map.old { entries = with_numbers changed.now number map.old.entries } }
    ensures found { result ≡ one_has changed.now (gens_of map.old.entries) }
    ensures rising { is_sorted path_cmp map.old.entries ≡ true }
{
    map.is_rising();
    let mut found = false;
    for path in changed.as_slice() {
        found = either(found, stamp_one(map, path, number));
    }
    found
}

/// Gives a path that is there a number, and says whether it is.
fn stamp_one(map: &mut PathMap<Entry>, path: &Path, number: u64) -> bool
    ensures map { map.new ≡ record map.old { entries = with_number path.now number map.old.entries (find path_cmp path.now map.old.entries) } }
    ensures found { result ≡ is_some (find path_cmp path.now (gens_of map.old.entries)) }
    ensures rising { is_sorted path_cmp map.old.entries ≡ true }
{
    match map.get_mut(path) {
        Some(entry) => {
            entry.generation = number;
            true
        }
        None => false,
    }
}

fn either(one: bool, other: bool) -> bool
    ensures { result ≡ (one || other) }
{
    one || other
}

/// The first of two numbers, or the other.
pub fn chosen(first: bool, number: u64, other: u64) -> u64
    ensures { result ≡ (if first then number else other) }
{
    if first { number } else { other }
}
