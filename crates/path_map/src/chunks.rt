//! Lists of chunks: where a path belongs, and room for an entry there.

ghost use Rattle.std.specs.Prelude.{◌≡◌, ◌+◌, ◌*◌, ◌<◌, ◌≤◌, true, [], ◌∷◌, length, vec_len, vec_capacity, OnOk, max};
ghost use Rattle.std.specs.FinMap.{is_sorted};
ghost use Rattle.std.specs.List.{All, HoldsAt};
ghost use Rattle.xs_model.specs.Paths.{path_cmp};
ghost use Rattle.path_map.specs.Map.{without};
ghost use Rattle.path_map.specs.Chunks.{full, half, joined, debt, halved, IsRangeFor, IsLaidOut};

use crate::chunk::Chunk;
use std::alloc::Global;
use xs_base::NoMemory;
use xs_path::Path;

/// The chunk to which a path belongs, of those from `low` to before `high`. One comparison where that is the last one.
pub fn chunk_between<T>(chunks: &[Chunk<T>], path: &Path, low: usize, high: usize) -> usize
    requires rising { is_sorted path_cmp (joined chunks.now) ≡ true }
    requires filled { All (λ c. 0 < length c) chunks.now }
    requires range { IsRangeFor path.now chunks.now low high }
    ensures low { low ≤ result }
    ensures high { result < high }
    ensures range { IsRangeFor path.now chunks.now result (result + 1) }
{
    if low + 1 < high && !chunks[high - 1].begins_behind(path) {
        return high - 1;
    }
    let mut from = low;
    let mut to = high;
    'halves: while from + 1 < to {
        let middle = from + (to - from) / 2;
        if chunks[middle].begins_behind(path) {
            to = middle;
        } else {
            from = middle;
        }
    }
    from
}

/// The chunk to which a path belongs. Costs O(log chunks) comparisons of paths.
pub fn chunk_of<T>(chunks: &[Chunk<T>], path: &Path) -> usize
    requires rising { is_sorted path_cmp (joined chunks.now) ≡ true }
    requires some { 0 < length chunks.now }
    requires filled { All (λ c. 0 < length c) chunks.now }
    ensures { IsRangeFor path.now chunks.now result (result + 1) }
{
    chunk_between(chunks, path, 0, chunks.len())
}

/// The chunk to which a path belongs, with room for an entry: a full one is split in two. Takes no memory.
pub fn make_room<T: Drop>(
    chunks: &mut Vec<Chunk<T>>,
    spare: &mut Vec<Chunk<T>>,
    path: &Path,
) -> usize
    requires rising { is_sorted path_cmp (joined chunks.old.items) ≡ true }
    requires some { 0 < vec_len chunks.old }
    requires laid_out { IsLaidOut chunks.old.items spare.old.items (vec_capacity chunks.old) }
    requires spare { 0 < vec_len spare.old }
    ensures joined { joined chunks.new.items ≡ joined chunks.old.items }
    ensures laid_out { IsLaidOut chunks.new.items spare.new.items (vec_capacity chunks.new) }
    ensures range { IsRangeFor path.now chunks.new.items result (result + 1) }
    ensures space { HoldsAt (λ c. length c < full) chunks.new.items result }
    ensures spare { vec_len spare.old ≤ vec_len spare.new + 1 }
    ensures kept { vec_len spare.new ≤ vec_len spare.old }
    ensures debt { half * vec_len spare.old + debt chunks.new.items ≤ half * vec_len spare.new + debt chunks.old.items }
{
    let at = chunk_of(chunks, path);
    if !chunks[at].is_full() {
        return at;
    }
    let back = spare.pop().unwrap();
    split(chunks, at, back);
    chunk_between(chunks, path, at, at + 2)
}

/// Makes the first entry of a map that has none. Takes no memory.
pub fn begin<T: Drop>(chunks: &mut Vec<Chunk<T>>, spare: &mut Vec<Chunk<T>>, path: Path, item: T)
    requires none { vec_len chunks.old ≡ 0 }
    requires laid_out { IsLaidOut chunks.old.items spare.old.items (vec_capacity chunks.old) }
    requires spare { 0 < vec_len spare.old }
    ensures one { chunks.new.items ≡ ((path, item) ∷ []) ∷ [] }
    ensures laid_out { IsLaidOut chunks.new.items spare.new.items (vec_capacity chunks.new) }
    ensures spare { vec_len spare.old ≡ vec_len spare.new + 1 }
{
    let mut first = spare.pop().unwrap();
    first.put(path, item);
    chunks.push(first).unwrap();
}

/// Splits a full chunk in two, of which the back one was empty.
fn split<T: Drop>(chunks: &mut Vec<Chunk<T>>, at: usize, back: Chunk<T>)
    requires within { at < vec_len chunks.old }
    requires filled { HoldsAt (λ c. half < length c) chunks.old.items at }
    requires empty { length back ≡ 0 }
    requires space { vec_len chunks.old < vec_capacity chunks.old }
    ensures halved { chunks.new.items ≡ halved chunks.old.items at }
    ensures len { HoldsAt (λ c. length c ≤ half) chunks.new.items (at + 1) }
    ensures capacity { vec_capacity chunks.old ≤ vec_capacity chunks.new }
{
    let mut back = back;
    chunks[at].split_into(&mut back);
    chunks.insert(at + 1, back).unwrap();
}

/// Takes the item of a path away, if there is one. Takes no memory.
pub fn remove<T: Drop>(chunks: &mut Vec<Chunk<T>>, path: &Path)
    requires rising { is_sorted path_cmp (joined chunks.old.items) ≡ true }
    requires some { 0 < vec_len chunks.old }
    requires filled { All (λ c. 0 < length c) chunks.old.items }
    ensures joined { joined chunks.new.items ≡ without path.now (joined chunks.old.items) }
    ensures filled { All (λ c. 0 < length c) chunks.new.items }
    ensures len { vec_len chunks.new ≤ vec_len chunks.old }
    ensures capacity { vec_capacity chunks.new ≡ vec_capacity chunks.old }
    ensures debt { debt chunks.new.items ≤ debt chunks.old.items }
{
    let at = chunk_of(chunks, path);
    chunks[at].remove(path);
    if chunks[at].is_empty() {
        let _chunk = chunks.remove(at);
    }
}

/// Takes the first entry away. Takes no memory.
pub fn pop_first<T: Drop>(chunks: &mut Vec<Chunk<T>>) -> (Path, T)
    requires some { 0 < vec_len chunks.old }
    requires filled { All (λ c. 0 < length c) chunks.old.items }
    ensures joined { joined chunks.old.items ≡ result ∷ joined chunks.new.items }
    ensures filled { All (λ c. 0 < length c) chunks.new.items }
    ensures len { vec_len chunks.new ≤ vec_len chunks.old }
    ensures capacity { vec_capacity chunks.new ≡ vec_capacity chunks.old }
{
    let first = chunks[0].pop_first();
    if chunks[0].is_empty() {
        let _chunk = chunks.remove(0);
    }
    first
}

/// Makes empty chunks until there are so many.
pub fn fill<T: Drop>(alloc: Global, spare: &mut Vec<Chunk<T>>, count: usize) -> Result<(), NoMemory>
    requires { All (λ c. length c ≡ 0) spare.old.items }
    ensures ok { OnOk result (count ≤ vec_len spare.new) }
    ensures unused { All (λ c. length c ≡ 0) spare.new.items }
    ensures more { vec_len spare.old ≤ vec_len spare.new }
    ensures bound { vec_len spare.new ≤ max (vec_len spare.old) count }
{
    'chunks: while spare.len() < count {
        spare.push(Chunk::new(alloc)?)?;
    }
    Ok(())
}
