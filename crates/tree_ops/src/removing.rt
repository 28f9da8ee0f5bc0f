//! RM: a node, and all nodes below it.

ghost use Rattle.std.specs.Prelude.{◌≡◌, ◌∷◌, ◌++◌, true, [], IfOk, Ok};
ghost use Rattle.xs_model.specs.Paths.{child, text, names_text, path_of, is_below};
ghost use Rattle.xs_model.specs.Trees.{IsTree, is_present, all_below};
ghost use Rattle.xs_model.specs.Commands.{rm_answer, rm_absent};
ghost use Rattle.tree_ops.specs.Answers.{answer_of};
ghost use Rattle.tree_ops.specs.Walks.{IsNext};

use crate::answer::{Answer, Edits, refusal, success};
use crate::writing::absent_refusal;
use node_tree::View;
use std::alloc::Global;
use wire_codec::WireErr;
use xs_base::{Bytes, NoMemory};
use xs_path::Path;
use xs_perms::Rights;

/// RM: an absent path whose parent is there counts as removed already.
pub fn rm<V: View>(
    alloc: Global,
    rights: Rights,
    view: &V,
    path: &Path,
    absent: &[Path],
) -> Result<Answer, NoMemory>
    requires tree { IsTree (V.nodes view.now) }
    requires there { absent.now ≡ [] → is_present (V.nodes view.now) path.now ≡ true }
    ensures { IfOk result (λ answer. answer_of answer ≡ rm_answer rights absent.now (all_below (V.nodes view.now) path.now)) }
{
    match absent.len() {
        0 => rm_present(alloc, rights, view, path),
        1 => rm_leaf(alloc, rights),
        _ => Ok(absent_refusal(alloc, rights)),
    }
}

/// RM of a node that is there.
fn rm_present<V: View>(
    alloc: Global,
    rights: Rights,
    view: &V,
    path: &Path,
) -> Result<Answer, NoMemory>
    requires tree { IsTree (V.nodes view.now) }
    requires there { is_present (V.nodes view.now) path.now ≡ true }
    ensures { IfOk result (λ answer. answer_of answer ≡ rm_answer rights [] (all_below (V.nodes view.now) path.now)) }
{
    if !rights.can_write {
        return Ok(refusal(alloc, WireErr::Eacces));
    }
    let paths = all_below(alloc, view, path)?;
    success(alloc, Edits::Removals(paths))
}

/// RM of an absent path whose parent is there.
fn rm_leaf(alloc: Global, rights: Rights) -> Result<Answer, NoMemory>
    ensures { IfOk result (λ answer. answer_of answer ≡ rm_absent rights ([] ∷ [])) }
{
    if rights.can_read {
        success(alloc, Edits::Sets(Vec::new(alloc)))
    } else {
        Ok(refusal(alloc, WireErr::Eacces))
    }
}

/// A path that is there, and every present path below it, rising. Costs at most two look-ups for each of them.
fn all_below<V: View>(alloc: Global, view: &V, top: &Path) -> Result<Vec<Path>, NoMemory>
    requires tree { IsTree (V.nodes view.now) }
    requires there { is_present (V.nodes view.now) top.now ≡ true }
    ensures { IfOk result (λ paths. paths.items ≡ all_below (V.nodes view.now) top.now) }
{
    let mut paths = Vec::new(alloc);
    let mut at = top.copy(alloc)?;
    'walk: loop {
        let next = next_below(alloc, view, top, &at)?;
        paths.push(at)?;
        match next {
            Some(path) => at = path,
            None => return Ok(paths),
        }
    }
}

/// The present path behind `at` that is the next at or below `top`: the first child of `at`, or else the next one of
/// the nearest path above it that has one.
fn next_below<V: View>(
    alloc: Global,
    view: &V,
    top: &Path,
    at: &Path,
) -> Result<Option<Path>, NoMemory>
    requires tree { IsTree (V.nodes view.now) }
    requires below { is_below top.now at.now ≡ true }
    ensures { IfOk result (IsNext (V.nodes view.now) top.now at.now) }
{
    let mut up = at.copy(alloc)?;
    let mut leaf = Bytes::new(alloc);
    'up: loop {
        if let Some(name) = view.child_after(&up, leaf.as_slice()) {
            return Ok(Some(child(alloc, &up, name)?));
        }
        if up.eq(top) {
            return Ok(None);
        }
        leaf = Bytes::copy(alloc, up.leaf())?;
        up.pop();
    }
}

/// The path of a child.
fn child(alloc: Global, path: &Path, name: &[u8]) -> Result<Path, NoMemory>
    requires { path_of (text (child path.now name.now)) 0 ≡ Ok (child path.now name.now) }
    ensures { IfOk result (λ made. made ≡ child path.now name.now) }
{
    let mut bytes = Bytes::copy(alloc, names_text(path))?;
    bytes.push(b"/")?;
    bytes.push(name)?;
    match Path::read(alloc, bytes.as_slice(), 0) {
        Ok(made) => Ok(made),
        Err(_) => Err(NoMemory),
    }
}

/// The names of a path, each with a slash before it.
fn names_text(path: &Path) -> &[u8]
    ensures { result.now ≡ names_text path.now }
{
    if path.is_root() { b"" } else { path.bytes() }
}
