//! The commands that give data of a node.

ghost use Rattle.std.specs.Prelude.{◌≡◌, ◌++◌, ℕ, List, IfOk, OnOk, map};
ghost use Rattle.xs_model.specs.Messages.{strings, string};
ghost use Rattle.xs_model.specs.Perms.{perm_text};
ghost use Rattle.xs_model.specs.Trees.{children};
ghost use Rattle.xs_model.specs.Commands.{looked_up, part_answer, sized};
ghost use Rattle.tree_ops.specs.Answers.{answer_of, look_answer, part_given};

use crate::answer::{Answer, refusal, shown};
use node_tree::{Node, View};
use std::alloc::Global;
use wire_codec::WireErr;
use xs_base::{Bytes, NoMemory};
use xs_model::message::PAYLOAD_MAX;
use xs_path::Path;
use xs_perms::{Perms, Rights, print_perm};

/// READ: the value of the node.
pub fn read(alloc: Global, rights: Rights, node: &Node, absent: &[Path]) -> Result<Answer, NoMemory>
    ensures { IfOk result (λ answer. answer_of answer ≡ looked_up rights node.now.value absent.now) }
{
    if let Some(error) = look_fault(rights, absent) {
        return Ok(refusal(alloc, error));
    }
    let value = Bytes::copy(alloc, node.value.as_slice())?;
    Ok(shown(alloc, value))
}

/// GET_PERMS: the entries of the node, each as a string.
pub fn get_perms(
    alloc: Global,
    rights: Rights,
    node: &Node,
    absent: &[Path],
) -> Result<Answer, NoMemory>
    ensures { IfOk result (λ answer. answer_of answer ≡ looked_up rights (strings (map perm_text node.now.perms)) absent.now) }
{
    if let Some(error) = look_fault(rights, absent) {
        return Ok(refusal(alloc, error));
    }
    let payload = perms_payload(alloc, &node.perms)?;
    Ok(shown(alloc, payload))
}

/// DIRECTORY: the names of the children, each as a string. Costs a look-up for each child, until there are more bytes
/// than a payload may have.
pub fn directory<V: View>(
    alloc: Global,
    rights: Rights,
    view: &V,
    path: &Path,
    absent: &[Path],
) -> Result<Answer, NoMemory>
    ensures { IfOk result (λ answer. answer_of answer ≡ looked_up rights (strings (children (V.nodes view.now) path.now)) absent.now) }
{
    if let Some(error) = look_fault(rights, absent) {
        return Ok(refusal(alloc, error));
    }
    let payload = names_payload(alloc, view, path)?;
    Ok(shown(alloc, payload))
}

/// What refuses data of a node, if anything: whoever may not read the nearest node does not learn that the path is
/// absent.
pub fn look_fault(rights: Rights, absent: &[Path]) -> Option<WireErr>
    ensures data { (payload : List ℕ) → looked_up rights payload absent.now ≡ look_answer result payload }
    ensures part { (number offset : ℕ) (list : List ℕ) → part_answer rights number offset list absent.now ≡ part_given result number offset list }
{
    if !rights.can_read {
        Some(WireErr::Eacces)
    } else if absent.is_empty() {
        None
    } else {
        Some(WireErr::Enoent)
    }
}

/// Entries, each as a string.
fn perms_payload(alloc: Global, perms: &Perms) -> Result<Bytes, NoMemory>
    ensures { IfOk result (λ payload. payload ≡ strings (map perm_text perms.now)) }
{
    let mut payload = Bytes::new(alloc);
    for perm in perms.as_slice() {
        let mut text = [0u8; 6];
        let len = print_perm(*perm, &mut text);
        push_string(&mut payload, &text[..len])?;
    }
    Ok(payload)
}

/// The names of a path's children, each as a string, or so many of them that they are longer than a payload may be.
fn names_payload<V: View>(alloc: Global, view: &V, path: &Path) -> Result<Bytes, NoMemory>
    ensures { IfOk result (λ payload. sized payload ≡ sized (strings (children (V.nodes view.now) path.now))) }
{
    let mut payload = Bytes::new(alloc);
    let mut last: &[u8] = b"";
    'names: while payload.len() <= PAYLOAD_MAX {
        let Some(name) = view.child_after(path, last) else {
            return Ok(payload);
        };
        push_string(&mut payload, name)?;
        last = name;
    }
    Ok(payload)
}

/// Appends bytes as a string.
pub fn push_string(payload: &mut Bytes, bytes: &[u8]) -> Result<(), NoMemory>
    ensures { OnOk result (payload.new ≡ payload.old ++ string bytes.now) }
{
    payload.push(bytes)?;
    payload.push(b"\0")
}
