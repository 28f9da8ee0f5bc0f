//! DIRECTORY_PART: a list of children from an offset on (xenstore.txt).

ghost use Rattle.std.specs.Prelude.{◌≡◌, ◌≤◌, ◌+◌, [], IfOk, length, drop, nat_le, decimal};
ghost use Rattle.xs_model.specs.Messages.{strings, string};
ghost use Rattle.xs_model.specs.Trees.{children};
ghost use Rattle.xs_model.specs.Commands.{part_answer, part_of_list};
ghost use Rattle.node_tree.specs.Names.{names_above};
ghost use Rattle.tree_ops.specs.Answers.{answer_of};
ghost use Rattle.tree_ops.specs.Places.{IsWithin, IsPlaceOf};

use crate::answer::{Answer, refusal, shown};
use crate::reading::{look_fault, push_string};
use node_tree::View;
use std::alloc::Global;
use wire_codec::WireErr;
use xs_base::{Bytes, NoMemory, push_decimal};
use xs_model::message::PAYLOAD_MAX;
use xs_path::Path;
use xs_perms::Rights;

/// DIRECTORY_PART: a number, and of the list of the children's names from an offset on as many names as the reply
/// takes. Costs a look-up for each child before the offset and for each name that is given.
pub fn directory_part<V: View>(
    alloc: Global,
    rights: Rights,
    number: u64,
    offset: u64,
    view: &V,
    path: &Path,
    absent: &[Path],
) -> Result<Answer, NoMemory>
    ensures { IfOk result (λ answer. answer_of answer ≡ part_answer rights number offset (strings (children (V.nodes view.now) path.now)) absent.now) }
{
    if let Some(error) = look_fault(rights, absent) {
        return Ok(refusal(alloc, error));
    }
    let Some((last, passed)) = place(view, path, offset) else {
        return Ok(refusal(alloc, WireErr::Einval));
    };
    let head = head(alloc, number)?;
    let payload = names_from(view, path, head, last, passed)?;
    Ok(shown(alloc, payload))
}

/// Where an offset stands in the list of a path's children: the name before, which is empty for the first, and how many
/// bytes are passed of the name there. None for an offset above the length of the list.
fn place<'a, V: View>(view: &'a V, path: &Path, offset: u64) -> Option<(&'a [u8], usize)>
    ensures { IsPlaceOf (children (V.nodes view.now) path.now) offset result }
{
    let mut last: &[u8] = b"";
    let mut left = offset;
    'names: loop {
        let Some(name) = view.child_after(path, last) else {
            if left > 0 {
                return None;
            }
            return Some((last, 0));
        };
        if left <= name.len() as u64 {
            return Some((last, left as usize));
        }
        left -= name.len() as u64 + 1;
        last = name;
    }
}

/// A number as a string.
fn head(alloc: Global, number: u64) -> Result<Bytes, NoMemory>
    ensures { IfOk result (λ head. head ≡ string (decimal number)) }
{
    let mut head = Bytes::new(alloc);
    push_decimal(&mut head, number)?;
    head.push(b"\0")?;
    Ok(head)
}

/// The head of a payload and behind it, of the names of a path's children above `last`, each as a string, and an empty
/// one, as many as the payload takes. Of the first name so many bytes are passed over.
fn names_from<V: View>(
    view: &V,
    path: &Path,
    head: Bytes,
    last: &[u8],
    passed: usize,
) -> Result<Bytes, NoMemory>
    requires { IsWithin (names_above last.now (children (V.nodes view.now) path.now)) passed }
    ensures { IfOk result (λ payload. payload ≡ part_of_list head (drop passed (strings (names_above last.now (children (V.nodes view.now) path.now))))) }
{
    let mut payload = head;
    let mut last = last;
    let mut passed = passed;
    'names: loop {
        let Some(name) = view.child_after(path, last) else {
            return ended(payload);
        };
        let rest = from_byte(name, passed);
        if is_full(&payload, rest) {
            return Ok(payload);
        }
        push_string(&mut payload, rest)?;
        last = name;
        passed = 0;
    }
}

/// Whether a payload takes no further string of these bytes and a NUL.
fn is_full(payload: &Bytes, more: &[u8]) -> bool
    ensures { result ≡ nat_le PAYLOAD_MAX (length payload.now + length more.now) }
{
    payload.len().saturating_add(more.len()) >= PAYLOAD_MAX
}

/// The bytes from a place on.
fn from_byte(bytes: &[u8], place: usize) -> &[u8]
    requires { place ≤ length bytes.now }
    ensures { result.now ≡ drop place bytes.now }
{
    &bytes[place..]
}

/// A payload with the empty name behind its names, where it takes one more byte.
fn ended(payload: Bytes) -> Result<Bytes, NoMemory>
    ensures { IfOk result (λ ended. ended ≡ part_of_list payload []) }
{
    let mut payload = payload;
    if payload.len() < PAYLOAD_MAX {
        payload.push(b"\0")?;
    }
    Ok(payload)
}
