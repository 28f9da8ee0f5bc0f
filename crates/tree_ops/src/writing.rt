//! The commands that set nodes.

ghost use Rattle.std.specs.Prelude.{◌≡◌, ◌==◌, ◌||◌, not, ◌∷◌, ℕ, false, Option, IfOk, [], if◌then◌else◌};
ghost use Rattle.xs_model.specs.Perms.{created_perms};
ghost use Rattle.xs_model.specs.Commands.{Sight, creation, written_by, write_edits, set_perms_answer, set_perms_present, absent_refusal, owner_of, gives_away};
ghost use Rattle.tree_ops.specs.Answers.{answer_of, sets, value_before};

use crate::answer::{Answer, Edits, refusal, success};
use crate::look::from_place;
use node_tree::Node;
use std::alloc::Global;
use wire_codec::WireErr;
use xs_base::{Bytes, NoMemory};
use xs_path::Path;
use xs_perms::{Perm, Perms, Rights};

/// WRITE: sets the value of a node, and creates what is missing of it and above it.
pub fn write(
    alloc: Global,
    domid: u16,
    rights: Rights,
    node: &Node,
    value: &Bytes,
    path: &Path,
    absent: &[Path],
) -> Result<Answer, NoMemory>
    ensures { IfOk result (λ answer. (target : Option ℕ) (sight : Sight) → sight.node ≡ node.now
        → answer_of answer ≡ written_by rights (write_edits (record { domid = domid; target = target }) sight value.now path.now absent.now)) }
{
    if !rights.can_write {
        return Ok(refusal(alloc, WireErr::Eacces));
    }
    let entries = write_entries(alloc, domid, node, value, path, absent)?;
    success(alloc, Edits::Sets(entries))
}

/// The node that gets the value, or those that are created.
fn write_entries(
    alloc: Global,
    domid: u16,
    node: &Node,
    value: &Bytes,
    path: &Path,
    absent: &[Path],
) -> Result<Vec<(Path, Node)>, NoMemory>
    ensures { IfOk result (λ entries. (target : Option ℕ) (sight : Sight) → sight.node ≡ node.now
        → sets entries.items ≡ write_edits (record { domid = domid; target = target }) sight value.now path.now absent.now) }
{
    if absent.is_empty() {
        set_one(alloc, path, value, &node.perms)
    } else {
        create(alloc, domid, &node.perms, value.as_slice(), absent)
    }
}

/// MKDIR: creates what is missing, with empty values.
pub fn mkdir(
    alloc: Global,
    domid: u16,
    rights: Rights,
    node: &Node,
    absent: &[Path],
) -> Result<Answer, NoMemory>
    ensures { IfOk result (λ answer. answer_of answer ≡ written_by rights (creation (created_perms domid node.now.perms) [] absent.now)) }
{
    if !rights.can_write {
        return Ok(refusal(alloc, WireErr::Eacces));
    }
    let entries = create(alloc, domid, &node.perms, b"", absent)?;
    success(alloc, Edits::Sets(entries))
}

/// SET_PERMS: sets the entries of a node that is there. A guest can't give its node away.
pub fn set_perms(
    alloc: Global,
    domid: u16,
    rights: Rights,
    node: &Node,
    perms: &Perms,
    path: &Path,
    absent: &[Path],
) -> Result<Answer, NoMemory>
    ensures { IfOk result (λ answer. (target : Option ℕ)
        → answer_of answer ≡ set_perms_answer (record { domid = domid; target = target }) rights node.now perms.now path.now absent.now) }
{
    if !absent.is_empty() {
        return Ok(absent_refusal(alloc, rights));
    }
    set_perms_present(alloc, domid, rights, node, perms, path)
}

/// SET_PERMS at a node that is there.
fn set_perms_present(
    alloc: Global,
    domid: u16,
    rights: Rights,
    node: &Node,
    perms: &Perms,
    path: &Path,
) -> Result<Answer, NoMemory>
    ensures { IfOk result (λ answer. answer_of answer ≡ set_perms_present (record { domid = domid; target = None }) rights node.now perms.now path.now) }
{
    if may_not_set(domid, rights, &node.perms, perms) {
        return Ok(refusal(alloc, WireErr::Eacces));
    }
    let entries = set_one(alloc, path, &node.value, perms)?;
    success(alloc, Edits::Sets(entries))
}

/// Whether a domain may not give these entries to a node.
fn may_not_set(domid: u16, rights: Rights, old: &Perms, new: &Perms) -> bool
    ensures { result ≡ (not rights.owner || gives_away (record { domid = domid; target = None }) old.now new.now) }
{
    !rights.owner || gives_away(domid, old, new)
}

/// The refusal at an absent path.
pub fn absent_refusal(alloc: Global, rights: Rights) -> Answer
    ensures { answer_of result ≡ absent_refusal rights }
{
    let error = if rights.can_read {
        WireErr::Enoent
    } else {
        WireErr::Eacces
    };
    refusal(alloc, error)
}

/// Whether a guest would no longer own its node.
fn gives_away(domid: u16, old: &Perms, new: &Perms) -> bool
    ensures { result ≡ gives_away (record { domid = domid; target = None }) old.now new.now }
{
    domid != 0 && owner_of(new) != owner_of(old)
}

/// The domain of the first entry.
fn owner_of(perms: &Perms) -> u16
    ensures { result ≡ owner_of perms.now }
{
    match perms.as_slice().first() {
        Some(first) => first.domid,
        None => 0,
    }
}

/// One path, and a node with this value and these entries.
fn set_one(
    alloc: Global,
    path: &Path,
    value: &Bytes,
    perms: &Perms,
) -> Result<Vec<(Path, Node)>, NoMemory>
    ensures { IfOk result (λ entries. entries.items ≡ (path.now, record { value = value.now; perms = perms.now }) ∷ []) }
{
    let mut entries = Vec::new(alloc);
    let value = Bytes::copy(alloc, value.as_slice())?;
    let node = Node::new(value, perms.copy()?);
    entries.push((path.copy(alloc)?, node))?;
    Ok(entries)
}

/// Nodes for the absent paths on the way down, below a node with these entries: empty ones, and the last with the
/// value.
fn create(
    alloc: Global,
    domid: u16,
    above: &Perms,
    value: &[u8],
    absent: &[Path],
) -> Result<Vec<(Path, Node)>, NoMemory>
    ensures { IfOk result (λ entries. sets entries.items ≡ creation (created_perms domid above.now) value.now absent.now) }
{
    let perms = created_perms(alloc, domid, above)?;
    new_nodes(alloc, &perms, value, absent)
}

/// Nodes with these entries: empty ones, and the last with the value.
fn new_nodes(
    alloc: Global,
    perms: &Perms,
    value: &[u8],
    absent: &[Path],
) -> Result<Vec<(Path, Node)>, NoMemory>
    ensures { IfOk result (λ entries. sets entries.items ≡ creation perms.now value.now absent.now) }
{
    let mut entries = Vec::new(alloc);
    for (place, path) in absent.iter().enumerate() {
        let value = value_before(value, from_place(absent, place + 1));
        let node = Node::new(Bytes::copy(alloc, value)?, perms.copy()?);
        entries.push((path.copy(alloc)?, node))?;
    }
    Ok(entries)
}

/// The value of a new node, by the paths that follow.
fn value_before<'a>(value: &'a [u8], later: &[Path]) -> &'a [u8]
    ensures { result.now ≡ value_before value.now later.now }
{
    if later.is_empty() { value } else { b"" }
}

/// The entries of a node that a domain creates below one with these: a guest owns what it creates.
fn created_perms(alloc: Global, domid: u16, above: &Perms) -> Result<Perms, NoMemory>
    ensures { IfOk result (λ perms. perms ≡ created_perms domid above.now) }
{
    let entries = above.as_slice();
    let mut perms = Perms::new(alloc);
    if entries.is_empty() {
        return Ok(perms);
    }
    perms.push(owned(domid, entries[0]))?;
    for entry in &entries[1..] {
        perms.push(*entry)?;
    }
    Ok(perms)
}

/// The first entry of a node that a domain creates below one with this first entry.
fn owned(domid: u16, first: Perm) -> Perm
    ensures { result ≡ (if domid == 0 then first else record { letter = first.letter; stale = false; domid = domid }) }
{
    if domid == 0 {
        return first;
    }
    Perm {
        letter: first.letter,
        stale: false,
        domid,
    }
}
