//! The entries of a record, and the node that it tells, or none.

ghost use Rattle.std.specs.Prelude.{◌≡◌, ◌≤◌, ◌&&◌, not, IfOk};
ghost use Rattle.kept_model.specs.Said.{letter_of, stale_of, perm_of, perms_of, is_empty, found_in, found_by, lacks_entries, node_or_none};
ghost use Rattle.txn_normal.specs.Views.{access_view};
ghost use Rattle.stream_model.specs.Record.{generation_in};
ghost use Rattle.xs_model.specs.Generations.{generation_max};

use mig_records::{RawPerm, RawPerms};
use node_tree::Node;
use std::alloc::Global;
use std::marker::Model;
use txn_normal::Access;
use xs_base::{Bytes, NoMemory};
use xs_perms::{Letter, Perm, Perms};

/// A record of a node, but for its kind.
#[derive(Drop)]
pub struct NodeRecord {
    pub conn: u32,
    pub tx: u32,
    pub access: u16,
    pub perms: RawPerms,
    pub path: Bytes,
    pub value: Bytes,
}

impl Model for NodeRecord {
    ghost use Rattle.stream_model.specs.Record.{NodeData};

    ghost Value = { NodeData };

    ghost view = { λ node. record {
      conn = node.conn;
      tx = node.tx;
      access = node.access;
      perms = node.perms;
      path = node.path;
      value = node.value;
    } };
}

fn letter_of(byte: u8) -> Option<Letter>
    ensures { result ≡ letter_of byte }
{
    match byte {
        b'w' => Some(Letter::W),
        b'r' => Some(Letter::R),
        b'b' => Some(Letter::B),
        b'n' => Some(Letter::N),
        _ => None,
    }
}

fn stale_of(flags: u8) -> Option<bool>
    ensures { result ≡ stale_of flags }
{
    match flags {
        0 => Some(false),
        1 => Some(true),
        _ => None,
    }
}

fn perm_of(raw: RawPerm) -> Option<Perm>
    ensures { result ≡ perm_of raw }
{
    let letter = letter_of(raw.letter)?;
    let stale = stale_of(raw.flags)?;
    Some(Perm {
        letter,
        stale,
        domid: raw.domid,
    })
}

/// The entries, or none if one of them has an unknown letter or flag. O(their number).
pub fn perms_of(alloc: Global, raws: &[RawPerm]) -> Result<Option<Perms>, NoMemory>
    ensures { IfOk result (λ perms. perms ≡ perms_of raws.now) }
{
    let mut perms = Perms::new(alloc);
    for raw in raws {
        let Some(perm) = perm_of(*raw) else {
            return Ok(None);
        };
        perms.push(perm)?;
    }
    Ok(Some(perms))
}

/// The node of this value and these entries; where there are no entries, none.
fn node_or_none(value: Bytes, perms: Perms) -> Option<Node>
    ensures { result ≡ node_or_none value perms }
{
    if perms.is_empty() {
        return None;
    }
    Some(Node::new(value, perms))
}

/// The node that a record tells, or that there is none; nothing where an entry has an unknown letter or flag.
fn found_in(alloc: Global, node: NodeRecord) -> Result<Option<Option<Node>>, NoMemory>
    ensures { IfOk result (λ found. found ≡ found_in node) }
{
    let Some(perms) = perms_of(alloc, node.perms.as_slice())? else {
        return Ok(None);
    };
    Ok(Some(node_or_none(node.value, perms)))
}

/// The same, by what was done at its path: a removal tells of no node, whatever its record has.
pub fn found_by(
    alloc: Global,
    access: Access,
    node: NodeRecord,
) -> Result<Option<Option<Node>>, NoMemory>
    ensures { IfOk result (λ found. found ≡ found_by (access_view access) node) }
{
    match access {
        Access::Looked { .. } => found_in(alloc, node),
        Access::Gave { .. } => found_in(alloc, node),
        Access::Removed { .. } => Ok(Some(None)),
        Access::Untouched => found_in(alloc, node),
    }
}

/// Whether there is a value without entries.
fn has_value_alone(node: &NodeRecord) -> bool
    ensures { result ≡ (is_empty node.now.perms && not (is_empty node.now.value)) }
{
    node.perms.is_empty() && !node.value.is_empty()
}

/// Whether a record lacks the entries that it must have: of a node that was given, or of one that has a value.
pub fn lacks_entries(access: Access, node: &NodeRecord) -> bool
    ensures { result ≡ lacks_entries (access_view access) node.now }
{
    match access {
        Access::Looked { .. } => has_value_alone(node),
        Access::Gave { .. } => node.perms.is_empty(),
        Access::Removed { .. } => false,
        Access::Untouched => has_value_alone(node),
    }
}

/// The number of a node of the store.
pub fn generation_in(node: &NodeRecord) -> u64
    ensures value { result ≡ generation_in node.now }
    ensures small { result ≤ generation_max }
{
    u64::from(node.tx) + 4294967296 * u64::from(node.access)
}
