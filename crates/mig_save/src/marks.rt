//! The records of what transactions keep.

ghost use Rattle.std.specs.Prelude.{◌≡◌, ◌<◌, ◌++◌, OnOk};
ghost use Rattle.std.specs.Option.{option_copied};
ghost use Rattle.kept_model.specs.Sound.{FoundFits, NodesFit, MarksFit};
ghost use Rattle.kept_model.specs.Images.{access_number};
ghost use Rattle.txn_access.specs.Entries.{entry_at};
ghost use Rattle.mig_save.specs.Told.{told_access, told_node, told_text, ToldFits};
ghost use Rattle.mig_save.specs.Texts.{marks_text, txns_text, all_marks_text, TxnsFit, AllTxnsFit};

use crate::nodes::write_found;
use crate::scratch::Scratch;
use crate::transactions::txns_of;
use conn_rows::Rows;
use node_tree::{Node, Tree, View};
use store_parts::Conns;
use txn_access::{Entries, EntryKind, Txn};
use xs_base::{Bytes, NoMemory};
use xs_path::Path;

/// The highest bit of an access says that others changed the path.
const OTHERS: u16 = 32768;

/// The access of a path that the transaction did not touch, and others changed.
const UNTOUCHED: u16 = 49152;

fn with_others(changed: bool, low: u16) -> u16
    requires { low < 32768 }
    ensures { result ≡ access_number changed low }
{
    if changed { low + OTHERS } else { low }
}

fn access_of(kind: EntryKind, changed: bool) -> u16
    ensures { result ≡ told_access kind changed }
{
    match kind {
        EntryKind::Seen => with_others(changed, 1),
        EntryKind::Wrote => with_others(changed, 2),
        EntryKind::Gone => with_others(changed, 0),
        EntryKind::Kept => UNTOUCHED,
    }
}

/// The node that a mark's record tells: where the path was looked at and nobody changed it, the one that stands there.
/// O(log nodes) comparisons of paths.
pub fn node_told<'a>(
    tree: &'a Tree,
    path: &Path,
    kind: EntryKind,
    changed: bool,
    node: Option<&'a Node>,
) -> Option<&'a Node>
    ensures { option_copied result ≡ told_node tree.now.nodes path.now kind changed (option_copied node.entry) }
{
    match kind {
        EntryKind::Seen => if changed { node } else { tree.node(path) },
        EntryKind::Wrote => node,
        EntryKind::Gone => node,
        EntryKind::Kept => node,
    }
}

/// Appends the record of a mark that is told so. O(its bytes and entries), and O(log nodes) comparisons of paths.
fn write_told(
    out: &mut Bytes,
    scratch: &mut Scratch,
    tree: &Tree,
    conn: u32,
    tx: u32,
    told: (&Path, EntryKind, bool, Option<&Node>),
) -> Result<(), NoMemory>
    requires { ToldFits tree.now.nodes (entry_at told) }
    ensures { OnOk result (out.new ≡ out.old ++ told_text tree.now.nodes conn tx (entry_at told.entry)) }
{
    let (path, kind, changed, node) = told;
    let access = access_of(kind, changed);
    let node = node_told(tree, path, kind, changed, node);
    write_found(out, scratch, conn, tx, access, path, node)
}

/// Appends the records of the marks of a transaction that are still to come. O(their bytes and entries), and O(log
/// nodes) comparisons of paths each.
fn write_entries(
    out: &mut Bytes,
    scratch: &mut Scratch,
    tree: &Tree,
    conn: u32,
    tx: u32,
    entries: Entries<'_>,
) -> Result<(), NoMemory>
    requires nodes { NodesFit tree.now.nodes }
    requires marks { MarksFit entries }
    ensures { OnOk result (out.new ≡ out.old ++ marks_text tree.now.nodes conn tx entries.entry) }
{
    let mut left = entries;
    'marks: while let Some(told) = left.next_entry() {
        write_told(out, scratch, tree, conn, tx, told)?;
    }
    Ok(())
}

/// Appends the records of what the transactions of a connection keep.
fn write_each(
    out: &mut Bytes,
    scratch: &mut Scratch,
    tree: &Tree,
    conn: u32,
    txns: &[(u32, Txn)],
) -> Result<(), NoMemory>
    requires nodes { NodesFit tree.now.nodes }
    requires marks { TxnsFit txns.now }
    ensures { OnOk result (out.new ≡ out.old ++ txns_text tree.now.nodes conn txns.now) }
{
    for entry in txns {
        write_entries(out, scratch, tree, conn, entry.0, entry.1.entries())?;
    }
    Ok(())
}

/// Appends the records of what the transactions of all connections keep. O(log connections) a connection, O(log nodes)
/// comparisons of paths a mark, and O(their bytes and entries).
pub fn write_marks(
    out: &mut Bytes,
    scratch: &mut Scratch,
    conns: &Conns,
    rows: &Rows,
    tree: &Tree,
) -> Result<(), NoMemory>
    requires nodes { NodesFit tree.now.nodes }
    requires marks { AllTxnsFit conns.now rows.now.txns }
    ensures { OnOk result (out.new ≡ out.old ++ all_marks_text conns.now tree.now.nodes rows.now.txns) }
{
    for entry in conns.entries() {
        write_each(out, scratch, tree, entry.0, txns_of(rows, entry.0))?;
    }
    Ok(())
}
