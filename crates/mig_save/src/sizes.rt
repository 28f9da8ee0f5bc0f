//! How many bytes the records of an image have, kind by kind, so that its memory is taken at once. A number of bytes that
//! no memory has is refused as the memory is.

ghost use Rattle.std.specs.Prelude.{◌≡◌, ◌+◌, ◌*◌, ◌≤◌, ◌<◌, ◌^◌, ℕ, Some, length, IfOk, slice_get};
ghost use Rattle.std.specs.Option.{option_copied};
ghost use Rattle.xs_model.specs.Paths.{text};
ghost use Rattle.stream_model.specs.Spelling.{whole_size, canonical_record};
ghost use Rattle.kept_model.specs.Sound.{NodeFits, FoundFits, NodesFit, MarksFit};
ghost use Rattle.kept_model.specs.Images.{value_in, perms_in, watch_record, found_record};
ghost use Rattle.watch_table.specs.Tables.{Made, watch_of, watches_in};
ghost use Rattle.watchers.specs.Watched.{watches_of};
ghost use Rattle.txn_access.specs.Entries.{entry_at};
ghost use Rattle.mig_save.specs.Told.{told_node, told_text, ToldFits};
ghost use Rattle.mig_save.specs.Texts.{connection_data_of, connection_text, connections_text, DataFits, ConnectionsFit, watches_text, all_watches_text, transactions_text, all_transactions_text, entry_text, nodes_text, tree_text, EntriesFit, marks_text, txns_text, all_marks_text, TxnsFit, AllTxnsFit};

use crate::connections::{bytes_in, unsent_in};
use crate::marks::node_told;
use crate::nodes::{perms_in, value_in};
use crate::transactions::txns_of;
use conn_rows::Rows;
use conn_table::ConnSpec;
use msg_reassembly::Ins;
use node_tree::{Entry, Node, Tree};
use path_map::Walk;
use store_parts::Conns;
use txn_access::{Entries, EntryKind, Txn};
use watchers::{Watchers, Watches};
use xs_base::NoMemory;
use xs_path::Path;

/// The bytes of the record of a transaction.
const TRANSACTION: usize = 24;

/// The size of a record with a body of so many bytes.
fn whole_size(len: usize) -> usize
    requires { len < 2 ^ 32 }
    ensures { result ≡ whole_size len }
{
    (8 + len + 7) / 8 * 8
}

fn add(count: usize, more: usize) -> Result<usize, NoMemory>
    ensures { IfOk result (λ n. n ≡ count + more) }
{
    count.checked_add(more).ok_or(NoMemory)
}

fn times(count: usize, size: usize) -> Result<usize, NoMemory>
    ensures { IfOk result (λ n. n ≡ count * size) }
{
    count.checked_mul(size).ok_or(NoMemory)
}

fn add_connection(
    count: usize,
    id: u32,
    spec: ConnSpec,
    rows: &Rows,
    ins: &Ins,
) -> Result<usize, NoMemory>
    requires { DataFits (connection_data_of rows.now.queues ins.now.entries (id, spec)) }
    ensures { IfOk result (λ n. n ≡ count + length (connection_text rows.now.queues ins.now.entries (id, spec))) }
{
    let inbox = bytes_in(ins.get(id)).len();
    let unsent = unsent_in(rows.row(id)).len();
    add(count, whole_size(28 + inbox + unsent))
}

/// Adds the bytes of the records of the connections. O(log connections) each.
pub fn add_connections(
    count: usize,
    conns: &Conns,
    rows: &Rows,
    ins: &Ins,
) -> Result<usize, NoMemory>
    requires { ConnectionsFit conns.now rows.now.queues ins.now.entries }
    ensures { IfOk result (λ n. n ≡ count + length (connections_text conns.now rows.now.queues ins.now.entries)) }
{
    let mut total = count;
    for entry in conns.entries() {
        total = add_connection(total, entry.0, entry.1, rows, ins)?;
    }
    Ok(total)
}

fn add_watch(count: usize, wpath: &[u8], token: &[u8]) -> Result<usize, NoMemory>
    requires wpath { length wpath.now ≤ 3072 }
    requires token { length token.now ≤ 1022 }
    ensures { IfOk result (λ n. (c : ℕ) → n ≡ count + length (canonical_record (watch_record c (watch_of wpath.now token.now)))) }
{
    add(count, whole_size(8 + (wpath.len() + 1) + (token.len() + 1)))
}

fn add_watch_at(count: usize, watches: &Watches, place: usize) -> Result<usize, NoMemory>
    ensures { IfOk result (λ n. (c : ℕ) (m : Made) → slice_get watches.now place ≡ Some m → n ≡ count + length (canonical_record (watch_record c m.watch))) }
{
    watches.is_made();
    match watches.at(place) {
        Some((wpath, token)) => add_watch(count, wpath, token),
        None => Ok(count),
    }
}

fn add_watches_in(count: usize, watches: &Watches) -> Result<usize, NoMemory>
    ensures { IfOk result (λ n. (c : ℕ) → n ≡ count + length (watches_text c (watches_in watches.now))) }
{
    let mut total = count;
    for place in 0..watches.len() {
        total = add_watch_at(total, watches, place)?;
    }
    Ok(total)
}

fn add_watches_of(count: usize, conn: u32, watchers: &Watchers) -> Result<usize, NoMemory>
    ensures { IfOk result (λ n. n ≡ count + length (watches_text conn (watches_of conn watchers.now))) }
{
    match watchers.watches(conn) {
        Some(watches) => add_watches_in(count, watches),
        None => Ok(count),
    }
}

/// Adds the bytes of the records of all watches. O(log connections) a connection, and O(watches).
pub fn add_watches(count: usize, conns: &Conns, watchers: &Watchers) -> Result<usize, NoMemory>
    ensures { IfOk result (λ n. n ≡ count + length (all_watches_text conns.now watchers.now)) }
{
    let mut total = count;
    for entry in conns.entries() {
        total = add_watches_of(total, entry.0, watchers)?;
    }
    Ok(total)
}

fn add_transactions_in(count: usize, txns: &[(u32, Txn)]) -> Result<usize, NoMemory>
    ensures { IfOk result (λ n. (c : ℕ) → n ≡ count + length (transactions_text c txns.now)) }
{
    let more = times(txns.len(), TRANSACTION)?;
    add(count, more)
}

/// Adds the bytes of the records of all transactions. O(log connections) a connection.
pub fn add_transactions(count: usize, conns: &Conns, rows: &Rows) -> Result<usize, NoMemory>
    ensures { IfOk result (λ n. n ≡ count + length (all_transactions_text conns.now rows.now.txns)) }
{
    let mut total = count;
    for entry in conns.entries() {
        total = add_transactions_in(total, txns_of(rows, entry.0))?;
    }
    Ok(total)
}

fn add_found(count: usize, path: &Path, node: Option<&Node>) -> Result<usize, NoMemory>
    requires { FoundFits (option_copied node) }
    ensures { IfOk result (λ n. (c tx access : ℕ) → n ≡ count + length (canonical_record (found_record c tx access path.now (option_copied node.entry)))) }
{
    let perms = perms_in(node).len();
    let path = path.bytes().len() + 1;
    add(
        count,
        whole_size(16 + 4 * perms + path + value_in(node).len()),
    )
}

fn add_walk(count: usize, walk: Walk<'_, Entry>) -> Result<usize, NoMemory>
    requires { EntriesFit walk }
    ensures { IfOk result (λ n. n ≡ count + length (nodes_text walk.entry)) }
{
    let mut total = count;
    let mut walk = walk;
    'nodes: while let Some(entry) = walk.next_entry() {
        total = add_found(total, &entry.0, Some(&entry.1.node))?;
    }
    Ok(total)
}

/// Adds the bytes of the records of all nodes of the store. O(nodes).
pub fn add_nodes(count: usize, tree: &Tree) -> Result<usize, NoMemory>
    requires { NodesFit tree.now.nodes }
    ensures { IfOk result (λ n. n ≡ count + length (tree_text tree.now.gens tree.now.nodes)) }
{
    tree.is_kept();
    add_walk(count, tree.walk())
}

fn add_told(
    count: usize,
    tree: &Tree,
    told: (&Path, EntryKind, bool, Option<&Node>),
) -> Result<usize, NoMemory>
    requires { ToldFits tree.now.nodes (entry_at told) }
    ensures { IfOk result (λ n. (c tx : ℕ) → n ≡ count + length (told_text tree.now.nodes c tx (entry_at told.entry))) }
{
    let (path, kind, changed, node) = told;
    add_found(count, path, node_told(tree, path, kind, changed, node))
}

fn add_entries(count: usize, tree: &Tree, entries: Entries<'_>) -> Result<usize, NoMemory>
    requires nodes { NodesFit tree.now.nodes }
    requires marks { MarksFit entries }
    ensures { IfOk result (λ n. (c tx : ℕ) → n ≡ count + length (marks_text tree.now.nodes c tx entries.entry)) }
{
    let mut total = count;
    let mut left = entries;
    'marks: while let Some(told) = left.next_entry() {
        total = add_told(total, tree, told)?;
    }
    Ok(total)
}

fn add_marks_in(count: usize, tree: &Tree, txns: &[(u32, Txn)]) -> Result<usize, NoMemory>
    requires nodes { NodesFit tree.now.nodes }
    requires marks { TxnsFit txns.now }
    ensures { IfOk result (λ n. (c : ℕ) → n ≡ count + length (txns_text tree.now.nodes c txns.now)) }
{
    let mut total = count;
    for entry in txns {
        total = add_entries(total, tree, entry.1.entries())?;
    }
    Ok(total)
}

/// Adds the bytes of the records of what all transactions keep. O(log connections) a connection, and O(log nodes)
/// comparisons of paths a mark.
pub fn add_marks(count: usize, conns: &Conns, rows: &Rows, tree: &Tree) -> Result<usize, NoMemory>
    requires nodes { NodesFit tree.now.nodes }
    requires marks { AllTxnsFit conns.now rows.now.txns }
    ensures { IfOk result (λ n. n ≡ count + length (all_marks_text conns.now tree.now.nodes rows.now.txns)) }
{
    let mut total = count;
    for entry in conns.entries() {
        total = add_marks_in(total, tree, txns_of(rows, entry.0))?;
    }
    Ok(total)
}
