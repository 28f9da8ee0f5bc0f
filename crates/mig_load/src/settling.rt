//! What is said of transactions, joined to the tree once that is whole; and whether a path leaves a node without its parent.

ghost use Rattle.std.specs.Prelude.{◌≡◌, ◌≤◌, true, [], None, Some, is_some, map, OnOk};
ghost use Rattle.std.specs.FinMap.{find, put, is_sorted};
ghost use Rattle.std.specs.List.{AllByRecursion};
ghost use Rattle.std.specs.Ordering.{nat_cmp};
ghost use Rattle.conn_rows.specs.Rows.{kept_txn, opens_in, opens_of, txns_of};
ghost use Rattle.mig_load.specs.Settled.{leaves_orphan, first_orphan, kept_opens, settled_opens};

use crate::loading::Pending;
use crate::opens::Opens;
use conn_rows::Rows;
use node_tree::Tree;
use std::alloc::Global;
use txn_access::Txn;
use txn_normal::is_orphan;
use xs_base::NoMemory;

/// Gives a connection that is there an open transaction.
fn put_txn(rows: &mut Rows, conn: u32, tx: u32, txn: Txn) -> Result<(), NoMemory>
    requires there { is_some (find nat_cmp conn rows.old.txns) ≡ true }
    requires positive { 1 ≤ tx }
    requires free { find nat_cmp tx (txns_of conn rows.old.txns) ≡ None }
    ensures ok { OnOk result (opens_of rows.new.txns ≡ put nat_cmp conn (put nat_cmp tx (kept_txn txn) (opens_in (txns_of conn rows.old.txns))) (opens_of rows.old.txns)) }
    ensures queues { rows.new.queues ≡ rows.old.queues }
{
    rows.add_txn(conn, tx, txn)
}

/// Whether a path leaves a node without its parent in what its transaction sees.
fn leaves_orphan(alloc: Global, tree: &Tree, rows: &Rows, pending: Pending) -> bool
    ensures { result ≡ leaves_orphan tree.now.nodes rows.now.txns pending }
{
    match rows.txn(pending.conn, pending.tx) {
        Some(txn) => is_orphan(tree, txn, pending.path),
        None => is_orphan(tree, &Txn::start(alloc), pending.path),
    }
}

/// The record of the first of these paths that leaves one. O(paths) looks, as of [`is_orphan`].
pub fn first_orphan(alloc: Global, tree: &Tree, rows: &Rows, pending: Vec<Pending>) -> Option<usize>
    ensures { result ≡ first_orphan tree.now.nodes rows.now.txns pending.items }
{
    let mut left = pending;
    left.reverse();
    'left: while !left.is_empty() {
        let first = left.pop().unwrap();
        let rec = first.rec;
        if leaves_orphan(alloc, tree, rows, first) {
            return Some(rec);
        }
    }
    None
}

/// Opens the transactions of a connection that has none, each joined to the tree. It costs what joining each costs.
pub fn settle_conn(
    alloc: Global,
    tree: &Tree,
    rows: &mut Rows,
    conn: u32,
    opens: Opens,
) -> Result<(), NoMemory>
    requires rising { is_sorted nat_cmp (opens_of rows.old.txns) ≡ true }
    requires quiet { find nat_cmp conn (opens_of rows.old.txns) ≡ Some [] }
    ensures ok { OnOk result (opens_of rows.new.txns ≡ put nat_cmp conn (kept_opens tree.now.nodes opens) (opens_of rows.old.txns)) }
    ensures queues { rows.new.queues ≡ rows.old.queues }
{
    let mut left = opens.into_entries();
    left.reverse();
    'left: while !left.is_empty() {
        let (tx, opened) = left.pop().unwrap();
        let txn = opened.settle(alloc, tree)?;
        put_txn(rows, conn, tx, txn)?;
    }
    Ok(())
}

/// Opens the transactions of connections that have none, each joined to the tree. It costs what joining each costs.
pub fn settle_conns(
    alloc: Global,
    tree: &Tree,
    rows: &mut Rows,
    saids: Vec<(u32, Opens)>,
) -> Result<(), NoMemory>
    requires rising { is_sorted nat_cmp saids.items ≡ true }
    requires there { AllByRecursion (λ e. is_some (find nat_cmp e.0 rows.old.txns) ≡ true) saids.items }
    requires kept { is_sorted nat_cmp rows.old.txns ≡ true }
    requires quiet { opens_of rows.old.txns ≡ map (λ e. (e.0, [])) rows.old.txns }
    ensures ok { OnOk result (opens_of rows.new.txns ≡ settled_opens tree.now.nodes saids.items rows.old.txns) }
    ensures queues { rows.new.queues ≡ rows.old.queues }
{
    let mut left = saids;
    left.reverse();
    'left: while !left.is_empty() {
        let (conn, opens) = left.pop().unwrap();
        settle_conn(alloc, tree, rows, conn, opens)?;
    }
    Ok(())
}
