//! The records of transactions.

ghost use Rattle.std.specs.Prelude.{◌≡◌, ◌++◌, OnOk};
ghost use Rattle.conn_rows.specs.Rows.{txns_of};
ghost use Rattle.mig_save.specs.Texts.{transactions_text, all_transactions_text};

use conn_rows::Rows;
use mig_records::write_transaction;
use store_parts::Conns;
use txn_access::Txn;
use xs_base::{Bytes, NoMemory};

/// The open transactions of a connection, by number. O(log connections).
pub fn txns_of(rows: &Rows, conn: u32) -> &[(u32, Txn)]
    ensures { result.now ≡ txns_of conn rows.now.txns }
{
    match rows.row(conn) {
        Some(row) => row.txns(),
        None => &[],
    }
}

/// Appends the records of a connection's transactions. O(their number).
fn write_each(out: &mut Bytes, conn: u32, txns: &[(u32, Txn)]) -> Result<(), NoMemory>
    ensures { OnOk result (out.new ≡ out.old ++ transactions_text conn txns.now) }
{
    for entry in txns {
        write_transaction(out, conn, entry.0, entry.1.count())?;
    }
    Ok(())
}

/// Appends the records of the transactions of all connections. O(log connections) a connection, and O(transactions).
pub fn write_transactions(out: &mut Bytes, conns: &Conns, rows: &Rows) -> Result<(), NoMemory>
    ensures { OnOk result (out.new ≡ out.old ++ all_transactions_text conns.now rows.now.txns) }
{
    for entry in conns.entries() {
        write_each(out, entry.0, txns_of(rows, entry.0))?;
    }
    Ok(())
}
