//! The connections that came.

ghost use Rattle.std.specs.Prelude.{◌≡◌, ◌≤◌, ◌||◌, true, false, [], Some, None, is_some, option_map, IfOk, IfSome, OnOk, OnErr};
ghost use Rattle.std.specs.FinMap.{find, put};
ghost use Rattle.std.specs.List.{list_any};
ghost use Rattle.std.specs.Option.{option_copied};
ghost use Rattle.std.specs.Ordering.{nat_cmp};
ghost use Rattle.xs_model.specs.Requests.{is_watch_path, is_token};
ghost use Rattle.xs_model.specs.Watches.{same_watch};
ghost use Rattle.machine_model.specs.Connections.{caller_of};
ghost use Rattle.watch_table.specs.Tables.{watch_of};
ghost use Rattle.kept_model.specs.Said.{Said as ToldMark};
ghost use Rattle.kept_model.specs.States.{TransactionOf, ConnectionOf};
ghost use Rattle.xs_model.specs.Paths.{path_cmp};
ghost use Rattle.kept_model.specs.Loading.{is_end_of, is_one_too_many, with_watch};
ghost use Rattle.mig_load.specs.SettledTables.{IsSettled};
ghost use Rattle.mig_load.specs.Came.{said_of, changed_at, opened, marked, marked_in};

use crate::opens::{Opened, Opens};
use crate::settling::settle_conns;
use crate::table::Table;
use conn_rows::Rows;
use conn_table::Conns;
use id_map::IdMap;
use machine_model::ConnSpec;
use msg_reassembly::{Inbox, Ins};
use node_tree::Tree;
use out_queues::OutQueue;
use std::alloc::Global;
use std::marker::Model;
use txn_normal::Said;
use watchers::Watchers;
use xs_base::{Bytes, NoMemory};
use xs_path::Path;

/// The connections that came, by the tables of the store that goes on with them. What is said of their transactions waits
/// for the whole tree.
#[derive(Drop)]
pub struct Connections {
    table: Table,
    watchers: Watchers,
    rows: Rows,
    ins: Ins,
    saids: IdMap<Opens>,
}

impl Model for Connections {
    ghost use Rattle.std.specs.Prelude.{ℕ, List};
    ghost use Rattle.kept_model.specs.States.{ConnectionOf};
    ghost use Rattle.kept_model.specs.Said.{Said};
    ghost use Rattle.mig_load.specs.CameView.{view_of, tables_of};
    ghost use Rattle.mig_load.specs.Came.{AreTables};

    ghost Value = { List (ℕ × ConnectionOf Said) };

    ghost view = { view_of };

    ghost invariant = { λ conns. AreTables (tables_of conns) conns.rows.txns };
}

/// The domain for which a connection asks.
fn domid_of(spec: ConnSpec) -> u16
    ensures { result ≡ (caller_of spec).domid }
{
    match spec {
        ConnSpec::Ring { domid, .. } => domid,
        ConnSpec::Socket { .. } => 0,
    }
}

/// Opens a transaction of a connection. Refused, nothing has changed.
fn open_in(
    alloc: Global,
    saids: &mut IdMap<Opens>,
    conn: u32,
    tx: u32,
    count: u32,
) -> Result<(), NoMemory>
    requires positive { 1 ≤ tx }
    requires free { find nat_cmp tx (said_of conn saids.old.entries) ≡ None }
    ensures ok { OnOk result (saids.new.entries ≡ put nat_cmp conn (put nat_cmp tx (record { count = count; marks = [] }) (said_of conn saids.old.entries)) saids.old.entries) }
    ensures err { OnErr result (saids.new.entries ≡ saids.old.entries) }
{
    match saids.get_mut(conn) {
        Some(opens) => opens.open(alloc, tx, count),
        None => {
            let mut first = Opens::new(alloc);
            first.open(alloc, tx, count)?;
            saids.add(conn, first)
        }
    }
}

/// Keeps what is said of a path of a transaction that is open. Refused, nothing has changed.
fn mark_in(
    saids: &mut IdMap<Opens>,
    conn: u32,
    tx: u32,
    path: Path,
    said: Said,
) -> Result<(), NoMemory>
    requires { is_some (find nat_cmp tx (said_of conn saids.old.entries)) ≡ true }
    ensures ok { OnOk result (saids.new.entries ≡ put nat_cmp conn (marked_in tx path said (said_of conn saids.old.entries)) saids.old.entries) }
    ensures err { OnErr result (saids.new.entries ≡ saids.old.entries) }
{
    let Some(opens) = saids.get_mut(conn) else {
        unreachable!()
    };
    opens.mark(tx, path, said)
}

impl Connections {
    /// No connections. It takes no memory.
    pub fn new(alloc: Global) -> Connections
        ensures { result ≡ [] }
    {
        Connections {
            table: Table::new(alloc),
            watchers: Watchers::new(alloc),
            rows: Rows::new(alloc),
            ins: IdMap::new(alloc),
            saids: IdMap::new(alloc),
        }
    }

    /// Whether this is the socket behind the last one that is accepted. O(1).
    pub fn is_one_too_many(&self, spec: ConnSpec) -> bool
        ensures { result ≡ is_one_too_many spec self.now }
    {
        self.table.is_one_too_many(spec)
    }

    /// Whether the id came, or a ring of the same domain. O(log connections).
    pub fn is_taken(&self, conn: u32, spec: ConnSpec) -> bool
        ensures { result ≡ (is_some (find nat_cmp conn self.now) || list_any (λ e. is_end_of spec e.1.spec) self.now) }
    {
        self.table.is_taken(conn, spec)
    }

    /// Whether a connection came. O(log connections).
    pub fn has(&self, conn: u32) -> bool
        ensures { result ≡ is_some (find nat_cmp conn self.now) }
    {
        self.table.spec(conn).is_some()
    }

    /// The domain for which a connection asks, if that came. O(log connections).
    pub fn domid(&self, conn: u32) -> Option<u16>
        ensures found { result ≡ option_map (λ conn. (caller_of conn.spec).domid) (find nat_cmp conn self.now) }
        ensures domid { IfSome result (λ domid. domid ≤ 32751) }
    {
        let spec = self.table.spec(conn)?;
        Some(domid_of(spec))
    }

    /// Whether a connection that came has a watch with this path and token. O(log connections + bytes) on average.
    pub fn has_watch(&self, conn: u32, wpath: &[u8], token: &[u8]) -> bool
        ensures { (found : ConnectionOf ToldMark) → find nat_cmp conn self.now ≡ Some found
            → result ≡ list_any (same_watch (watch_of wpath.now token.now)) found.watches }
    {
        self.watchers.has(conn, wpath, token)
    }

    /// A transaction of a connection that came, if it is open. O(log connections + log transactions).
    pub fn txn(&self, conn: u32, tx: u32) -> Option<&Opened>
        ensures { (found : ConnectionOf ToldMark) → find nat_cmp conn self.now ≡ Some found
            → option_copied result ≡ find nat_cmp tx found.opens }
    {
        let opens = self.saids.get(conn)?;
        opens.txn(tx)
    }

    /// Whether a transaction of a connection that came is open. O(log connections + log transactions).
    pub fn has_txn(&self, conn: u32, tx: u32) -> bool
        ensures { (found : ConnectionOf ToldMark) → find nat_cmp conn self.now ≡ Some found → result ≡ is_some (find nat_cmp tx found.opens) }
    {
        self.txn(conn, tx).is_some()
    }

    /// Whether something is said of a path of a transaction that is open. O(log connections + log transactions + log paths).
    pub fn has_mark(&self, conn: u32, tx: u32, path: &Path) -> bool
        ensures { (found : ConnectionOf ToldMark) → find nat_cmp conn self.now ≡ Some found
            → (t : TransactionOf ToldMark) → find nat_cmp tx found.opens ≡ Some t → result ≡ is_some (find path_cmp path.now t.marks) }
    {
        match self.txn(conn, tx) {
            Some(opened) => opened.has(path),
            None => false,
        }
    }

    /// Adds a connection that did not come, with what is unsent to it and what was read from it. Refused, nothing has
    /// changed. It moves the connections of higher ids.
    pub fn add(
        &mut self,
        conn: u32,
        spec: ConnSpec,
        queue: OutQueue,
        inbox: Inbox,
    ) -> Result<(), NoMemory>
        requires free { (is_some (find nat_cmp conn self.old) || list_any (λ e. is_end_of spec e.1.spec) self.old) ≡ false }
        requires few { is_one_too_many spec self.old ≡ false }
        requires caller { (caller_of spec).domid ≤ 32751 }
        ensures ok { OnOk result (self.new ≡ put nat_cmp conn (record { spec = spec; watches = []; inbox = inbox; rest = queue.rest; unsent = queue.bytes; opens = [] }) self.old) }
        ensures err { OnErr result (self.new ≡ self.old) }
    {
        self.table.is_table();
        self.rows.reserve()?;
        self.ins.reserve(1)?;
        self.table.add(conn, spec)?;
        self.rows.put(conn, queue);
        self.ins.put(conn, inbox);
        Ok(())
    }

    /// Adds a watch behind all others of a connection that came. Refused, nothing has changed.
    pub fn watch(
        &mut self,
        alloc: Global,
        conn: u32,
        wpath: &[u8],
        token: &[u8],
        domid: u16,
    ) -> Result<(), NoMemory>
        requires own { option_map (λ conn. (caller_of conn.spec).domid) (find nat_cmp conn self.old) ≡ Some domid }
        requires domid { domid ≤ 32751 }
        requires wpath { is_watch_path wpath.now domid ≡ true }
        requires token { is_token token.now ≡ true }
        requires other { (found : ConnectionOf ToldMark) → find nat_cmp conn self.old ≡ Some found
            → list_any (same_watch (watch_of wpath.now token.now)) found.watches ≡ false }
        ensures ok { OnOk result (self.new ≡ changed_at conn (with_watch (watch_of wpath.now token.now)) self.old) }
        ensures err { OnErr result (self.new ≡ self.old) }
    {
        let wpath = Bytes::copy(alloc, wpath)?;
        let token = Bytes::copy(alloc, token)?;
        self.add_watch(conn, wpath, token, domid)
    }

    /// The same, of a path and a token that are its own.
    fn add_watch(
        &mut self,
        conn: u32,
        wpath: Bytes,
        token: Bytes,
        domid: u16,
    ) -> Result<(), NoMemory>
        requires own { option_map (λ conn. (caller_of conn.spec).domid) (find nat_cmp conn self.old) ≡ Some domid }
        requires domid { domid ≤ 32751 }
        requires wpath { is_watch_path wpath domid ≡ true }
        requires token { is_token token ≡ true }
        requires other { (found : ConnectionOf ToldMark) → find nat_cmp conn self.old ≡ Some found
            → list_any (same_watch (watch_of wpath token)) found.watches ≡ false }
        ensures ok { OnOk result (self.new ≡ changed_at conn (with_watch (watch_of wpath token)) self.old) }
        ensures err { OnErr result (self.new ≡ self.old) }
    {
        self.table.is_table();
        self.watchers.add(conn, wpath, token, domid)
    }

    /// Opens a transaction of a connection that came. Refused, nothing has changed.
    pub fn open(&mut self, alloc: Global, conn: u32, tx: u32, count: u32) -> Result<(), NoMemory>
        requires there { is_some (find nat_cmp conn self.old) ≡ true }
        requires positive { 1 ≤ tx }
        requires free { (found : ConnectionOf ToldMark) → find nat_cmp conn self.old ≡ Some found → find nat_cmp tx found.opens ≡ None }
        ensures ok { OnOk result (self.new ≡ changed_at conn (opened tx count) self.old) }
        ensures err { OnErr result (self.new ≡ self.old) }
    {
        self.table.is_table();
        open_in(alloc, &mut self.saids, conn, tx, count)
    }

    /// Keeps what is said of a path of a transaction that is open. Refused, nothing has changed.
    pub fn mark(&mut self, conn: u32, tx: u32, path: Path, said: Said) -> Result<(), NoMemory>
        requires there { is_some (find nat_cmp conn self.old) ≡ true }
        requires open { (found : ConnectionOf ToldMark) → find nat_cmp conn self.old ≡ Some found → is_some (find nat_cmp tx found.opens) ≡ true }
        ensures ok { OnOk result (self.new ≡ changed_at conn (marked tx path said) self.old) }
        ensures err { OnErr result (self.new ≡ self.old) }
    {
        self.table.is_table();
        mark_in(&mut self.saids, conn, tx, path, said)
    }

    /// The tables themselves, once what is said of the open transactions is joined to the tree.
    pub fn settle(
        self,
        alloc: Global,
        tree: &Tree,
    ) -> Result<(Conns, Watchers, Rows, Ins), NoMemory>
        ensures { IfOk result (λ parts. IsSettled tree.now.nodes self parts.0 parts.1 parts.2.queues parts.2.txns parts.3.entries) }
    {
        self.table.is_table();
        let mut rows = self.rows;
        settle_conns(alloc, tree, &mut rows, self.saids.into_vec())?;
        Ok((self.table.into_conns(), self.watchers, rows, self.ins))
    }
}
