//! Rows: what is unsent to each connection, and its open transactions.

ghost use Rattle.std.specs.Prelude.{◌≡◌, ◌+◌, ◌≤◌, ◌<◌, ◌==◌, not, true, false, List, ℕ, [], ◌++◌, length, Some, None, is_some, if◌then◌else◌, IfOk, IfSome, OnOk, OnErr};
ghost use Rattle.std.specs.Borrow.{LendsIf, sem};
ghost use Rattle.std.specs.Option.{option_map, option_copied, option_copied_mut};
ghost use Rattle.std.specs.List.{AllByRecursion};
ghost use Rattle.std.specs.Ordering.{nat_cmp};
ghost use Rattle.std.specs.FinMap.{find, put, is_sorted};
ghost use Rattle.std.specs.FinMap.Entries.{where_key};
ghost use Rattle.xs_model.specs.Paths.{Path as Place};
ghost use Rattle.xs_model.specs.Trees.{Tree as Nodes};
ghost use Rattle.xs_model.specs.Wholes.{whole_behind};
ghost use Rattle.machine_model.specs.Connections.{least_free};
ghost use Rattle.machine_model.specs.declared.bounds.TheConstants.{CROWD_LIMIT};
ghost use Rattle.mark_model.specs.Stores.{no_marks, noted_all};
ghost use Rattle.out_queues.specs.Queues.{Queue};
ghost use Rattle.conn_rows.specs.Sending.{crowding, HasRoomFor, joined_by};
ghost use Rattle.conn_rows.specs.Queued.{HasRoom, PulledFrom, unsent_of, rests_of};
ghost use Rattle.txn_access.specs.contracts.txn.Txn.{the_row as txn_row};
ghost use Rattle.conn_rows.specs.Receivers.{queues_of};
ghost use Rattle.conn_rows.specs.Rows.{txns_in, opens_in, opens_of, txns_of, from_id, IsNextFrom, ArePlanned, HaveRoom};
ghost use Rattle.conn_rows.specs.contracts.rows.Rows.{the_row};

use crate::row::Row;
use crate::sending;
use id_map::IdMap;
use node_tree::Tree;
use out_queues::OutQueue;
use owed_bytes::Owed;
use std::alloc::Global;
use std::marker::Model;
use txn_access::Txn;
use xs_base::NoMemory;
use xs_path::Paths;

/// The rows of all connections, by their ids, and the ids of those that have transactions open, so that a change of the
/// tree passes the others over.
///
/// Contracts see what is unsent and the open transactions, both by the connections' ids.
#[derive(Drop)]
pub struct Rows {
    alloc: Global,
    rows: IdMap<Row>,
    busy: IdMap<()>,
}

impl Model for Rows {
    ghost use Rattle.std.specs.Prelude.{◌≡◌, ◌⊎◌, map, is_some, true, []};
    ghost use Rattle.std.specs.List.{AllByRecursion};
    ghost use Rattle.std.specs.FinMap.{find};
    ghost use Rattle.std.specs.Ordering.{nat_cmp};
    ghost use Rattle.conn_rows.specs.Rows.{Rows};

    ghost Value = { Rows };

    ghost view = { λ rows. record {
      queues = map (λ e. (e.0, e.1.queue)) rows.rows.entries;
      txns = map (λ e. (e.0, e.1.txns)) rows.rows.entries;
      spare = rows.rows.spare;
    } };

    // Whoever has a transaction open is busy.
    ghost invariant = { λ rows. AllByRecursion (λ e. (e.1.txns ≡ []) ⊎ (is_some (find nat_cmp e.0 rows.busy.entries) ≡ true)) rows.rows.entries };
}

/// The first connection of those that have transactions open.
fn first_of(busy: &IdMap<()>) -> Option<u32>
    ensures some { IfSome result (IsNextFrom busy.now.entries 0) }
    ensures none { result ≡ None → (k : ℕ) → find nat_cmp k busy.now.entries ≡ None }
{
    if busy.get(0).is_some() {
        return Some(0);
    }
    busy.next_after(0)
}

/// The next of them, or the first.
fn next_of(busy: &IdMap<()>, at: Option<u32>) -> Option<u32>
    ensures some { IfSome result (IsNextFrom busy.now.entries (from_id at)) }
    ensures none { result ≡ None → (k : ℕ) → from_id at ≤ k → find nat_cmp k busy.now.entries ≡ None }
{
    let Some(at) = at else {
        return first_of(busy);
    };
    busy.next_after(at)
}

/// A connection that has closed a transaction, and has so many left open, is no longer busy if they are none.
fn settle(busy: &mut IdMap<()>, conn: u32, left: usize)
    ensures { busy.new.entries ≡ (if left == 0 then where_key nat_cmp (λ key. not (conn == key)) busy.old.entries else busy.old.entries) }
{
    if left == 0 {
        busy.remove(conn);
    }
}

impl Rows {
    /// No rows. It takes no memory.
    pub fn new(alloc: Global) -> Rows
        ensures queues { result.queues ≡ [] }
        ensures txns { result.txns ≡ [] }
    {
        Rows {
            alloc,
            rows: IdMap::new(alloc),
            busy: IdMap::new(alloc),
        }
    }

    /// All rows, in rising order of their connections' ids. O(1).
    pub fn entries(&self) -> &[(u32, Row)]
        ensures queues { queues_of result.now ≡ self.now.queues }
        ensures txns { txns_in result.now ≡ self.now.txns }
    {
        self.rows.entries()
    }

    /// Behind the rest of a message in front, what is unsent to each connection is whole messages. O(connections).
    pub fn are_whole(&self)
        ensures { AllByRecursion (λ e. whole_behind e.1.rest e.1.bytes ≡ true) self.now.queues }
    {
        let rows = self.rows.entries();
        for entry in rows {
            entry.1.is_whole();
        }
    }

    /// The row of a connection, if it is there. O(log connections).
    pub fn row(&self, conn: u32) -> Option<&Row>
        ensures queue { option_map (λ row. row.queue) (option_copied result) ≡ find nat_cmp conn self.now.queues }
        ensures txns { option_map (λ row. row.txns) (option_copied result) ≡ find nat_cmp conn self.now.txns }
    {
        self.rows.get(conn)
    }

    /// How many bytes are unsent to a connection, if it is there. O(log connections).
    pub fn unsent(&self, conn: u32) -> Option<usize>
        ensures { result ≡ option_map (λ queue. length queue.bytes) (find nat_cmp conn self.now.queues) }
    {
        let row = self.rows.get(conn)?;
        Some(row.unsent())
    }

    /// Takes memory for one row more.
    pub fn reserve(&mut self) -> Result<(), NoMemory>
        ensures ok { OnOk result (1 ≤ self.new.spare) }
        ensures queues { self.new.queues ≡ self.old.queues }
        ensures txns { self.new.txns ≡ self.old.txns }
    {
        self.rows.reserve(1)
    }

    /// Gives a connection a row, in place of the one that it has: nothing is unsent, and no transaction is open. It takes no
    /// memory, and moves the rows of higher ids.
    pub fn add(&mut self, conn: u32)
        requires { 1 ≤ self.old.spare }
        ensures bytes { unsent_of self.new.queues ≡ put nat_cmp conn [] (unsent_of self.old.queues) }
        ensures rests { rests_of self.new.queues ≡ put nat_cmp conn 0 (rests_of self.old.queues) }
        ensures others { (other : ℕ) → (other == conn) ≡ false → find nat_cmp other self.new.queues ≡ find nat_cmp other self.old.queues }
        ensures txns { self.new.txns ≡ put nat_cmp conn [] self.old.txns }
    {
        let queue = OutQueue::new(self.alloc);
        self.put(conn, queue);
    }

    /// Gives a connection a row, in place of the one that it has: what waits in this queue is unsent, and no transaction is
    /// open. It takes no memory, and moves the rows of higher ids.
    pub fn put(&mut self, conn: u32, queue: OutQueue)
        requires { 1 ≤ self.old.spare }
        ensures queues { self.new.queues ≡ put nat_cmp conn queue self.old.queues }
        ensures txns { self.new.txns ≡ put nat_cmp conn [] self.old.txns }
    {
        let row = Row::of(self.alloc, queue);
        self.rows.put(conn, row);
    }

    /// Removes the row of a connection with its unsent bytes and its transactions. It moves the rows of higher ids.
    pub fn remove(&mut self, conn: u32)
        ensures queues { self.new.queues ≡ where_key nat_cmp (λ key. not (conn == key)) self.old.queues }
        ensures txns { self.new.txns ≡ where_key nat_cmp (λ key. not (conn == key)) self.old.txns }
    {
        self.rows.remove(conn);
        self.busy.remove(conn);
    }

    /// Takes memory for so many bytes more to a connection. What is unsent is as before.
    pub fn reserve_bytes(&mut self, conn: u32, bytes: usize) -> Result<(), NoMemory>
        ensures ok { OnOk result (HasRoom conn bytes self.new.queues) }
        ensures bytes { unsent_of self.new.queues ≡ unsent_of self.old.queues }
        ensures rests { rests_of self.new.queues ≡ rests_of self.old.queues }
        ensures txns { self.new.txns ≡ self.old.txns }
    {
        let Some(row) = self.rows.get_mut(conn) else {
            return Ok(());
        };
        row.reserve(bytes)
    }

    /// Appends a whole message to what is unsent to a connection, for which there is memory. O(its length).
    pub fn push(&mut self, conn: u32, message: &[u8])
        requires whole { whole_behind 0 message.now ≡ true }
        requires room { HasRoom conn (length message.now) self.old.queues }
        ensures bytes { (bytes : List ℕ) → find nat_cmp conn (unsent_of self.old.queues) ≡ Some bytes
            → unsent_of self.new.queues ≡ put nat_cmp conn (bytes ++ message.now) (unsent_of self.old.queues) }
        ensures rests { rests_of self.new.queues ≡ rests_of self.old.queues }
        ensures absent { find nat_cmp conn self.old.queues ≡ None → self.new ≡ self.old }
        ensures txns { self.new.txns ≡ self.old.txns }
    {
        let Some(row) = self.rows.get_mut(conn) else {
            return;
        };
        row.push(message)
    }

    /// The least connection that would have more than 16777216 unsent bytes once a reply of so many bytes to `conn` and what
    /// is owed were sent, if any. O(connections that are owed something * log connections).
    pub fn crowding(&self, conn: u32, reply: usize, owed: &Owed) -> Option<u32>
        requires positive { AllByRecursion (λ e. 1 ≤ e.0) self.now.queues }
        requires short { AllByRecursion (λ e. length e.1.bytes ≤ CROWD_LIMIT) self.now.queues }
        requires few { (queue : Queue) → find nat_cmp conn self.now.queues ≡ Some queue → length queue.bytes + reply ≤ CROWD_LIMIT }
        ensures { result ≡ crowding conn reply owed.now (unsent_of self.now.queues) }
    {
        sending::crowding(&self.rows, conn, reply, owed)
    }

    /// Takes memory for a reply of so many bytes to `conn` and for what is owed. What is unsent is as before, also where
    /// there is no memory. O(connections that are owed something * log connections + bytes) on average.
    pub fn reserve_all(&mut self, conn: u32, reply: usize, owed: &Owed) -> Result<(), NoMemory>
        requires positive { AllByRecursion (λ e. 1 ≤ e.0) self.old.queues }
        ensures ok { OnOk result (HasRoomFor conn reply owed.now self.new.queues) }
        ensures bytes { unsent_of self.new.queues ≡ unsent_of self.old.queues }
        ensures rests { rests_of self.new.queues ≡ rests_of self.old.queues }
        ensures txns { self.new.txns ≡ self.old.txns }
    {
        sending::reserve_all(&mut self.rows, conn, reply, owed)
    }

    /// Appends a reply to what is unsent to `conn`, and what is owed to what is unsent to each other connection, for which
    /// there is memory. It takes none. O(log connections + connections that are owed something * log connections + bytes).
    pub fn send(&mut self, conn: u32, reply: &[u8], owed: &Owed)
        requires positive { AllByRecursion (λ e. 1 ≤ e.0) self.old.queues }
        requires whole { whole_behind 0 reply.now ≡ true }
        requires room { HasRoomFor conn (length reply.now) owed.now self.old.queues }
        ensures bytes { unsent_of self.new.queues ≡ joined_by conn reply.now owed.now (unsent_of self.old.queues) }
        ensures rests { rests_of self.new.queues ≡ rests_of self.old.queues }
        ensures txns { self.new.txns ≡ self.old.txns }
    {
        sending::send(&mut self.rows, conn, reply, owed);
    }

    /// Moves the first unsent bytes of a connection into `into`, and says how many; none where it is not there. O(bytes
    /// moved).
    pub fn pull(&mut self, conn: u32, into: &mut [u8]) -> Option<usize>
        ensures pulled { PulledFrom self.old.queues conn into.old self.new.queues into.new result }
        ensures txns { self.new.txns ≡ self.old.txns }
    {
        let row = self.rows.get_mut(conn)?;
        Some(row.pull(into))
    }

    /// How many transactions a connection has open. O(log connections).
    pub fn open_count(&self, conn: u32) -> usize
        ensures { result ≡ length (txns_of conn self.now.txns) }
    {
        let Some(row) = self.rows.get(conn) else {
            return 0;
        };
        row.open_count()
    }

    /// The least number that no open transaction of a connection has. O(log connections + log open transactions).
    pub fn free_number(&self, conn: u32) -> u32
        requires { length (txns_of conn self.now.txns) < 4294967295 }
        ensures value { result ≡ least_free (txns_of conn self.now.txns) }
        ensures free { find nat_cmp result (txns_of conn self.now.txns) ≡ None }
        ensures positive { 1 ≤ result }
    {
        let Some(row) = self.rows.get(conn) else {
            return 1;
        };
        row.free_number()
    }

    /// Opens a transaction of a connection that is there. Refused, nothing has changed. It moves the open transactions of
    /// higher numbers.
    pub fn open(&mut self, conn: u32, tx: u32) -> Result<(), NoMemory>
        requires there { is_some (find nat_cmp conn self.old.txns) ≡ true }
        requires positive { 1 ≤ tx }
        requires free { find nat_cmp tx (txns_of conn self.old.txns) ≡ None }
        ensures ok { OnOk result (opens_of self.new.txns ≡ put nat_cmp conn (put nat_cmp tx no_marks (opens_in (txns_of conn self.old.txns))) (opens_of self.old.txns)) }
        ensures err { OnErr result (self.new.txns ≡ self.old.txns) }
        ensures queues { self.new.queues ≡ self.old.queues }
    {
        let txn = Txn::start(self.alloc);
        self.add_txn(conn, tx, txn)
    }

    /// Opens a transaction of a connection that is there, with what it keeps already. Refused, nothing has changed. It moves
    /// the open transactions of higher numbers.
    pub fn add_txn(&mut self, conn: u32, tx: u32, txn: Txn) -> Result<(), NoMemory>
        requires there { is_some (find nat_cmp conn self.old.txns) ≡ true }
        requires positive { 1 ≤ tx }
        requires free { find nat_cmp tx (txns_of conn self.old.txns) ≡ None }
        ensures ok { OnOk result (self.new.txns ≡ put nat_cmp conn (put nat_cmp tx txn (txns_of conn self.old.txns)) self.old.txns) }
        ensures err { OnErr result (self.new.txns ≡ self.old.txns) }
        ensures queues { self.new.queues ≡ self.old.queues }
    {
        self.busy.reserve(1)?;
        let Some(row) = self.rows.get_mut(conn) else {
            return Ok(());
        };
        row.add_txn(tx, txn)?;
        self.busy.put(conn, ());
        Ok(())
    }

    /// An open transaction of a connection. O(log connections + log open transactions).
    pub fn txn(&self, conn: u32, tx: u32) -> Option<&Txn>
        ensures { option_copied result ≡ find nat_cmp tx (txns_of conn self.now.txns) }
    {
        let row = self.rows.get(conn)?;
        row.txn(tx)
    }

    /// The same, to be changed.
    pub fn txn_mut(&mut self, conn: u32, tx: u32) -> Option<&mut Txn>
        ensures* writes_back { sem 𝓛 (LendsIf the_row txn_row self.entry result (λ txn. record self.old { txns = put nat_cmp conn (put nat_cmp tx txn (txns_of conn self.old.txns)) self.old.txns }) self.old) }
        ensures value { option_copied_mut result ≡ find nat_cmp tx (txns_of conn self.old.txns) }
        ensures rising { is_sorted nat_cmp (txns_of conn self.old.txns) ≡ true }
    {
        let row = self.rows.get_mut(conn)?;
        let txn = row.txn_mut(tx)?;
        Some(txn)
    }

    /// Closes an open transaction, and gives it away. It takes no memory, and moves those of higher numbers.
    pub fn take(&mut self, conn: u32, tx: u32) -> Option<Txn>
        ensures found { result ≡ find nat_cmp tx (txns_of conn self.old.txns) }
        ensures closed { is_some result ≡ true → self.new.txns ≡ put nat_cmp conn (where_key nat_cmp (λ key. not (tx == key)) (txns_of conn self.old.txns)) self.old.txns }
        ensures absent { result ≡ None → self.new.txns ≡ self.old.txns }
        ensures queues { self.new.queues ≡ self.old.queues }
    {
        let row = self.rows.get_mut(conn)?;
        let txn = row.take(tx)?;
        settle(&mut self.busy, conn, row.open_count());
        Some(txn)
    }

    /// Closes all open transactions of a connection that is there. It takes no memory. O(log connections + what they keep).
    pub fn close_all(&mut self, conn: u32)
        requires there { is_some (find nat_cmp conn self.old.txns) ≡ true }
        ensures txns { self.new.txns ≡ put nat_cmp conn [] self.old.txns }
        ensures queues { self.new.queues ≡ self.old.queues }
    {
        let alloc = self.alloc;
        let Some(row) = self.rows.get_mut(conn) else {
            unreachable!()
        };
        row.close_all(alloc);
        self.busy.remove(conn);
    }

    /// Takes memory for what the open transactions note once these paths of the tree change, whose nodes stand there now.
    /// The transactions are the same afterwards, also where there is no memory. O(open transactions * paths) searches.
    pub fn plan_notes(&mut self, tree: &Tree, changed: &Paths) -> Result<(), NoMemory>
        ensures ok { OnOk result (ArePlanned tree.now.nodes changed.now self.new.txns) }
        ensures same { opens_of self.new.txns ≡ opens_of self.old.txns }
        ensures queues { self.new.queues ≡ self.old.queues }
    {
        let mut at = None;
        'conns: while let Some(conn) = next_of(&self.busy, at) {
            if let Some(row) = self.rows.get_mut(conn) {
                row.plan_notes(tree, changed)?;
            }
            at = Some(conn);
        }
        Ok(())
    }

    /// Notes what was planned. It takes no memory, and costs as much.
    pub fn apply_notes(&mut self)
        requires { HaveRoom self.old.txns }
        ensures noted { (tree : Nodes) (changed : List Place) → ArePlanned tree changed self.old.txns → opens_of self.new.txns ≡ noted_all tree changed (opens_of self.old.txns) }
        ensures queues { self.new.queues ≡ self.old.queues }
    {
        let mut at = None;
        'conns: while let Some(conn) = next_of(&self.busy, at) {
            if let Some(row) = self.rows.get_mut(conn) {
                row.apply_notes();
            }
            at = Some(conn);
        }
    }
}
