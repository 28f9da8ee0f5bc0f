//! What is unsent to one connection, and its open transactions.

ghost use Rattle.std.specs.Prelude.{◌≡◌, ◌+◌, ◌≤◌, ◌<◌, ◌==◌, not, true, [], ◌++◌, length, min, take, drop, Some, None, OnOk, OnErr};
ghost use Rattle.std.specs.Borrow.{LendsIf, sem};
ghost use Rattle.std.specs.Option.{option_copied, option_copied_mut};
ghost use Rattle.std.specs.List.{AllByRecursion};
ghost use Rattle.std.specs.Ordering.{nat_cmp};
ghost use Rattle.std.specs.FinMap.{find, put, is_sorted};
ghost use Rattle.std.specs.FinMap.Entries.{where_key};
ghost use Rattle.xs_model.specs.Wholes.{whole_behind, rest_after};
ghost use Rattle.machine_model.specs.Connections.{least_free};
ghost use Rattle.txn_access.specs.Txns.{Plans};
ghost use Rattle.txn_access.specs.contracts.txn.Txn.{the_row as txn_row};
ghost use Rattle.conn_rows.specs.Rows.{opens_in, applied_in, EachIn, HasRoomToNote};
ghost use Rattle.conn_rows.specs.contracts.row.Row.{the_row};

use id_map::IdMap;
use node_tree::Tree;
use out_queues::OutQueue;
use std::alloc::Global;
use std::marker::Model;
use txn_access::Txn;
use xs_base::NoMemory;
use xs_path::Paths;

/// What a daemon keeps of a connection besides its other end.
#[derive(Drop)]
pub struct Row {
    queue: OutQueue,
    txns: IdMap<Txn>,
}

impl Model for Row {
    ghost use Rattle.std.specs.Prelude.{◌≤◌};
    ghost use Rattle.std.specs.List.{AllByRecursion};
    ghost use Rattle.conn_rows.specs.Rows.{Row};

    ghost Value = { Row };

    ghost view = { λ row. record { queue = row.queue; txns = row.txns.entries } };

    // No transaction has the number 0.
    ghost invariant = { λ row. AllByRecursion (λ e. 1 ≤ e.0) row.txns.entries };
}

impl Row {
    /// Nothing is unsent but what waits in this queue, and no transaction is open. It takes no memory.
    pub fn of(alloc: Global, queue: OutQueue) -> Row
        ensures queue { result.queue ≡ queue }
        ensures txns { result.txns ≡ [] }
    {
        Row {
            queue,
            txns: IdMap::new(alloc),
        }
    }

    /// What is unsent. O(1).
    pub fn queue(&self) -> &OutQueue
        ensures { result.now ≡ self.now.queue }
    {
        &self.queue
    }

    /// Behind the rest of a message in front, what is unsent is whole messages. O(1).
    pub fn is_whole(&self)
        ensures { whole_behind self.now.queue.rest self.now.queue.bytes ≡ true }
    {
        let _unsent = self.queue.bytes();
    }

    /// The open transactions, in rising order of their numbers. O(1).
    pub fn txns(&self) -> &[(u32, Txn)]
        ensures txns { result.now ≡ self.now.txns }
        ensures positive { AllByRecursion (λ e. 1 ≤ e.0) result.now }
    {
        self.txns.entries()
    }

    /// How many bytes are unsent.
    pub fn unsent(&self) -> usize
        ensures { result ≡ length self.now.queue.bytes }
    {
        self.queue.unsent()
    }

    /// Takes memory for so many bytes more. What is unsent is as before.
    pub fn reserve(&mut self, bytes: usize) -> Result<(), NoMemory>
        ensures ok { OnOk result (bytes ≤ self.new.queue.spare) }
        ensures bytes { self.new.queue.bytes ≡ self.old.queue.bytes }
        ensures rest { self.new.queue.rest ≡ self.old.queue.rest }
        ensures txns { self.new.txns ≡ self.old.txns }
    {
        self.queue.reserve(bytes)
    }

    /// Appends a whole message, for which there is memory.
    pub fn push(&mut self, message: &[u8])
        requires whole { whole_behind 0 message.now ≡ true }
        requires room { length message.now ≤ self.old.queue.spare }
        ensures bytes { self.new.queue.bytes ≡ self.old.queue.bytes ++ message.now }
        ensures rest { self.new.queue.rest ≡ self.old.queue.rest }
        ensures txns { self.new.txns ≡ self.old.txns }
    {
        self.queue.push(message)
    }

    /// Appends whole messages, and others behind them, for which there is memory.
    pub fn send(&mut self, reply: &[u8], owed: &[u8])
        requires whole { (whole_behind 0 reply.now ≡ true) × (whole_behind 0 owed.now ≡ true) }
        requires room { length reply.now + length owed.now ≤ self.old.queue.spare }
        ensures bytes { self.new.queue.bytes ≡ self.old.queue.bytes ++ (reply.now ++ owed.now) }
        ensures rest { self.new.queue.rest ≡ self.old.queue.rest }
        ensures txns { self.new.txns ≡ self.old.txns }
    {
        self.queue.push(reply);
        self.queue.push(owed);
    }

    /// Moves the first unsent bytes into `into`, and says how many.
    pub fn pull(&mut self, into: &mut [u8]) -> usize
        ensures count { result ≡ min (length into.old) (length self.old.queue.bytes) }
        ensures taken { into.new ≡ take result self.old.queue.bytes ++ drop result into.old }
        ensures bytes { self.new.queue.bytes ≡ drop result self.old.queue.bytes }
        ensures rest { self.new.queue.rest ≡ rest_after self.old.queue.rest result self.old.queue.bytes }
        ensures txns { self.new.txns ≡ self.old.txns }
    {
        self.queue.pull(into)
    }

    /// How many transactions are open.
    pub fn open_count(&self) -> usize
        ensures { result ≡ length self.now.txns }
    {
        self.txns.len()
    }

    /// The least number that no open transaction has.
    pub fn free_number(&self) -> u32
        requires { length self.now.txns < 4294967295 }
        ensures value { result ≡ least_free self.now.txns }
        ensures free { find nat_cmp result self.now.txns ≡ None }
        ensures positive { 1 ≤ result }
    {
        self.txns.least_free()
    }

    /// Opens a transaction, with what it keeps. Refused, nothing has changed.
    pub fn add_txn(&mut self, tx: u32, txn: Txn) -> Result<(), NoMemory>
        requires positive { 1 ≤ tx }
        requires free { find nat_cmp tx self.old.txns ≡ None }
        ensures ok { OnOk result (self.new.txns ≡ put nat_cmp tx txn self.old.txns) }
        ensures err { OnErr result (self.new.txns ≡ self.old.txns) }
        ensures queue { self.new.queue ≡ self.old.queue }
    {
        self.txns.add(tx, txn)
    }

    /// An open transaction.
    pub fn txn(&self, tx: u32) -> Option<&Txn>
        ensures { option_copied result ≡ find nat_cmp tx self.now.txns }
    {
        self.txns.get(tx)
    }

    /// The same, to be changed.
    pub fn txn_mut(&mut self, tx: u32) -> Option<&mut Txn>
        ensures* writes_back { sem 𝓛 (LendsIf the_row txn_row self.entry result (λ txn. record self.old { txns = put nat_cmp tx txn self.old.txns }) self.old) }
        ensures value { option_copied_mut result ≡ find nat_cmp tx self.old.txns }
        ensures rising { is_sorted nat_cmp self.old.txns ≡ true }
    {
        let txn = self.txns.get_mut(tx)?;
        Some(txn)
    }

    /// Closes a transaction, and gives it away.
    pub fn take(&mut self, tx: u32) -> Option<Txn>
        ensures found { result ≡ find nat_cmp tx self.old.txns }
        ensures closed { self.new.txns ≡ where_key nat_cmp (λ key. not (tx == key)) self.old.txns }
        ensures queue { self.new.queue ≡ self.old.queue }
    {
        self.txns.take(tx)
    }

    /// Closes all transactions. It takes no memory.
    pub fn close_all(&mut self, alloc: Global)
        ensures txns { self.new.txns ≡ [] }
        ensures queue { self.new.queue ≡ self.old.queue }
    {
        self.txns = IdMap::new(alloc);
    }

    /// Takes memory for what the open transactions note once these paths change.
    pub fn plan_notes(&mut self, tree: &Tree, changed: &Paths) -> Result<(), NoMemory>
        ensures ok { OnOk result (EachIn (Plans tree.now.nodes changed.now) self.new.txns) }
        ensures same { opens_in self.new.txns ≡ opens_in self.old.txns }
        ensures queue { self.new.queue ≡ self.old.queue }
    {
        let mut at = 0;
        'txns: while let Some(tx) = self.txns.next_after(at) {
            if let Some(txn) = self.txns.get_mut(tx) {
                txn.plan_notes(tree, changed)?;
            }
            at = tx;
        }
        Ok(())
    }

    /// Each open transaction notes what it planned.
    pub fn apply_notes(&mut self)
        requires { EachIn HasRoomToNote self.old.txns }
        ensures noted { opens_in self.new.txns ≡ applied_in self.old.txns }
        ensures queue { self.new.queue ≡ self.old.queue }
    {
        let mut at = 0;
        'txns: while let Some(tx) = self.txns.next_after(at) {
            if let Some(txn) = self.txns.get_mut(tx) {
                txn.apply_notes();
            }
            at = tx;
        }
    }
}
