//! The open transactions of a connection that came, and what is said of their paths.

ghost use Rattle.std.specs.Prelude.{◌≡◌, ◌≤◌, [], None, is_some, true, IfOk, IfSome, OnOk, OnErr};
ghost use Rattle.std.specs.FinMap.{find, put, is_sorted};
ghost use Rattle.std.specs.List.{AllByRecursion};
ghost use Rattle.std.specs.Option.{option_copied};
ghost use Rattle.std.specs.Ordering.{nat_cmp};
ghost use Rattle.xs_model.specs.Paths.{path_cmp};
ghost use Rattle.kept_model.specs.Loading.{with_said};
ghost use Rattle.conn_rows.specs.Rows.{kept_txn};
ghost use Rattle.mig_load.specs.Settled.{kept_of};

use id_map::IdMap;
use node_tree::Tree;
use path_map::PathMap;
use std::alloc::Global;
use std::marker::Model;
use txn_access::Txn;
use txn_normal::{Said, normal};
use xs_base::NoMemory;
use xs_path::Path;

/// An open transaction: how many of its commands wrote something, and what is said of its paths.
#[derive(Drop)]
pub struct Opened {
    count: u32,
    marks: PathMap<Said>,
}

impl Model for Opened {
    ghost use Rattle.kept_model.specs.States.{TransactionOf};
    ghost use Rattle.kept_model.specs.Said.{Said};

    ghost Value = { TransactionOf Said };

    ghost view = { λ opened. record { count = opened.count; marks = opened.marks.entries } };
}

/// The open transactions of a connection, by their numbers.
#[derive(Drop)]
pub struct Opens {
    txns: IdMap<Opened>,
}

impl Model for Opens {
    ghost use Rattle.std.specs.Prelude.{ℕ, List, ◌≤◌};
    ghost use Rattle.std.specs.List.{AllByRecursion};
    ghost use Rattle.kept_model.specs.States.{TransactionOf};
    ghost use Rattle.kept_model.specs.Said.{Said};

    ghost Value = { List (ℕ × TransactionOf Said) };

    ghost view = { λ opens. opens.txns.entries };

    // No transaction has the number 0.
    ghost invariant = { λ opens. AllByRecursion (λ e. 1 ≤ e.0) opens.txns.entries };
}

impl Opened {
    /// A transaction of which nothing is said. It takes no memory.
    fn new(alloc: Global, count: u32) -> Opened
        ensures { result ≡ record { count = count; marks = [] } }
    {
        Opened {
            count,
            marks: PathMap::new(alloc),
        }
    }

    /// Whether something is said of a path. O(log paths) comparisons of paths.
    pub fn has(&self, path: &Path) -> bool
        ensures { result ≡ is_some (find path_cmp path.now self.now.marks) }
    {
        self.marks.get(path).is_some()
    }

    /// The transaction that goes on, over the nodes that are there now. Costs what [`normal`] costs.
    pub fn settle(self, alloc: Global, tree: &Tree) -> Result<Txn, NoMemory>
        ensures { IfOk result (λ txn. kept_txn txn ≡ kept_of tree.now.nodes self) }
    {
        normal(alloc, tree, self.marks, self.count)
    }

    /// Keeps what is said of a path. Refused, nothing has changed.
    fn mark(&mut self, path: Path, said: Said) -> Result<(), NoMemory>
        ensures ok { OnOk result (self.new ≡ with_said path said self.old) }
        ensures err { OnErr result (self.new ≡ self.old) }
    {
        self.marks.reserve(1)?;
        self.marks.put(path, said);
        Ok(())
    }
}

impl Opens {
    /// No transactions. It takes no memory.
    pub fn new(alloc: Global) -> Opens
        ensures { result ≡ [] }
    {
        Opens {
            txns: IdMap::new(alloc),
        }
    }

    /// A transaction, if it is open. O(log transactions).
    pub fn txn(&self, tx: u32) -> Option<&Opened>
        ensures { option_copied result ≡ find nat_cmp tx self.now }
    {
        self.txns.get(tx)
    }

    /// Opens a transaction of which nothing is said yet. Refused, nothing has changed. It moves the transactions of higher
    /// numbers.
    pub fn open(&mut self, alloc: Global, tx: u32, count: u32) -> Result<(), NoMemory>
        requires positive { 1 ≤ tx }
        requires free { find nat_cmp tx self.old ≡ None }
        ensures ok { OnOk result (self.new ≡ put nat_cmp tx (record { count = count; marks = [] }) self.old) }
        ensures err { OnErr result (self.new ≡ self.old) }
    {
        self.txns.add(tx, Opened::new(alloc, count))
    }

    /// Keeps what is said of a path of a transaction that is open. Refused, nothing has changed. O(log transactions +
    /// log paths).
    pub fn mark(&mut self, tx: u32, path: Path, said: Said) -> Result<(), NoMemory>
        ensures ok { OnOk result (IfSome (find nat_cmp tx self.old) (λ t. self.new ≡ put nat_cmp tx (with_said path said t) self.old)) }
        ensures err { OnErr result (self.new ≡ self.old) }
    {
        let Some(opened) = self.txns.get_mut(tx) else {
            return Ok(());
        };
        opened.mark(path, said)
    }

    /// The transactions themselves, in rising order of their numbers.
    pub fn into_entries(self) -> Vec<(u32, Opened)>
        ensures entries { result.items ≡ self }
        ensures rising { is_sorted nat_cmp self ≡ true }
        ensures positive { AllByRecursion (λ e. 1 ≤ e.0) self }
    {
        self.txns.into_vec()
    }
}
