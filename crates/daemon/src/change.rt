//! A change of the tree. It goes one way, whoever asks for it: it is written as marks, what it owes to watches is weighed,
//! all memory for it is taken, and then the open transactions note it and the tree takes it, without a refusal.

ghost use Rattle.std.specs.Prelude.{◌≡◌, ◌<◌, ◌≤◌, true, is_some, length, Some, IfOk, OnOk, OnErr, IfSome};
ghost use Rattle.std.specs.List.{AllByRecursion};
ghost use Rattle.std.specs.FinMap.{find};
ghost use Rattle.std.specs.Ordering.{nat_cmp};
ghost use Rattle.xs_model.specs.Generations.{greatest};
ghost use Rattle.xs_model.specs.Trees.{IsTree};
ghost use Rattle.mark_model.specs.Marks.{committed, written_paths};
ghost use Rattle.conn_rows.specs.Queued.{unsent_of, rests_of};
ghost use Rattle.conn_rows.specs.Rows.{ArePlanned, opens_of, txns_of};
ghost use Rattle.conn_rows.specs.Sending.{HasRoomFor};
ghost use Rattle.watchers.specs.Watched.{AreOwn};
ghost use Rattle.daemon.specs.Changes.{IsMadeOr, IsUnchanged, IsWeighed, IsSendable, without_txn};
ghost use Rattle.daemon.specs.Peers.{message_limit};

use crate::committed::Committed;
use crate::peers::MESSAGE_MAX;
use conn_rows::Rows;
use conn_table::Conns;
use node_tree::Tree;
use owed_bytes::Owed;
use txn_access::{Plan, Txn};
use watchers::Watchers;
use xs_base::NoMemory;
use xs_path::Paths;

/// Whom a change concerns besides the tree: the connections, and what they watch.
#[derive(Clone, Copy)]
pub struct Hearers<'a> {
    pub conns: &'a Conns,
    pub watchers: &'a Watchers,
}

/// Who asks for a change, and how many bytes the reply will have.
#[derive(Clone, Copy)]
pub struct Asked {
    pub conn: u32,
    pub reply: usize,
}

/// What comes of a change.
#[derive(Drop)]
pub enum Made {
    /// It is made, and owes this.
    Done(Owed),
    /// It is not: this connection would have too many unsent bytes.
    Crowded { conn: u32 },
}

/// What a commit of a transaction owes, or whom it would crowd.
fn weigh(
    tree: &Tree,
    rows: &Rows,
    hearers: &Hearers,
    asked: Asked,
    txn: &Txn,
    written: &Paths,
) -> Result<Made, NoMemory>
    requires tree { IsTree (committed tree.now.nodes txn.now.marks) }
    requires written { written.now ≡ written_paths txn.now.marks }
    requires own { AreOwn hearers.now.conns.now hearers.now.watchers.now }
    requires queues { IsSendable asked.conn asked.reply rows.now.queues }
    ensures { IfOk result (IsWeighed asked.conn asked.reply txn.now.marks hearers.now.conns.now hearers.now.watchers.now tree.now rows.now) }
{
    let after = Committed::new(tree, txn);
    let owed = hearers.watchers.owed(hearers.conns, tree, written, &after)?;
    match rows.crowding(asked.conn, asked.reply, &owed) {
        Some(conn) => Ok(Made::Crowded { conn }),
        None => Ok(Made::Done(owed)),
    }
}

/// Takes memory for what the open transactions note, and for what is sent.
fn reserve(
    tree: &Tree,
    rows: &mut Rows,
    conn: u32,
    plan: &Plan,
    owed: &Owed,
) -> Result<(), NoMemory>
    requires positive { AllByRecursion (λ e. 1 ≤ e.0) rows.old.queues }
    ensures planned { OnOk result (ArePlanned tree.now.nodes plan.now.changed rows.new.txns) }
    ensures room { OnOk result (HasRoomFor conn message_limit owed.now rows.new.queues) }
    ensures opens { opens_of rows.new.txns ≡ opens_of rows.old.txns }
    ensures unsent { unsent_of rows.new.queues ≡ unsent_of rows.old.queues }
    ensures rests { rests_of rows.new.queues ≡ rests_of rows.old.queues }
{
    rows.plan_notes(tree, &plan.changed)?;
    rows.reserve_all(conn, MESSAGE_MAX, owed)
}

/// Makes the change that a transaction wrote, which is not among the open ones. Refused, nothing has changed.
pub fn make(
    tree: &mut Tree,
    rows: &mut Rows,
    hearers: &Hearers,
    asked: Asked,
    txn: Txn,
) -> Result<Made, NoMemory>
    requires tree { IsTree (committed tree.old.nodes txn.marks) }
    requires counter { tree.old.counter ≡ greatest tree.old.gens }
    requires own { AreOwn hearers.now.conns.now hearers.now.watchers.now }
    requires queues { IsSendable asked.conn asked.reply rows.old.queues }
    ensures ok { IfOk result (λ made. IsMadeOr asked.conn asked.reply txn.marks hearers.now.conns.now hearers.now.watchers.now tree.old rows.old rows.old made tree.new rows.new) }
    ensures err { OnErr result (IsUnchanged tree.old rows.old tree.new rows.new) }
{
    let plan = txn.prepare(tree)?;
    let owed = match weigh(tree, rows, hearers, asked, &txn, &plan.written)? {
        Made::Crowded { conn } => return Ok(Made::Crowded { conn }),
        Made::Done(owed) => owed,
    };
    reserve(tree, rows, asked.conn, &plan, &owed)?;
    let _written = txn.commit_planned(tree, plan);
    rows.apply_notes();
    Ok(Made::Done(owed))
}

/// Makes the change that an open transaction wrote, and closes it. Refused, nothing has changed.
pub fn make_open(
    tree: &mut Tree,
    rows: &mut Rows,
    hearers: &Hearers,
    asked: Asked,
    tx: u32,
) -> Result<Made, NoMemory>
    requires there { is_some (find nat_cmp tx (txns_of asked.conn rows.old.txns)) ≡ true }
    requires tree { IfSome (find nat_cmp tx (txns_of asked.conn rows.old.txns)) (λ txn. IsTree (committed tree.old.nodes txn.marks)) }
    requires counter { tree.old.counter ≡ greatest tree.old.gens }
    requires own { AreOwn hearers.now.conns.now hearers.now.watchers.now }
    requires queues { IsSendable asked.conn asked.reply rows.old.queues }
    ensures ok { IfOk result (λ made. IfSome (find nat_cmp tx (txns_of asked.conn rows.old.txns)) (λ txn.
        IsMadeOr asked.conn asked.reply txn.marks hearers.now.conns.now hearers.now.watchers.now tree.old rows.old (without_txn asked.conn tx rows.old) made tree.new rows.new)) }
    ensures err { OnErr result (IsUnchanged tree.old rows.old tree.new rows.new) }
{
    let Some(txn) = rows.txn(asked.conn, tx) else {
        unreachable!()
    };
    let plan = txn.prepare(tree)?;
    let owed = match weigh(tree, rows, hearers, asked, txn, &plan.written)? {
        Made::Crowded { conn } => return Ok(Made::Crowded { conn }),
        Made::Done(owed) => owed,
    };
    reserve(tree, rows, asked.conn, &plan, &owed)?;
    let Some(txn) = rows.take(asked.conn, tx) else {
        unreachable!()
    };
    let _written = txn.commit_planned(tree, plan);
    rows.apply_notes();
    Ok(Made::Done(owed))
}
