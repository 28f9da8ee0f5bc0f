//! TRANSACTION_START and TRANSACTION_END (xenstore.txt, "Transactions").

ghost use Rattle.std.specs.Prelude.{◌≡◌, ◌≤◌, true, false, is_some, Some, length, IfOk, IfSome, OnErr, decimal};
ghost use Rattle.std.specs.Ordering.{nat_cmp};
ghost use Rattle.std.specs.FinMap.{find};
ghost use Rattle.xs_model.specs.Generations.{greatest};
ghost use Rattle.xs_model.specs.Messages.{string};
ghost use Rattle.xs_model.specs.Requests as model;
ghost use Rattle.machine_model.specs.Machine.{transaction_limit};
ghost use Rattle.mark_model.specs.Stores.{kept_act};
ghost use Rattle.node_tree.specs.KeptTree.{KeptTree};
ghost use Rattle.conn_rows.specs.Rows.{txns_of};
ghost use Rattle.daemon.specs.Acts.{Did, IsAnswered, IsShort, IsAsBefore, IsWhole, store_in};
ghost use Rattle.daemon.specs.Peers.{IsSound, MayAsk, conn_in};
ghost use Rattle.mark_model.specs.Marks.{has_conflict};

use crate::answer::Door;
use crate::change::{self, Asked, Hearers, Made};
use crate::domains::{Asker, DONE, DONE_LENGTH};
use crate::peers::Peers;
use crate::reply::{Answer, Answered};
use machine_model::{CONTROL_TRANSACTIONS, GUEST_TRANSACTIONS};
use node_tree::Tree;
use std::alloc::Global;
use wire_codec::WireErr;
use xs_base::{Bytes, NoMemory, push_decimal};

/// So many transactions a connection may have open.
fn limit(asker: Asker) -> usize
    ensures { result ≡ transaction_limit asker.spec }
{
    if asker.domid() == 0 {
        CONTROL_TRANSACTIONS
    } else {
        GUEST_TRANSACTIONS
    }
}

/// The payload of a number: its digits and a NUL.
fn number(alloc: Global, number: u32) -> Result<Bytes, NoMemory>
    ensures { IfOk result (λ payload. payload ≡ string (decimal number)) }
{
    let mut payload = Bytes::new(alloc);
    push_decimal(&mut payload, u64::from(number))?;
    payload.push(b"\0")?;
    Ok(payload)
}

/// TRANSACTION_START: opens a transaction, and answers its number. It is refused inside a transaction, and then where too
/// many are open. It takes memory for the answer and for one transaction's place.
pub fn start(alloc: Global, peers: &mut Peers, asker: Asker, tx_id: u32) -> Result<Answer, NoMemory>
    requires sound { IsSound peers.old }
    requires there { find nat_cmp asker.conn peers.old.specs ≡ Some asker.spec }
    requires may { MayAsk asker.conn peers.old }
    ensures ok { IfOk result (λ answer. (tree : KeptTree) → tree.counter ≡ greatest tree.gens
        → Did asker.conn tree peers.old (kept_act (store_in tree peers.old) asker.conn (conn_in peers.old asker.conn asker.spec) tx_id model.Start) answer tree peers.new) }
    ensures short { IfOk result (λ answer. IfOk answer.reply (λ payload. length payload ≤ 4096)) }
    ensures err { OnErr result (peers.new ≡ peers.old) }
{
    if tx_id != 0 {
        return Ok(Answer::refused(alloc, WireErr::Ebusy));
    }
    if peers.rows.open_count(asker.conn) >= limit(asker) {
        return Ok(Answer::refused(alloc, WireErr::Enospc));
    }
    let free = peers.rows.free_number(asker.conn);
    let payload = number(alloc, free)?;
    peers.rows.open(asker.conn, free)?;
    Ok(Answer::of(alloc, payload))
}

/// TRANSACTION_END: closes a transaction, whatever the answer is. `commit` makes its change, unless others changed a path
/// that it looked at.
pub fn end(
    alloc: Global,
    tree: &mut Tree,
    peers: &mut Peers,
    asker: Asker,
    tx_id: u32,
    commit: bool,
) -> Result<Answered, NoMemory>
    requires whole { IsWhole tree.old peers.old }
    requires there { find nat_cmp asker.conn peers.old.specs ≡ Some asker.spec }
    requires may { MayAsk asker.conn peers.old }
    ensures ok { IfOk result (λ answered. IsAnswered asker.conn tree.old peers.old
        (kept_act (store_in tree.old peers.old) asker.conn (conn_in peers.old asker.conn asker.spec) tx_id (model.End commit)) answered tree.new peers.new) }
    ensures short { IfOk result IsShort }
    ensures err { OnErr result (IsAsBefore tree.old peers.old tree.new peers.new) }
{
    let Some(txn) = peers.rows.txn(asker.conn, tx_id) else {
        return Ok(Answered::Done(Answer::refused(alloc, WireErr::Enoent)));
    };
    if !commit {
        return Ok(Answered::Done(forget(alloc, peers, asker, tx_id)?));
    }
    if txn.conflict().is_some() {
        let _closed = peers.rows.take(asker.conn, tx_id);
        return Ok(Answered::Done(Answer::refused(alloc, WireErr::Eagain)));
    }
    commit_open(alloc, tree, peers, asker, tx_id)
}

/// TRANSACTION_END without a commit, of a transaction that is open.
fn forget(alloc: Global, peers: &mut Peers, asker: Asker, tx_id: u32) -> Result<Answer, NoMemory>
    requires sound { IsSound peers.old }
    requires there { find nat_cmp asker.conn peers.old.specs ≡ Some asker.spec }
    requires may { MayAsk asker.conn peers.old }
    requires open { is_some (find nat_cmp tx_id (txns_of asker.conn peers.old.txns)) ≡ true }
    ensures ok { IfOk result (λ answer. (tree : KeptTree) → tree.counter ≡ greatest tree.gens
        → Did asker.conn tree peers.old (kept_act (store_in tree peers.old) asker.conn (conn_in peers.old asker.conn asker.spec) tx_id (model.End false)) answer tree peers.new) }
    ensures short { IfOk result (λ answer. IfOk answer.reply (λ payload. length payload ≤ 4096)) }
    ensures err { OnErr result (peers.new ≡ peers.old) }
{
    let done = Bytes::copy(alloc, DONE)?;
    let _closed = peers.rows.take(asker.conn, tx_id);
    Ok(Answer::of(alloc, done))
}

/// TRANSACTION_END with the commit of a transaction that is open and not in conflict.
fn commit_open(
    alloc: Global,
    tree: &mut Tree,
    peers: &mut Peers,
    asker: Asker,
    tx_id: u32,
) -> Result<Answered, NoMemory>
    requires whole { IsWhole tree.old peers.old }
    requires there { find nat_cmp asker.conn peers.old.specs ≡ Some asker.spec }
    requires may { MayAsk asker.conn peers.old }
    requires open { is_some (find nat_cmp tx_id (txns_of asker.conn peers.old.txns)) ≡ true }
    requires free { IfSome (find nat_cmp tx_id (txns_of asker.conn peers.old.txns)) (λ txn. has_conflict txn.marks ≡ false) }
    ensures ok { IfOk result (λ answered. IsAnswered asker.conn tree.old peers.old
        (kept_act (store_in tree.old peers.old) asker.conn (conn_in peers.old asker.conn asker.spec) tx_id (model.End true)) answered tree.new peers.new) }
    ensures short { IfOk result IsShort }
    ensures err { OnErr result (IsAsBefore tree.old peers.old tree.new peers.new) }
{
    let done = Bytes::copy(alloc, DONE)?;
    let hearers = Hearers {
        conns: &peers.conns,
        watchers: &peers.watchers,
    };
    let asked = Asked {
        conn: asker.conn,
        reply: DONE_LENGTH,
    };
    let owed = match change::make_open(tree, &mut peers.rows, &hearers, asked, tx_id)? {
        Made::Crowded { conn } => return Ok(Answered::Crowded { conn }),
        Made::Done(owed) => owed,
    };
    Ok(Answered::Done(Answer {
        reply: Ok(done),
        door: Door::Same,
        owed,
    }))
}
