//! Tree commands, outside of transactions and inside them.

ghost use Rattle.std.specs.Prelude.{◌≡◌, ◌≤◌, ◌+◌, ℕ, Some, length, IfOk, OnErr};
ghost use Rattle.std.specs.Ordering.{nat_cmp};
ghost use Rattle.std.specs.FinMap.{find};
ghost use Rattle.xs_model.specs.Trees.{IsTree};
ghost use Rattle.xs_model.specs.Commands.{command as model_command, command_edits};
ghost use Rattle.machine_model.specs.Connections.{caller_of};
ghost use Rattle.mark_model.specs.Marks.{overlay, write_all};
ghost use Rattle.mark_model.specs.Stores.{kept_act};
ghost use Rattle.wire_codec.specs.Codec.{IsInForm, request_view, operation_of};
ghost use Rattle.daemon.specs.Acts.{Did as HasDone, IsAnswered, IsShort, IsAsBefore, IsWhole, store_in};
ghost use Rattle.daemon.specs.Commands.{IsRun, IsInside};
ghost use Rattle.conn_rows.specs.Rows.{kept_txn};
ghost use Rattle.daemon.specs.Peers.{MayAsk, conn_in};

use crate::answer::Door;
use crate::change::{self, Asked, Hearers, Made};
use crate::domains::Asker;
use crate::peers::Peers;
use crate::reply::{Answer, Answered, Reply, reply_length};
use node_tree::Tree;
use std::alloc::Global;
use tree_ops::{Did, run};
use txn_access::{Overlay, Txn};
use wire_codec::{Request, TreeCommand, WireErr};
use xs_base::NoMemory;
use xs_path::Path;

/// Runs a command on what a transaction sees, and writes its edits as marks; room for so many paths that it looks at stays
/// aside. Refused, the marks are as before.
fn run_over(
    alloc: Global,
    tree: &Tree,
    txn: &mut Txn,
    asker: Asker,
    command: &TreeCommand,
    number: u64,
    looks: usize,
) -> Result<Did, NoMemory>
    requires form { IsInForm command.now }
    requires tree { IsTree (overlay tree.now.nodes txn.old.marks) }
    ensures ok { IfOk result (λ did. IsRun asker.spec (operation_of command.now.op) command.now.path number looks tree.now.nodes txn.old did txn.new) }
    ensures short { IfOk result (λ did. IfOk did.reply (λ payload. length payload ≤ 4096)) }
    ensures marks { OnErr result (txn.new.marks ≡ txn.old.marks) }
    ensures count { OnErr result (txn.new.count ≡ txn.old.count) }
{
    let mut view = Overlay::new(tree, txn, looks);
    let did = run(
        alloc,
        command,
        asker.domid(),
        asker.target(),
        number,
        &mut view,
    )?;
    Ok(did)
}

/// A command outside of transactions changes the tree at once.
pub fn outside(
    alloc: Global,
    tree: &mut Tree,
    peers: &mut Peers,
    asker: Asker,
    command: &TreeCommand,
) -> Result<Answered, NoMemory>
    requires whole { IsWhole tree.old peers.old }
    requires there { find nat_cmp asker.conn peers.old.specs ≡ Some asker.spec }
    requires may { MayAsk asker.conn peers.old }
    requires form { IsInForm command.now }
    ensures ok { IfOk result (λ answered. IsAnswered asker.conn tree.old peers.old
        (kept_act (store_in tree.old peers.old) asker.conn (conn_in peers.old asker.conn asker.spec) 0 (request_view (Request.Command command.now))) answered tree.new peers.new) }
    ensures short { IfOk result IsShort }
    ensures err { OnErr result (IsAsBefore tree.old peers.old tree.new peers.new) }
{
    let number = tree.generation(&command.path).unwrap_or(0);
    let mut txn = Txn::start(alloc);
    let did = run_over(alloc, tree, &mut txn, asker, command, number, 0)?;
    if did.written.is_empty() {
        return Ok(Answered::Done(Answer::of_reply(alloc, did.reply)));
    }
    let hearers = Hearers {
        conns: &peers.conns,
        watchers: &peers.watchers,
    };
    let asked = Asked {
        conn: asker.conn,
        reply: reply_length(&did.reply),
    };
    let owed = match change::make(tree, &mut peers.rows, &hearers, asked, txn)? {
        Made::Crowded { conn } => return Ok(Answered::Crowded { conn }),
        Made::Done(owed) => owed,
    };
    Ok(Answered::Done(Answer {
        reply: did.reply,
        door: Door::Same,
        owed,
    }))
}

/// So many paths a command looks at at the most: those on the way down to its own.
fn most_looks(path: &Path) -> Result<usize, NoMemory>
    ensures { IfOk result (λ looks. looks ≡ length path.now + 2) }
{
    match path.depth().checked_add(2) {
        Some(looks) => Ok(looks),
        None => Err(NoMemory),
    }
}

/// Runs a command inside a transaction: its edits and what it looks at become marks, and it counts where it wrote. Refused,
/// the transaction is as before.
fn run_inside(
    alloc: Global,
    tree: &Tree,
    txn: &mut Txn,
    asker: Asker,
    command: &TreeCommand,
) -> Result<Reply, NoMemory>
    requires form { IsInForm command.now }
    requires tree { IsTree (overlay tree.now.nodes txn.old.marks) }
    ensures ok { IfOk result (λ reply. IsInside asker.spec (operation_of command.now.op) command.now.path tree.now.nodes (kept_txn txn.old) reply (kept_txn txn.new)) }
    ensures short { IfOk result (λ reply. IfOk reply (λ payload. length payload ≤ 4096)) }
    ensures err { OnErr result (kept_txn txn.new ≡ kept_txn txn.old) }
{
    let looks = most_looks(&command.path)?;
    txn.reserve_change(looks)?;
    let number = u64::from(txn.count());
    let did = run_over(alloc, tree, txn, asker, command, number, looks)?;
    if !did.written.is_empty() {
        txn.tally();
    }
    txn.look(did.touched);
    Ok(did.reply)
}

/// A command inside a transaction writes its marks, whatever its answer is.
pub fn inside(
    alloc: Global,
    tree: &Tree,
    peers: &mut Peers,
    asker: Asker,
    tx_id: u32,
    command: &TreeCommand,
) -> Result<Answer, NoMemory>
    requires whole { IsWhole tree.now peers.old }
    requires there { find nat_cmp asker.conn peers.old.specs ≡ Some asker.spec }
    requires may { MayAsk asker.conn peers.old }
    requires form { IsInForm command.now }
    requires inside { 1 ≤ tx_id }
    ensures ok { IfOk result (λ answer. HasDone asker.conn tree.now peers.old
        (kept_act (store_in tree.now peers.old) asker.conn (conn_in peers.old asker.conn asker.spec) tx_id (request_view (Request.Command command.now))) answer tree.now peers.new) }
    ensures short { IfOk result (λ answer. IfOk answer.reply (λ payload. length payload ≤ 4096)) }
    ensures err { OnErr result (IsAsBefore tree.now peers.old tree.now peers.new) }
{
    let Some(txn) = peers.rows.txn_mut(asker.conn, tx_id) else {
        return Ok(Answer::refused(alloc, WireErr::Enoent));
    };
    let reply = run_inside(alloc, tree, txn, asker, command)?;
    Ok(Answer::of_reply(alloc, reply))
}
