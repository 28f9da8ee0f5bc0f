//! The requests on watches (xenstore.txt, "Watches").

ghost use Rattle.std.specs.Prelude.{◌≡◌, ◌≤◌, ℕ, true, Some, length, IfOk, OnErr};
ghost use Rattle.std.specs.Ordering.{nat_cmp};
ghost use Rattle.std.specs.FinMap.{find};
ghost use Rattle.xs_model.specs.Generations.{Generations, greatest};
ghost use Rattle.xs_model.specs.Requests as model;
ghost use Rattle.xs_model.specs.Requests.{is_watch_path, is_token};
ghost use Rattle.xs_model.specs.Trees.{Tree};
ghost use Rattle.machine_model.specs.Connections.{caller_of};
ghost use Rattle.machine_model.specs.Machine.{act, may_watch};
ghost use Rattle.mark_model.specs.Stores.{kept_act};
ghost use Rattle.node_tree.specs.KeptTree.{KeptTree};
ghost use Rattle.daemon.specs.Acts.{Did, DidBeside, IsSameKept, store_in};
ghost use Rattle.daemon.specs.Keeps.{machine_of};
ghost use Rattle.daemon.specs.Peers.{IsSound, MayAsk, conn_in};

use crate::answer::Door;
use crate::domains::{Asker, DONE};
use crate::peers::Peers;
use crate::reply::Answer;
use machine_model::WATCH_LIMIT;
use std::alloc::Global;
use wire_codec::WireErr;
use xs_base::{Bytes, NoMemory};

/// WATCH: adds a watch behind all others of the connection. It is told of it at once, with the path as it was given. The
/// watch is refused where it is there already, and then where a guest has 128. It takes memory for the answer, the message
/// and the watch.
pub fn watch(
    alloc: Global,
    peers: &mut Peers,
    asker: Asker,
    wpath: &[u8],
    token: &[u8],
) -> Result<Answer, NoMemory>
    requires sound { IsSound peers.old }
    requires there { find nat_cmp asker.conn peers.old.specs ≡ Some asker.spec }
    requires may { MayAsk asker.conn peers.old }
    requires wpath { is_watch_path wpath.now (caller_of asker.spec).domid ≡ true }
    requires token { is_token token.now ≡ true }
    ensures ok { IfOk result (λ answer. (tree : Tree) (gens : Generations) (tx : ℕ)
        → DidBeside asker.conn peers.old (act (machine_of tree gens peers.old.specs peers.old.watched) asker.conn (conn_in peers.old asker.conn asker.spec) tx (model.Watch wpath.now token.now)) tree gens answer peers.new) }
    ensures short { IfOk result (λ answer. IfOk answer.reply (λ payload. length payload ≤ 4096)) }
    ensures err { OnErr result (IsSameKept peers.old peers.new) }
{
    if peers.watchers.has(asker.conn, wpath, token) {
        return Ok(Answer::refused(alloc, WireErr::Eexist));
    }
    if !may_watch(peers, asker) {
        return Ok(Answer::refused(alloc, WireErr::E2big));
    }
    let reply = Ok(Bytes::copy(alloc, DONE)?);
    let owed = peers.watchers.first_owed(asker.conn, wpath, token)?;
    let wpath = Bytes::copy(alloc, wpath)?;
    let token = Bytes::copy(alloc, token)?;
    peers.reserve_all(asker.conn, &owed)?;
    peers.watchers.add(asker.conn, wpath, token, asker.domid())?;
    Ok(Answer {
        reply,
        door: Door::Same,
        owed,
    })
}

/// Whether a connection may have one watch more.
fn may_watch(peers: &Peers, asker: Asker) -> bool
    ensures { result ≡ may_watch (conn_in peers.now asker.conn asker.spec) }
{
    asker.domid() == 0 || peers.watchers.count(asker.conn) < WATCH_LIMIT
}

/// UNWATCH: removes a watch of the connection, and is refused where it has none with this path and token. It takes memory
/// for the answer alone.
pub fn unwatch(
    alloc: Global,
    peers: &mut Peers,
    asker: Asker,
    wpath: &[u8],
    token: &[u8],
) -> Result<Answer, NoMemory>
    requires sound { IsSound peers.old }
    requires there { find nat_cmp asker.conn peers.old.specs ≡ Some asker.spec }
    requires may { MayAsk asker.conn peers.old }
    ensures ok { IfOk result (λ answer. (tree : Tree) (gens : Generations) (tx : ℕ)
        → DidBeside asker.conn peers.old (act (machine_of tree gens peers.old.specs peers.old.watched) asker.conn (conn_in peers.old asker.conn asker.spec) tx (model.Unwatch wpath.now token.now)) tree gens answer peers.new) }
    ensures short { IfOk result (λ answer. IfOk answer.reply (λ payload. length payload ≤ 4096)) }
    ensures err { OnErr result (peers.new ≡ peers.old) }
{
    let done = Bytes::copy(alloc, DONE)?;
    if !peers.watchers.remove(asker.conn, wpath, token) {
        return Ok(Answer::refused(alloc, WireErr::Enoent));
    }
    Ok(Answer::of(alloc, done))
}

/// RESET_WATCHES: removes all watches of the connection, and closes all its open transactions. What is unsent to it stays.
/// It takes memory for the answer alone.
pub fn reset(alloc: Global, peers: &mut Peers, asker: Asker) -> Result<Answer, NoMemory>
    requires sound { IsSound peers.old }
    requires there { find nat_cmp asker.conn peers.old.specs ≡ Some asker.spec }
    requires may { MayAsk asker.conn peers.old }
    ensures ok { IfOk result (λ answer. (tree : KeptTree) (tx : ℕ) → tree.counter ≡ greatest tree.gens
        → Did asker.conn tree peers.old (kept_act (store_in tree peers.old) asker.conn (conn_in peers.old asker.conn asker.spec) tx model.ResetWatches) answer tree peers.new) }
    ensures short { IfOk result (λ answer. IfOk answer.reply (λ payload. length payload ≤ 4096)) }
    ensures err { OnErr result (peers.new ≡ peers.old) }
{
    let done = Bytes::copy(alloc, DONE)?;
    peers.watchers.clear(asker.conn);
    peers.rows.close_all(asker.conn);
    Ok(Answer::of(alloc, done))
}
