//! One request on the tree and on the connections.

ghost use Rattle.std.specs.Prelude.{◌≡◌, Some, Ok, IfOk, OnErr, IsErr};
ghost use Rattle.std.specs.Ordering.{nat_cmp};
ghost use Rattle.std.specs.FinMap.{find};
ghost use Rattle.xs_model.specs.Requests.{request_of, all_types};
ghost use Rattle.machine_model.specs.Connections.{caller_of};
ghost use Rattle.mark_model.specs.Stores.{kept_act, kept_act_or_refuse};
ghost use Rattle.wire_codec.specs.Codec.{AsksInForm, request_view};
ghost use Rattle.daemon.specs.Acts.{IsAnswered, IsShort, IsAsBefore, IsWhole, store_in};
ghost use Rattle.daemon.specs.Asks.{WatchesInForm};
ghost use Rattle.daemon.specs.Peers.{MayAsk, conn_in};

use crate::domains::{self, Asker};
use crate::peers::Peers;
use crate::reply::{Answer, Answered};
use crate::{commands, transactions, watches};
use node_tree::Tree;
use std::alloc::Global;
use wire_codec::{Header, Request, RequestErr, TreeCommand, WireErr, read_request};
use xs_base::NoMemory;

/// What a request is answered, by its header and payload. All memory is taken before anything changes.
pub fn answer(
    alloc: Global,
    tree: &mut Tree,
    peers: &mut Peers,
    asker: Asker,
    head: Header,
    payload: &[u8],
) -> Result<Answered, NoMemory>
    requires whole { IsWhole tree.old peers.old }
    requires there { find nat_cmp asker.conn peers.old.specs ≡ Some asker.spec }
    requires may { MayAsk asker.conn peers.old }
    ensures ok { IfOk result (λ answered. IsAnswered asker.conn tree.old peers.old
        (kept_act_or_refuse (store_in tree.old peers.old) asker.conn (conn_in peers.old asker.conn asker.spec) head.tx_id (request_of all_types head.kind payload.now (caller_of asker.spec).domid))
        answered tree.new peers.new) }
    ensures short { IfOk result IsShort }
    ensures err { OnErr result (IsAsBefore tree.old peers.old tree.new peers.new) }
{
    match read_request(alloc, head, payload, asker.domid()) {
        Err(RequestErr::NoMemory) => Err(NoMemory),
        Err(RequestErr::Enosys) => Ok(Answered::Done(Answer::refused(alloc, WireErr::Enosys))),
        Err(RequestErr::Einval) => Ok(Answered::Done(Answer::refused(alloc, WireErr::Einval))),
        Ok(request) => act(alloc, tree, peers, asker, head.tx_id, &request),
    }
}

/// What a request by itself is answered, under a transaction number.
fn act(
    alloc: Global,
    tree: &mut Tree,
    peers: &mut Peers,
    asker: Asker,
    tx_id: u32,
    request: &Request,
) -> Result<Answered, NoMemory>
    requires whole { IsWhole tree.old peers.old }
    requires there { find nat_cmp asker.conn peers.old.specs ≡ Some asker.spec }
    requires may { MayAsk asker.conn peers.old }
    requires form { AsksInForm request.now }
    requires watch { WatchesInForm (caller_of asker.spec).domid (request_view request.now) }
    ensures ok { IfOk result (λ answered. IsAnswered asker.conn tree.old peers.old
        (kept_act (store_in tree.old peers.old) asker.conn (conn_in peers.old asker.conn asker.spec) tx_id (request_view request.now))
        answered tree.new peers.new) }
    ensures short { IfOk result IsShort }
    ensures err { OnErr result (IsAsBefore tree.old peers.old tree.new peers.new) }
{
    match request {
        Request::Command(command) => on_tree(alloc, tree, peers, asker, tx_id, command),
        Request::Watch { wpath, token } => done(watches::watch(
            alloc,
            peers,
            asker,
            wpath.as_slice(),
            token.as_slice(),
        )),
        Request::Unwatch { wpath, token } => done(watches::unwatch(
            alloc,
            peers,
            asker,
            wpath.as_slice(),
            token.as_slice(),
        )),
        Request::Start => done(transactions::start(alloc, peers, asker, tx_id)),
        Request::End { commit } => transactions::end(alloc, tree, peers, asker, tx_id, *commit),
        Request::Introduce { domid, evtchn } => {
            domains::introduce(alloc, peers, asker, *domid, *evtchn)
        }
        Request::Release { domid } => domains::release(alloc, peers, asker, *domid),
        Request::DomainPath { domid } => done(domains::domain_path(alloc, *domid)),
        Request::IsIntroduced { domid } => done(domains::is_introduced(alloc, peers, *domid)),
        Request::SetTarget { domid, target } => {
            done(domains::set_target(alloc, peers, asker, *domid, *target))
        }
        Request::ResetWatches => done(watches::reset(alloc, peers, asker)),
    }
}

/// What was done, where nobody can be crowded by it.
fn done(answer: Result<Answer, NoMemory>) -> Result<Answered, NoMemory>
    ensures ok { IfOk answer (λ answer. result ≡ Ok (Answered.Done answer)) }
    ensures err { OnErr answer (IsErr result) }
{
    Ok(Answered::Done(answer?))
}

/// What a tree command is answered.
fn on_tree(
    alloc: Global,
    tree: &mut Tree,
    peers: &mut Peers,
    asker: Asker,
    tx_id: u32,
    command: &TreeCommand,
) -> Result<Answered, NoMemory>
    requires whole { IsWhole tree.old peers.old }
    requires there { find nat_cmp asker.conn peers.old.specs ≡ Some asker.spec }
    requires may { MayAsk asker.conn peers.old }
    requires form { AsksInForm (Request.Command command.now) }
    ensures ok { IfOk result (λ answered. IsAnswered asker.conn tree.old peers.old
        (kept_act (store_in tree.old peers.old) asker.conn (conn_in peers.old asker.conn asker.spec) tx_id (request_view (Request.Command command.now)))
        answered tree.new peers.new) }
    ensures short { IfOk result IsShort }
    ensures err { OnErr result (IsAsBefore tree.old peers.old tree.new peers.new) }
{
    if tx_id == 0 {
        commands::outside(alloc, tree, peers, asker, command)
    } else {
        done(commands::inside(alloc, tree, peers, asker, tx_id, command))
    }
}
