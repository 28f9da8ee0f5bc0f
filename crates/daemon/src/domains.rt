//! The requests on domains (xenstore.txt, "Domain management requests").

ghost use Rattle.std.specs.Prelude.{◌≡◌, ◌<◌, ◌≤◌, ℕ, [], Some, Ok, is_some, length, IfOk, OnErr};
ghost use Rattle.std.specs.Ordering.{nat_cmp};
ghost use Rattle.std.specs.FinMap.{find};
ghost use Rattle.xs_model.specs.Messages.{string};
ghost use Rattle.xs_model.specs.Paths.{text, home};
ghost use Rattle.xs_model.specs.Requests as model;
ghost use Rattle.xs_model.specs.Generations.{Generations};
ghost use Rattle.xs_model.specs.Trees.{Tree};
ghost use Rattle.machine_model.specs.Connections.{caller_of};
ghost use Rattle.machine_model.specs.Machine.{act, introduced_payload};
ghost use Rattle.conn_table.specs.Tables.{ring_id};
ghost use Rattle.daemon.specs.Acts.{DidBeside, IsAnsweredBeside, IsShort, IsSameKept};
ghost use Rattle.daemon.specs.Keeps.{machine_of};
ghost use Rattle.daemon.specs.Peers.{IsSound, MayAsk, conn_in};

use crate::answer::Door;
use crate::peers::Peers;
use crate::reply::{Answer, Answered};
use conn_table::ConnSpec;
use std::alloc::Global;
use wire_codec::WireErr;
use xs_base::{Bytes, NoMemory, push_decimal};

/// The payload of a success without data.
pub const DONE: &[u8] = b"OK\0";

/// The number of bytes of its message.
pub const DONE_LENGTH: usize = 19;

/// The special paths of domains that come and go.
const INTRODUCE_DOMAIN: &[u8] = b"@introduceDomain";

const RELEASE_DOMAIN: &[u8] = b"@releaseDomain";

/// Who asks: a connection, and its other end.
#[derive(Clone, Copy)]
pub struct Asker {
    pub conn: u32,
    pub spec: ConnSpec,
}

impl Asker {
    /// The domain for which the connection acts; a socket acts for domain 0.
    pub fn domid(self) -> u16
        ensures { result ≡ (caller_of self.spec).domid }
    {
        match self.spec {
            ConnSpec::Ring { domid, .. } => domid,
            ConnSpec::Socket { .. } => 0,
        }
    }

    /// The domain that it stands for besides that one.
    pub fn target(self) -> Option<u16>
        ensures { result ≡ (caller_of self.spec).target }
    {
        match self.spec {
            ConnSpec::Ring { target, .. } => target,
            ConnSpec::Socket { .. } => None,
        }
    }
}

/// INTRODUCE: the ring connection of a domain gets the event channel, and is made where there is none. Then those of
/// domain 0 that watch for it are told.
pub fn introduce(
    alloc: Global,
    peers: &mut Peers,
    asker: Asker,
    domid: u16,
    evtchn: u32,
) -> Result<Answered, NoMemory>
    requires sound { IsSound peers.old }
    requires there { find nat_cmp asker.conn peers.old.specs ≡ Some asker.spec }
    requires may { MayAsk asker.conn peers.old }
    requires bound { domid ≤ 32751 }
    ensures ok { IfOk result (λ answered. (tree : Tree) (gens : Generations) (tx : ℕ)
        → IsAnsweredBeside asker.conn peers.old (act (machine_of tree gens peers.old.specs peers.old.watched) asker.conn (conn_in peers.old asker.conn asker.spec) tx (model.Introduce domid evtchn)) tree gens answered peers.new) }
    ensures short { IfOk result IsShort }
    ensures err { OnErr result (IsSameKept peers.old peers.new) }
{
    if asker.domid() != 0 {
        return Ok(Answered::Done(Answer::refused(alloc, WireErr::Eacces)));
    }
    let done = Bytes::copy(alloc, DONE)?;
    if let Some(conn) = peers.conns().by_domid(domid) {
        peers.set_evtchn(conn, evtchn);
        return Ok(Answered::Done(Answer::of(alloc, done)));
    }
    let owed = peers.special_owed(INTRODUCE_DOMAIN)?;
    if let Some(conn) = peers.crowding(asker.conn, DONE_LENGTH, &owed) {
        return Ok(Answered::Crowded { conn });
    }
    peers.reserve_all(asker.conn, &owed)?;
    peers.open(domid, evtchn)?;
    Ok(Answered::Done(Answer {
        reply: Ok(done),
        door: Door::Opened(domid),
        owed,
    }))
}

/// RELEASE: the ring connection of a domain is removed. Then those of domain 0 that watch for it are told.
pub fn release(
    alloc: Global,
    peers: &mut Peers,
    asker: Asker,
    domid: u16,
) -> Result<Answered, NoMemory>
    requires sound { IsSound peers.old }
    requires there { find nat_cmp asker.conn peers.old.specs ≡ Some asker.spec }
    requires may { MayAsk asker.conn peers.old }
    requires not_control { 0 < domid }
    ensures ok { IfOk result (λ answered. (tree : Tree) (gens : Generations) (tx : ℕ)
        → IsAnsweredBeside asker.conn peers.old (act (machine_of tree gens peers.old.specs peers.old.watched) asker.conn (conn_in peers.old asker.conn asker.spec) tx (model.Release domid)) tree gens answered peers.new) }
    ensures short { IfOk result IsShort }
    ensures err { OnErr result (IsSameKept peers.old peers.new) }
{
    if asker.domid() != 0 {
        return Ok(Answered::Done(Answer::refused(alloc, WireErr::Eacces)));
    }
    let Some(gone) = peers.conns().by_domid(domid) else {
        return Ok(Answered::Done(Answer::refused(alloc, WireErr::Enoent)));
    };
    let done = Bytes::copy(alloc, DONE)?;
    let owed = peers.special_owed(RELEASE_DOMAIN)?;
    if let Some(conn) = peers.crowding(asker.conn, DONE_LENGTH, &owed) {
        return Ok(Answered::Crowded { conn });
    }
    peers.reserve_all(asker.conn, &owed)?;
    peers.remove(gone);
    Ok(Answered::Done(Answer {
        reply: Ok(done),
        door: Door::Closed(domid),
        owed,
    }))
}

/// SET_TARGET: the first domain stands for the second one besides itself.
pub fn set_target(
    alloc: Global,
    peers: &mut Peers,
    asker: Asker,
    domid: u16,
    target: u16,
) -> Result<Answer, NoMemory>
    requires sound { IsSound peers.old }
    requires there { find nat_cmp asker.conn peers.old.specs ≡ Some asker.spec }
    requires may { MayAsk asker.conn peers.old }
    requires bound { target ≤ 32751 }
    ensures ok { IfOk result (λ answer. (tree : Tree) (gens : Generations) (tx : ℕ)
        → DidBeside asker.conn peers.old (act (machine_of tree gens peers.old.specs peers.old.watched) asker.conn (conn_in peers.old asker.conn asker.spec) tx (model.SetTarget domid target)) tree gens answer peers.new) }
    ensures short { IfOk result (λ answer. IfOk answer.reply (λ payload. length payload ≤ 4096)) }
    ensures err { OnErr result (peers.new ≡ peers.old) }
{
    if asker.domid() != 0 {
        return Ok(Answer::refused(alloc, WireErr::Eacces));
    }
    let Some(conn) = peers.conns().by_domid(domid) else {
        return Ok(Answer::refused(alloc, WireErr::Enoent));
    };
    if peers.conns().by_domid(target).is_none() {
        return Ok(Answer::refused(alloc, WireErr::Enoent));
    }
    let done = Bytes::copy(alloc, DONE)?;
    peers.set_target(conn, target);
    Ok(Answer::of(alloc, done))
}

/// GET_DOMAIN_PATH: the text of the path below which a domain's relative paths stand.
pub fn domain_path(alloc: Global, domid: u16) -> Result<Answer, NoMemory>
    ensures reply { IfOk result (λ answer. answer.reply ≡ Ok (string (text (home domid)))) }
    ensures door { IfOk result (λ answer. answer.door ≡ Door.Same) }
    ensures owed { IfOk result (λ answer. answer.owed ≡ []) }
    ensures short { IfOk result (λ answer. IfOk answer.reply (λ payload. length payload ≤ 4096)) }
{
    let payload = home_text(alloc, domid)?;
    Ok(Answer::of(alloc, payload))
}

/// The payload of a domain's home.
fn home_text(alloc: Global, domid: u16) -> Result<Bytes, NoMemory>
    ensures { IfOk result (λ payload. payload ≡ string (text (home domid))) }
{
    let mut payload = Bytes::copy(alloc, b"/local/domain/")?;
    push_decimal(&mut payload, u64::from(domid))?;
    payload.push(b"\0")?;
    Ok(payload)
}

/// IS_DOMAIN_INTRODUCED: whether a domain has a ring connection.
pub fn is_introduced(alloc: Global, peers: &Peers, domid: u16) -> Result<Answer, NoMemory>
    ensures reply { IfOk result (λ answer. answer.reply ≡ Ok (introduced_payload (is_some (ring_id domid peers.now.specs)))) }
    ensures door { IfOk result (λ answer. answer.door ≡ Door.Same) }
    ensures owed { IfOk result (λ answer. answer.owed ≡ []) }
    ensures short { IfOk result (λ answer. IfOk answer.reply (λ payload. length payload ≤ 4096)) }
{
    let is_there = peers.conns().by_domid(domid).is_some();
    let payload = Bytes::copy(alloc, if is_there { b"T\0" } else { b"F\0" })?;
    Ok(Answer::of(alloc, payload))
}
