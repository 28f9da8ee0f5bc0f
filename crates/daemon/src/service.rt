//! The daemon.

ghost use Rattle.std.specs.Prelude.{◌≡◌, ◌↔◌, ◌<◌, ◌≤◌, ◌∷◌, true, ℕ, List, Some, [], length, take, IfOk, OnOk, OnErr, IsErrOf, is_some, option_map, map};
ghost use Rattle.std.specs.List.{AllByRecursion};
ghost use Rattle.std.specs.Ordering.{nat_cmp};
ghost use Rattle.std.specs.FinMap.{find};
ghost use Rattle.machine_model.specs.declared.bounds.TheConstants.{HELD_LIMIT};
ghost use Rattle.machine_model.specs.Connections.{ring_of};
ghost use Rattle.machine_model.specs.Machine.{Machine, new_machine};
ghost use Rattle.conn_table.specs.Tables.{IsTable, is_taken, is_socket, count_sockets};
ghost use Rattle.xs_model.specs.Generations.{greatest};
ghost use Rattle.watchers.specs.Watched.{AreOwn};
ghost use Rattle.store_parts.specs.Kept.{kept_in, kept_lent};
ghost use Rattle.store_parts.specs.States.{Inboxes, state_of};
ghost use Rattle.kept_model.specs.Sound.{IsSound, IsSoundStore, SpecFits, GlobalsFit};
ghost use Rattle.daemon.specs.Keeps.{StandsFor, no_globals, store_of};
ghost use Rattle.conn_rows.specs.Queued.{unsent_of};
ghost use Rattle.daemon.specs.Ids.{AreIds};
ghost use Rattle.daemon.specs.Peers.{IsInBounds, IsSoundTable};
ghost use Rattle.daemon.specs.Acts.{IsAsBefore, IsWhole, kept_by};
ghost use Rattle.daemon.specs.Submits.{StepsIfDone, Submits, Pulled, Adds, Drops};

use crate::act::answer;
use crate::answer::{Door, Pull, Submit};
use crate::domains::Asker;
use crate::peers::{MESSAGE_MAX, Peers};
use crate::reply::{Answered, head_of, payload_of, put_reply};
use conn_table::{AddErr, ConnSpec, Conns};
use machine_model::HELD_LIMIT;
use node_tree::Tree;
use std::alloc::Global;
use std::marker::Model;
use store_parts::{Globals, Parts, PartsRef};
use xs_base::NoMemory;

/// The store, and the bytes that it has still to send.
///
/// Contracts see what it keeps, and the sequential stores that it stands for.
#[derive(Drop)]
pub struct Daemon {
    alloc: Global,
    tree: Tree,
    peers: Peers,
    globals: Globals,
    // Room for a reply.
    reply: [u8; 4112],
}

impl Model for Daemon {
    ghost use Rattle.store_parts.specs.Kept.{Kept};
    ghost use Rattle.daemon.specs.Acts.{IsWhole, kept_by};

    ghost Value = { Kept };

    ghost view = { λ daemon. kept_by daemon.tree daemon.peers daemon.globals };

    ghost invariant = { λ daemon. IsWhole daemon.tree daemon.peers };
}

impl Daemon {
    /// A new store, to which domain 0 is connected with the id 1. It has none of the two descriptors.
    pub fn new(alloc: Global) -> Result<Daemon, NoMemory>
        ensures stands { IfOk result (λ daemon. StandsFor daemon new_machine) }
        ensures unsent { IfOk result (λ daemon. daemon.unsent ≡ (1, []) ∷ []) }
        ensures rests { IfOk result (λ daemon. daemon.rests ≡ (1, 0) ∷ []) }
        ensures globals { IfOk result (λ daemon. daemon.globals ≡ no_globals) }
    {
        let mut peers = Peers::new(alloc);
        peers.open(0, 0)?;
        Ok(Daemon {
            alloc,
            tree: Tree::new(alloc)?,
            peers,
            globals: Globals {
                rw_socket_fd: -1,
                evtchn_fd: -1,
            },
            reply: [0; MESSAGE_MAX],
        })
    }

    /// A store of these parts, with what they keep. It takes no memory. O(log connections).
    pub fn of(alloc: Global, parts: Parts) -> Daemon
        requires queues { map (λ e. e.0) parts.rows.queues ≡ map (λ e. e.0) parts.conns }
        requires txns { map (λ e. e.0) parts.rows.txns ≡ map (λ e. e.0) parts.conns }
        requires own { AreOwn parts.conns parts.watchers }
        requires watching { AllByRecursion (λ e. is_some (find nat_cmp e.0 parts.conns) ≡ true) parts.watchers }
        requires counter { parts.tree.counter ≡ greatest parts.tree.gens }
        requires sound { IsSound (state_of (kept_in parts) []) }
        ensures { result ≡ kept_in parts }
    {
        let Parts {
            conns,
            watchers,
            rows,
            tree,
            globals,
        } = parts;
        is_table(&conns);
        Daemon {
            alloc,
            tree,
            peers: Peers {
                conns,
                watchers,
                rows,
            },
            globals,
            reply: [0; MESSAGE_MAX],
        }
    }

    /// Adds a connection, without watches and transactions. It is refused as taken exactly where its id is there or,
    /// for a ring, a ring connection of the same domain. Refused, nothing has changed.
    ///
    /// O(log connections), and it moves the connections of higher ids.
    pub fn add_conn(&mut self, id: u32, spec: ConnSpec) -> Result<(), AddErr>
        requires id { 1 ≤ id }
        requires bounds { IsInBounds spec }
        requires sockets { is_socket spec ≡ true → count_sockets self.old.specs < 65536 }
        ensures ok { OnOk result (Adds self.old id spec self.new) }
        ensures err { OnErr result (self.new ≡ self.old) }
        ensures taken { IsErrOf result AddErr.Taken ↔ (is_taken id spec self.old.specs ≡ true) }
    {
        spec_fits(spec);
        self.peers.add(id, spec)
    }

    /// Takes one whole request of a connection: a header and its payload. What it owes to watches joins the unsent bytes of
    /// their connections, behind the reply. Refused, nothing has changed.
    ///
    /// O(log connections + length of the message), and what the request costs: a tree command what `tree_ops` says, and a
    /// change of the tree a search in each open transaction for each changed path, and where it keeps the node that stood
    /// there, a copy of that, a look-up of each written path and of those above it among what is watched, and a search and a
    /// message for each watch that is told; START O(log open transactions); INTRODUCE and RELEASE a move of the connections
    /// of higher ids, and a look at each connection; RESET_WATCHES what it removes.
    pub fn submit(&mut self, conn: u32, message: &[u8]) -> Result<Submit, NoMemory>
        requires long { 16 ≤ length message.now }
        requires short { length message.now ≤ 4112 }
        // What is kept after it is a function of what was kept: one step of the store that is kept.
        ensures step { IfOk result (StepsIfDone self.old conn message.now self.new) }
        ensures ok { IfOk result (Submits self.old conn message.now self.new) }
        ensures err { OnErr result (self.new ≡ self.old) }
    {
        let Some(spec) = self.peers.conns().spec(conn) else {
            return Ok(Submit::Gone);
        };
        let Some(unsent) = self.peers.unsent(conn) else {
            return Ok(Submit::Gone);
        };
        if unsent >= HELD_LIMIT {
            return Ok(Submit::Held { unsent });
        }
        let asker = Asker { conn, spec };
        submit_to(
            self.alloc,
            &mut self.tree,
            &mut self.peers,
            &mut self.reply,
            asker,
            message,
        )
    }

    /// Moves the first unsent bytes of a connection into `into`, as many as there are and as find room. The rest
    /// of `into` is as before. It takes no memory. O(log connections + bytes moved).
    pub fn pull(&mut self, conn: u32, into: &mut [u8]) -> Pull
        requires { 0 < length into.old }
        ensures { Pulled self.old conn into.old self.new into.new result }
    {
        match self.peers.pull(conn, into) {
            None => Pull::Gone,
            Some(0) => Pull::Nothing,
            Some(count) => Pull::Got(count),
        }
    }

    /// How many bytes are unsent to a connection, if it is there. O(log connections).
    pub fn unsent(&self, conn: u32) -> Option<usize>
        ensures { result ≡ option_map length (find nat_cmp conn self.now.unsent) }
    {
        self.peers.unsent(conn)
    }

    /// Drops a connection with its unsent bytes, and says whether it was there. Every other connection stays as
    /// it is. It takes no memory. It moves the connections of higher ids.
    pub fn drop_conn(&mut self, conn: u32) -> bool
        ensures found { result ≡ is_some (find nat_cmp conn self.old.unsent) }
        ensures after { Drops self.old conn self.new }
    {
        self.peers.remove(conn)
    }

    /// The ring connection of a domain, if it has one. O(log connections).
    pub fn conn_of(&self, domid: u16) -> Option<u32>
        ensures { (m : Machine) → StandsFor self.now m → result ≡ ring_of domid m.conns }
    {
        self.peers.conns().by_domid(domid)
    }

    /// The table of the connections' other ends. O(1).
    pub fn conns(&self) -> &Conns
        ensures value { result.now ≡ self.now.specs }
        ensures sound { IsSoundTable self.now.specs }
        ensures few { length self.now.specs ≤ 98288 }
    {
        self.peers.conns()
    }

    /// The store that is kept is sound, and so is its state with inboxes of at most 16777216 bytes each, which can be told
    /// by a stream. O(connections).
    pub fn is_sound(&self)
        ensures store { IsSoundStore (store_of self.now) }
        ensures state { (ins : Inboxes) → AllByRecursion (λ e. length e.1 ≤ 16777216) ins → IsSound (state_of self.now ins) }
        ensures ids { AreIds self.now }
    {
        self.peers.are_whole();
        globals_fit(self.globals);
    }

    /// The parts of the store, as they are kept. O(1).
    pub fn parts(&self) -> PartsRef<'_>
        ensures { kept_lent result ≡ self.now }
    {
        PartsRef {
            conns: &self.peers.conns,
            watchers: &self.peers.watchers,
            rows: &self.peers.rows,
            tree: &self.tree,
            globals: self.globals,
        }
    }
}

/// Other ends that are kept as a table are one. O(log connections).
fn is_table(conns: &Conns)
    ensures { IsTable conns.now }
{
    let _ring = conns.by_domid(0);
}

/// The descriptors have as many bits as those that a stream has for them.
fn globals_fit(globals: Globals)
    ensures { GlobalsFit globals }
{
    let _rw_socket = globals.rw_socket_fd;
    let _evtchn = globals.evtchn_fd;
}

/// The numbers of an end have as many bits as those that a stream has for them.
fn spec_fits(spec: ConnSpec)
    ensures { IsInBounds spec → SpecFits spec }
{
    match spec {
        ConnSpec::Ring { evtchn, .. } => {
            let _bits = evtchn;
        }
        ConnSpec::Socket { fd } => {
            let _bits = fd;
        }
    }
}

/// Takes one whole request of a connection that is there and has few unsent bytes. All memory for what it is answered and
/// for what is owed is taken before anything changes.
fn submit_to(
    alloc: Global,
    tree: &mut Tree,
    peers: &mut Peers,
    reply: &mut [u8; 4112],
    asker: Asker,
    message: &[u8],
) -> Result<Submit, NoMemory>
    requires message { 16 ≤ length message.now }
    requires short { length message.now ≤ 4112 }
    requires whole { IsWhole tree.old peers.old }
    requires there { find nat_cmp asker.conn peers.old.specs ≡ Some asker.spec }
    requires few { (bytes : List ℕ) → find nat_cmp asker.conn (unsent_of peers.old.queues) ≡ Some bytes → length bytes < HELD_LIMIT }
    // Whatever the descriptors are.
    ensures step { (globals : Globals) → IfOk result (StepsIfDone (kept_by tree.old peers.old globals) asker.conn message.now (kept_by tree.new peers.new globals)) }
    ensures ok { (globals : Globals) → IfOk result (Submits (kept_by tree.old peers.old globals) asker.conn message.now (kept_by tree.new peers.new globals)) }
    ensures whole { IsWhole tree.new peers.new }
    ensures err { OnErr result (IsAsBefore tree.old peers.old tree.new peers.new) }
{
    peers.reserve(asker.conn, MESSAGE_MAX)?;
    let head = head_of(message);
    match answer(alloc, tree, peers, asker, head, payload_of(message))? {
        Answered::Crowded { conn } => Ok(Submit::Crowded { conn }),
        Answered::Done(answer) => {
            let len = put_reply(head, &answer.reply, reply);
            peers.send(asker.conn, first(reply, len), &answer.owed);
            Ok(Submit::Done(answer.door))
        }
    }
}

/// The first so many bytes of a reply.
fn first(reply: &[u8; 4112], len: usize) -> &[u8]
    requires { len ≤ 4112 }
    ensures { result.now ≡ take len reply.now }
{
    &reply[..len]
}
