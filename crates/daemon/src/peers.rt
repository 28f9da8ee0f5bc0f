//! The connections, with the watches of each, what is unsent to it and its open transactions.

ghost use Rattle.std.specs.Prelude.{◌≡◌, ◌≤◌, ◌<◌, ◌==◌, not, true, false, List, ℕ, [], ◌++◌, length, map, Some, None, is_some, IfOk, OnOk, OnErr, IsErrOf, ◌↔◌};
ghost use Rattle.std.specs.Option.{option_map};
ghost use Rattle.std.specs.List.{AllByRecursion};
ghost use Rattle.std.specs.Ordering.{nat_cmp};
ghost use Rattle.std.specs.FinMap.{find, put};
ghost use Rattle.std.specs.FinMap.Entries.{where_key};
ghost use Rattle.xs_model.specs.Wholes.{whole_behind};
ghost use Rattle.out_queues.specs.Queues.{Queue};
ghost use Rattle.machine_model.specs.Connections.{with_evtchn, with_target, fresh, least_free};
ghost use Rattle.conn_table.specs.Tables.{IsTable, ring_id, ring_domid, is_taken, has_its_ring, is_socket, count_sockets};
ghost use Rattle.conn_rows.specs.Queued.{HasRoom, PulledFrom, unsent_of, rests_of};
ghost use Rattle.conn_rows.specs.Sending.{HasRoomFor, crowding, joined_by};
ghost use Rattle.machine_model.specs.declared.bounds.TheConstants.{HELD_LIMIT};
ghost use Rattle.machine_model.specs.History.{sent_to, unsent_to};
ghost use Rattle.machine_model.specs.Machine.{special_sends};
ghost use Rattle.daemon.specs.Peers.{Connected, IsInBounds, IsSound, conns_in, message_limit};

use conn_rows::Rows;
use conn_table::{AddErr, ConnSpec, Conns};
use owed_bytes::Owed;
use std::alloc::Global;
use std::marker::Model;
use watchers::Watchers;
use xs_base::NoMemory;

/// The most bytes of a message: a header of 16 and a payload of 4096.
pub const MESSAGE_MAX: usize = 4112;

/// The connections: what stands at the other end of each, its watches, and what is still to be sent to it.
///
/// Contracts see the tables by the connections' ids. That they belong together (`IsSound`) is a condition of the calls
/// that edit them.
#[derive(Drop)]
pub struct Peers {
    pub(crate) conns: Conns,
    pub(crate) watchers: Watchers,
    pub(crate) rows: Rows,
}

impl Model for Peers {
    ghost use Rattle.daemon.specs.Peers.{Connected};

    ghost Value = { Connected };

    ghost view = { λ peers. record { specs = peers.conns; watched = peers.watchers; queues = peers.rows.queues; txns = peers.rows.txns } };
}

impl Peers {
    /// No connections. It takes no memory.
    pub fn new(alloc: Global) -> Peers
        ensures specs { result.specs ≡ [] }
        ensures watched { result.watched ≡ [] }
        ensures queues { result.queues ≡ [] }
        ensures txns { result.txns ≡ [] }
    {
        Peers {
            conns: Conns::empty(alloc),
            watchers: Watchers::new(alloc),
            rows: Rows::new(alloc),
        }
    }

    /// The table of the other ends. O(1).
    pub fn conns(&self) -> &Conns
        ensures { result.now ≡ self.now.specs }
    {
        &self.conns
    }

    /// How many bytes are unsent to a connection, if it is there. O(log connections).
    pub fn unsent(&self, conn: u32) -> Option<usize>
        ensures { result ≡ option_map (λ queue. length queue.bytes) (find nat_cmp conn self.now.queues) }
    {
        self.rows.unsent(conn)
    }

    /// Behind the rest of a message in front, what is unsent to each connection is whole messages. O(connections).
    pub fn are_whole(&self)
        ensures { AllByRecursion (λ e. whole_behind e.1.rest e.1.bytes ≡ true) self.now.queues }
    {
        self.rows.are_whole();
    }

    /// Adds a connection to which nothing is unsent. Refused, nothing has changed. It moves the connections of higher
    /// ids.
    pub fn add(&mut self, conn: u32, spec: ConnSpec) -> Result<(), AddErr>
        ensures specs { OnOk result (self.new.specs ≡ put nat_cmp conn spec self.old.specs) }
        ensures bytes { OnOk result (unsent_of self.new.queues ≡ put nat_cmp conn [] (unsent_of self.old.queues)) }
        ensures rests { OnOk result (rests_of self.new.queues ≡ put nat_cmp conn 0 (rests_of self.old.queues)) }
        ensures others { OnOk result ((other : ℕ) → (other == conn) ≡ false → find nat_cmp other self.new.queues ≡ find nat_cmp other self.old.queues) }
        ensures txns { OnOk result (self.new.txns ≡ put nat_cmp conn [] self.old.txns) }
        ensures watched { self.new.watched ≡ self.old.watched }
        ensures err { OnErr result (self.new ≡ self.old) }
        ensures taken { IsErrOf result AddErr.Taken ↔ (is_taken conn spec self.old.specs ≡ true) }
        ensures table { OnOk result (IsTable self.new.specs) }
        ensures sound { OnOk result (IsSound self.old → 1 ≤ conn → IsInBounds spec → (is_socket spec ≡ true → count_sockets self.old.specs < 65536) → IsSound self.new) }
    {
        if is_taken(&self.conns, conn, spec) {
            return Err(AddErr::Taken);
        }
        self.rows.reserve()?;
        self.conns.add(conn, spec)?;
        self.rows.add(conn);
        Ok(())
    }

    /// Adds the ring connection of a domain that has none, under the least id that is free, with an event channel and
    /// without a target. Refused, nothing has changed.
    pub fn open(&mut self, domid: u16, evtchn: u32) -> Result<(), NoMemory>
        requires sound { IsSound self.old }
        requires none { ring_id domid self.old.specs ≡ None }
        ensures specs { OnOk result (self.new.specs ≡ put nat_cmp (least_free self.old.specs) (ConnSpec.Ring domid None evtchn) self.old.specs) }
        ensures bytes { OnOk result (unsent_of self.new.queues ≡ put nat_cmp (least_free self.old.specs) [] (unsent_of self.old.queues)) }
        ensures rests { OnOk result (rests_of self.new.queues ≡ put nat_cmp (least_free self.old.specs) 0 (rests_of self.old.queues)) }
        ensures others { OnOk result ((other : ℕ) → (other == least_free self.old.specs) ≡ false → find nat_cmp other self.new.queues ≡ find nat_cmp other self.old.queues) }
        ensures txns { OnOk result (self.new.txns ≡ put nat_cmp (least_free self.old.specs) [] self.old.txns) }
        ensures watched { self.new.watched ≡ self.old.watched }
        ensures err { OnErr result (self.new ≡ self.old) }
        ensures table { IsTable self.new.specs }
        ensures sound { OnOk result (domid ≤ 32751 → IsSound self.new) }
    {
        let spec = ConnSpec::Ring {
            domid,
            target: None,
            evtchn,
        };
        let conn = self.conns.least_free();
        match self.add(conn, spec) {
            Ok(()) => Ok(()),
            Err(AddErr::Taken) => unreachable!(),
            Err(AddErr::NoMemory) => Err(NoMemory),
        }
    }

    /// Gives a ring connection another event channel. O(log connections).
    pub fn set_evtchn(&mut self, conn: u32, evtchn: u32)
        ensures specs { (spec : ConnSpec) → find nat_cmp conn self.old.specs ≡ Some spec → self.new.specs ≡ put nat_cmp conn (with_evtchn evtchn spec) self.old.specs }
        ensures absent { find nat_cmp conn self.old.specs ≡ None → self.new ≡ self.old }
        ensures queues { self.new.queues ≡ self.old.queues }
        ensures txns { self.new.txns ≡ self.old.txns }
        ensures watched { self.new.watched ≡ self.old.watched }
        ensures table { IsTable self.new.specs }
        ensures sound { IsSound self.old → IsSound self.new }
    {
        if let Some(spec) = self.conns.spec(conn) {
            self.conns.set(conn, with_evtchn(evtchn, spec));
        }
    }

    /// Gives a ring connection a target. O(log connections).
    pub fn set_target(&mut self, conn: u32, target: u16)
        ensures specs { (spec : ConnSpec) → find nat_cmp conn self.old.specs ≡ Some spec → self.new.specs ≡ put nat_cmp conn (with_target target spec) self.old.specs }
        ensures absent { find nat_cmp conn self.old.specs ≡ None → self.new ≡ self.old }
        ensures queues { self.new.queues ≡ self.old.queues }
        ensures txns { self.new.txns ≡ self.old.txns }
        ensures watched { self.new.watched ≡ self.old.watched }
        ensures table { IsTable self.new.specs }
        ensures sound { IsSound self.old → target ≤ 32751 → IsSound self.new }
    {
        if let Some(spec) = self.conns.spec(conn) {
            self.conns.set(conn, with_target(target, spec));
        }
    }

    /// Removes a connection with its watches, its unsent bytes and its transactions, and says whether it was there. Every
    /// other one stays as it is. It takes no memory, and moves the connections of higher ids.
    pub fn remove(&mut self, conn: u32) -> bool
        ensures found { result ≡ is_some (find nat_cmp conn self.old.specs) }
        ensures specs { self.new.specs ≡ where_key nat_cmp (λ key. not (conn == key)) self.old.specs }
        ensures queues { self.new.queues ≡ where_key nat_cmp (λ key. not (conn == key)) self.old.queues }
        ensures txns { self.new.txns ≡ where_key nat_cmp (λ key. not (conn == key)) self.old.txns }
        ensures watched { self.new.watched ≡ where_key nat_cmp (λ key. not (conn == key)) self.old.watched }
        ensures table { IsTable self.new.specs }
        ensures sound { IsSound self.old → IsSound self.new }
    {
        self.rows.remove(conn);
        self.watchers.clear(conn);
        self.conns.remove(conn)
    }

    /// Takes memory for so many bytes more to a connection. What is unsent is as before.
    pub fn reserve(&mut self, conn: u32, bytes: usize) -> Result<(), NoMemory>
        ensures ok { OnOk result (HasRoom conn bytes self.new.queues) }
        ensures specs { self.new.specs ≡ self.old.specs }
        ensures bytes { unsent_of self.new.queues ≡ unsent_of self.old.queues }
        ensures rests { rests_of self.new.queues ≡ rests_of self.old.queues }
        ensures txns { self.new.txns ≡ self.old.txns }
        ensures watched { self.new.watched ≡ self.old.watched }
        ensures sound { IsSound self.old → IsSound self.new }
    {
        self.rows.reserve_bytes(conn, bytes)
    }

    /// Takes memory for the longest reply to a connection and for what is owed. What is unsent is as before.
    pub fn reserve_all(&mut self, conn: u32, owed: &Owed) -> Result<(), NoMemory>
        requires sound { IsSound self.old }
        ensures ok { OnOk result (HasRoomFor conn message_limit owed.now self.new.queues) }
        ensures specs { self.new.specs ≡ self.old.specs }
        ensures bytes { unsent_of self.new.queues ≡ unsent_of self.old.queues }
        ensures rests { rests_of self.new.queues ≡ rests_of self.old.queues }
        ensures txns { self.new.txns ≡ self.old.txns }
        ensures watched { self.new.watched ≡ self.old.watched }
        ensures sound { IsSound self.new }
    {
        self.rows.reserve_all(conn, MESSAGE_MAX, owed)
    }

    /// What a special event owes.
    pub fn special_owed(&self, special: &[u8]) -> Result<Owed, NoMemory>
        requires sound { IsSound self.now }
        ensures { IfOk result (λ owed. (c : ℕ) → sent_to c (special_sends special.now (conns_in self.now)) ≡ unsent_to c owed) }
    {
        self.watchers.special_owed(&self.conns, special)
    }

    /// The least connection that would have too many bytes unsent once a reply of so many bytes to `conn` and what is owed
    /// were sent, if any.
    pub fn crowding(&self, conn: u32, reply: usize, owed: &Owed) -> Option<u32>
        requires sound { IsSound self.now }
        requires few { (queue : Queue) → find nat_cmp conn self.now.queues ≡ Some queue → length queue.bytes < HELD_LIMIT }
        requires reply { reply ≤ message_limit }
        ensures { result ≡ crowding conn reply owed.now (unsent_of self.now.queues) }
    {
        self.rows.crowding(conn, reply, owed)
    }

    /// Appends a reply to what is unsent to `conn`, and what is owed to what is unsent to each connection, for which there
    /// is memory.
    pub fn send(&mut self, conn: u32, reply: &[u8], owed: &Owed)
        requires sound { IsSound self.old }
        requires whole { whole_behind 0 reply.now ≡ true }
        requires room { HasRoomFor conn (length reply.now) owed.now self.old.queues }
        ensures specs { self.new.specs ≡ self.old.specs }
        ensures bytes { unsent_of self.new.queues ≡ joined_by conn reply.now owed.now (unsent_of self.old.queues) }
        ensures rests { rests_of self.new.queues ≡ rests_of self.old.queues }
        ensures txns { self.new.txns ≡ self.old.txns }
        ensures watched { self.new.watched ≡ self.old.watched }
    {
        self.rows.send(conn, reply, owed)
    }

    /// Moves the first unsent bytes of a connection into `into`, and says how many; none where it is not there. O(bytes
    /// moved).
    pub fn pull(&mut self, conn: u32, into: &mut [u8]) -> Option<usize>
        ensures specs { self.new.specs ≡ self.old.specs }
        ensures txns { self.new.txns ≡ self.old.txns }
        ensures watched { self.new.watched ≡ self.old.watched }
        ensures sound { IsSound self.old → IsSound self.new }
        ensures pulled { PulledFrom self.old.queues conn into.old self.new.queues into.new result }
    {
        self.rows.pull(conn, into)
    }
}

/// Whether an id is there, or a ring connection of the same domain.
fn is_taken(conns: &Conns, conn: u32, spec: ConnSpec) -> bool
    ensures { result ≡ is_taken conn spec conns.now }
{
    conns.spec(conn).is_some() || has_its_ring(conns, spec)
}

/// Whether a domain has a ring connection already, where this is a ring of it.
fn has_its_ring(conns: &Conns, spec: ConnSpec) -> bool
    ensures { result ≡ has_its_ring spec conns.now }
{
    match spec {
        ConnSpec::Ring { domid, .. } => conns.by_domid(domid).is_some(),
        ConnSpec::Socket { .. } => false,
    }
}

/// The same end with another event channel.
fn with_evtchn(evtchn: u32, spec: ConnSpec) -> ConnSpec
    ensures value { result ≡ with_evtchn evtchn spec }
    ensures domain { ring_domid result ≡ ring_domid spec }
{
    match spec {
        ConnSpec::Ring { domid, target, .. } => ConnSpec::Ring {
            domid,
            target,
            evtchn,
        },
        ConnSpec::Socket { fd } => ConnSpec::Socket { fd },
    }
}

/// The same end with another target.
fn with_target(target: u16, spec: ConnSpec) -> ConnSpec
    ensures value { result ≡ with_target target spec }
    ensures domain { ring_domid result ≡ ring_domid spec }
{
    match spec {
        ConnSpec::Ring { domid, evtchn, .. } => ConnSpec::Ring {
            domid,
            target: Some(target),
            evtchn,
        },
        ConnSpec::Socket { fd } => ConnSpec::Socket { fd },
    }
}
