//! What came so far, and what each record adds to it.

ghost use Rattle.std.specs.Prelude.{◌≡◌, ◌⊎◌, ◌||◌, not, true, false, length, nat_lt, IfOk, IfErr, OnOk};
ghost use Rattle.xs_model.specs.Wholes.{whole_behind};
ghost use Rattle.machine_model.specs.declared.bounds.TheConstants.{CROWD_LIMIT};
ghost use Rattle.kept_model.specs.Loading.{none_came, load_globals, load_connection, load_watch, load_transaction};
ghost use Rattle.mig_load.specs.Steps.{Steps};

use crate::connections::Connections;
use crate::ends::spec_of;
use crate::memory::or_fault;
use crate::nodes::Nodes;
use crate::texts::{is_token, is_watch_path, one_string};
use kept_model::LoadFault;
use machine_model::Globals;
use msg_reassembly::Inbox;
use out_queues::{OutErr, OutQueue};
use std::alloc::Global;
use std::marker::Model;
use xs_base::{Bytes, NoMemory};
use xs_path::Path;

/// The most bytes that were read from a connection.
const INBOX_MAX: usize = 16777216;

/// A path of a transaction, with the number of its record.
#[derive(Drop)]
pub struct Pending {
    pub rec: usize,
    pub conn: u32,
    pub tx: u32,
    pub path: Path,
}

impl Model for Pending {
    ghost use Rattle.kept_model.specs.Loading.{Pending};

    ghost Value = { Pending };

    ghost view = { λ pending. record {
      rec = pending.rec;
      conn = pending.conn;
      tx = pending.tx;
      path = pending.path;
    } };
}

/// What came so far.
#[derive(Drop)]
pub struct Loading {
    pub(crate) conns: Connections,
    pub(crate) nodes: Nodes,
    pub(crate) globals: Globals,
    pub(crate) has_globals: bool,
    // In the order of their records.
    pub(crate) pending: Vec<Pending>,
}

impl Model for Loading {
    ghost use Rattle.kept_model.specs.Loading.{Loading};
    ghost use Rattle.mig_load.specs.LoadingView.{loading_view};

    ghost Value = { Loading };

    ghost view = { loading_view };
}

/// A connection as its record tells it, but for its kind.
#[derive(Drop)]
pub struct ConnectionRecord {
    pub conn: u32,
    pub kind: u16,
    pub spec: [u8; 8],
    pub rest: u32,
    pub inbox: Bytes,
    pub unsent: Bytes,
}

impl Model for ConnectionRecord {
    ghost use Rattle.stream_model.specs.Record.{ConnectionData};

    ghost Value = { ConnectionData };

    ghost view = { λ d. record {
      conn = d.conn;
      kind = d.kind;
      spec = d.spec;
      rest = d.rest;
      inbox = d.inbox;
      unsent = d.unsent;
    } };
}

/// What is unsent to a connection, of which the first `rest` bytes end a message that was sent in part.
fn queue_of(alloc: Global, rec: usize, rest: u32, unsent: &Bytes) -> Result<OutQueue, LoadFault>
    ensures ok { IfOk result (λ queue. (queue.bytes ≡ unsent.now) × (queue.rest ≡ rest)) }
    ensures good { OnOk result ((nat_lt CROWD_LIMIT (length unsent.now) || not (whole_behind rest unsent.now)) ≡ false) }
    ensures bad { IfErr result (λ fault. (fault ≡ LoadFault.NoMemory) ⊎ ((fault ≡ LoadFault.BadOut rec) × ((nat_lt CROWD_LIMIT (length unsent.now) || not (whole_behind rest unsent.now)) ≡ true))) }
{
    match OutQueue::of(alloc, rest as usize, unsent.as_slice()) {
        Ok(queue) => Ok(queue),
        Err(OutErr::BadOut) => Err(LoadFault::BadOut { rec }),
        Err(OutErr::NoMemory) => Err(LoadFault::NoMemory),
    }
}

impl Loading {
    /// Nothing came: a new store without connections.
    pub fn new(alloc: Global) -> Result<Loading, NoMemory>
        ensures { IfOk result (λ loading. loading ≡ none_came) }
    {
        Ok(Loading {
            conns: Connections::new(alloc),
            nodes: Nodes::new(alloc)?,
            globals: Globals {
                rw_socket_fd: -1,
                evtchn_fd: -1,
            },
            has_globals: false,
            pending: Vec::new(alloc),
        })
    }

    /// The file descriptors of the whole store came. O(1).
    pub fn globals(
        &mut self,
        rec: usize,
        rw_socket_fd: i32,
        evtchn_fd: i32,
    ) -> Result<(), LoadFault>
        ensures { Steps (load_globals rec self.old (record { rw_socket_fd = rw_socket_fd; evtchn_fd = evtchn_fd })) self.old self.new result }
    {
        if self.has_globals {
            return Err(LoadFault::Repeated { rec });
        }
        self.globals = Globals {
            rw_socket_fd,
            evtchn_fd,
        };
        self.has_globals = true;
        Ok(())
    }

    /// A transaction came. O(log connections + log transactions), and it moves those of higher numbers.
    pub fn transaction(
        &mut self,
        alloc: Global,
        rec: usize,
        conn: u32,
        tx: u32,
        count: u32,
    ) -> Result<(), LoadFault>
        ensures { Steps (load_transaction rec self.old (record { conn = conn; tx = tx; count = count })) self.old self.new result }
    {
        if !self.conns.has(conn) {
            return Err(LoadFault::UnknownConn { rec });
        }
        if tx == 0 {
            return Err(LoadFault::BadSpec { rec });
        }
        if self.conns.has_txn(conn, tx) {
            return Err(LoadFault::Repeated { rec });
        }
        or_fault(self.conns.open(alloc, conn, tx, count))
    }

    /// A watch came. O(log connections + bytes) on average.
    pub fn watch(
        &mut self,
        alloc: Global,
        rec: usize,
        conn: u32,
        wpath: &Bytes,
        token: &Bytes,
    ) -> Result<(), LoadFault>
        ensures { Steps (load_watch rec self.old (record { conn = conn; wpath = wpath.now; token = token.now })) self.old self.new result }
    {
        let Some(domid) = self.conns.domid(conn) else {
            return Err(LoadFault::UnknownConn { rec });
        };
        let Some(wpath) = one_string(wpath.as_slice()) else {
            return Err(LoadFault::BadText { rec });
        };
        let Some(token) = one_string(token.as_slice()) else {
            return Err(LoadFault::BadText { rec });
        };
        if !is_token(token) {
            return Err(LoadFault::BadText { rec });
        }
        if !is_watch_path(wpath, domid) {
            return Err(LoadFault::BadPath { rec });
        }
        if self.conns.has_watch(conn, wpath, token) {
            return Err(LoadFault::Repeated { rec });
        }
        or_fault(self.conns.watch(alloc, conn, wpath, token, domid))
    }

    /// A connection came. O(log connections + its bytes), and it moves those of higher ids.
    pub fn connection(
        &mut self,
        alloc: Global,
        rec: usize,
        item: ConnectionRecord,
    ) -> Result<(), LoadFault>
        ensures { Steps (load_connection rec self.old item) self.old self.new result }
    {
        if item.conn == 0 {
            return Err(LoadFault::BadSpec { rec });
        }
        let Some(spec) = spec_of(item.kind, &item.spec) else {
            return Err(LoadFault::BadSpec { rec });
        };
        if self.conns.is_one_too_many(spec) {
            return Err(LoadFault::BadSpec { rec });
        }
        if item.inbox.len() > INBOX_MAX {
            return Err(LoadFault::BadSpec { rec });
        }
        let queue = match queue_of(alloc, rec, item.rest, &item.unsent) {
            Ok(queue) => queue,
            Err(fault) => return Err(fault),
        };
        if self.conns.is_taken(item.conn, spec) {
            return Err(LoadFault::Repeated { rec });
        }
        let inbox = or_fault(Inbox::of(alloc, item.inbox.as_slice()))?;
        or_fault(self.conns.add(item.conn, spec, queue, inbox))
    }
}
