//! The connections that came, by what stands at the other end of each.

ghost use Rattle.std.specs.Prelude.{◌≡◌, ◌+◌, ◌≤◌, ◌<◌, ◌&&◌, false, [], true, nat_le, if◌then◌else◌, IfSome, OnOk, OnErr};
ghost use Rattle.std.specs.FinMap.{find, put};
ghost use Rattle.std.specs.List.{AllByRecursion};
ghost use Rattle.std.specs.Ordering.{nat_cmp};
ghost use Rattle.machine_model.specs.Connections.{caller_of};
ghost use Rattle.conn_table.specs.Tables.{IsTable, is_taken, is_socket, has_its_ring, count_sockets};

use conn_table::{AddErr, Conns};
use machine_model::ConnSpec;
use std::alloc::Global;
use std::marker::Model;
use xs_base::NoMemory;

/// The most sockets that are accepted.
const SOCKETS_MAX: usize = 65536;

/// The connections that came, and how many of them are sockets. Contracts see the connections' ids and other ends, as of
/// [`Conns`].
#[derive(Drop)]
pub struct Table {
    conns: Conns,
    sockets: usize,
}

impl Model for Table {
    ghost use Rattle.std.specs.Prelude.{◌≡◌, ◌≤◌};
    ghost use Rattle.std.specs.List.{AllByRecursion};
    ghost use Rattle.machine_model.specs.Connections.{caller_of};
    ghost use Rattle.conn_table.specs.Tables.{Specs, count_sockets};

    ghost Value = { Specs };

    ghost view = { λ table. table.conns };

    ghost invariant = { λ table. record {
      count : table.sockets ≡ count_sockets table.conns;
      few : table.sockets ≤ 65536;
      callers : AllByRecursion (λ e. (caller_of e.1).domid ≤ 32751) table.conns;
    } };
}

fn is_socket(spec: ConnSpec) -> bool
    ensures { result ≡ is_socket spec }
{
    matches!(spec, ConnSpec::Socket { .. })
}

/// How many sockets there are once this connection came.
fn sockets_with(sockets: usize, spec: ConnSpec) -> usize
    requires { is_socket spec ≡ true → sockets < 65536 }
    ensures { result ≡ (if is_socket spec then sockets + 1 else sockets) }
{
    if is_socket(spec) {
        sockets + 1
    } else {
        sockets
    }
}

impl Table {
    /// No connections. It takes no memory.
    pub fn new(alloc: Global) -> Table
        ensures { result ≡ [] }
    {
        Table {
            conns: Conns::empty(alloc),
            sockets: 0,
        }
    }

    /// The other end of a connection that came, and the domain for which it asks is one. O(log connections).
    pub fn spec(&self, id: u32) -> Option<ConnSpec>
        ensures found { result ≡ find nat_cmp id self.now }
        ensures caller { IfSome result (λ spec. (caller_of spec).domid ≤ 32751) }
        ensures table { IsTable self.now }
    {
        self.conns.spec(id)
    }

    /// No two connections have one id or are rings of one domain. It does nothing.
    pub fn is_table(&self)
        ensures { IsTable self.now }
    {
        let _spec = self.conns.spec(0);
    }

    /// Whether this is the socket behind the last one that is accepted. O(1).
    pub fn is_one_too_many(&self, spec: ConnSpec) -> bool
        ensures { result ≡ (is_socket spec && nat_le 65536 (count_sockets self.now)) }
    {
        is_socket(spec) && self.sockets >= SOCKETS_MAX
    }

    /// Whether the id came, or a ring of the same domain. O(log connections).
    pub fn is_taken(&self, id: u32, spec: ConnSpec) -> bool
        ensures { result ≡ is_taken id spec self.now }
    {
        self.conns.spec(id).is_some() || self.has_ring(spec)
    }

    fn has_ring(&self, spec: ConnSpec) -> bool
        ensures { result ≡ has_its_ring spec self.now }
    {
        match spec {
            ConnSpec::Ring { domid, .. } => self.conns.by_domid(domid).is_some(),
            ConnSpec::Socket { .. } => false,
        }
    }

    /// Adds a connection. Refused, nothing has changed. It moves the connections of higher ids.
    pub fn add(&mut self, id: u32, spec: ConnSpec) -> Result<(), NoMemory>
        requires free { is_taken id spec self.old ≡ false }
        requires few { (is_socket spec && nat_le 65536 (count_sockets self.old)) ≡ false }
        requires caller { (caller_of spec).domid ≤ 32751 }
        ensures ok { OnOk result (self.new ≡ put nat_cmp id spec self.old) }
        ensures err { OnErr result (self.new ≡ self.old) }
    {
        match self.conns.add(id, spec) {
            Ok(()) => {
                self.sockets = sockets_with(self.sockets, spec);
                Ok(())
            }
            Err(AddErr::NoMemory) => Err(NoMemory),
            Err(AddErr::Taken) => unreachable!(),
        }
    }

    /// The connections themselves.
    pub fn into_conns(self) -> Conns
        ensures conns { result ≡ self }
        ensures callers { AllByRecursion (λ e. (caller_of e.1).domid ≤ 32751) result }
    {
        self.conns
    }
}
