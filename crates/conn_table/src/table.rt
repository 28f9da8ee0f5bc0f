//! The table.

ghost use Rattle.std.specs.Prelude.{◌≡◌, ℕ, ◌≤◌, ◌<◌, ◌==◌, ◌↔◌, not, true, [], None, Some, is_some, length, drop, if◌then◌else◌, IfSome, OnOk, OnErr, IsErrOf};
ghost use Rattle.std.specs.Option.{ForSome};
ghost use Rattle.std.specs.List.{AllByRecursion};
ghost use Rattle.std.specs.FinMap.{find, put};
ghost use Rattle.std.specs.FinMap.Entries.{where_key};
ghost use Rattle.std.specs.Ordering.{nat_cmp};
ghost use Rattle.machine_model.specs.Connections.{is_ring_of, least_free};
ghost use Rattle.machine_model.specs.Limits.{IsLeastFree};
ghost use Rattle.id_map.specs.Ids.{above, first_id, IsNext};
ghost use Rattle.conn_table.specs.Tables.{IsTable, ring_id, ring_domid, is_taken, is_ring_at, unless};

use crate::NoMemory;
use crate::edits::{add_to, remove_from, set_in, taken_in};
use id_map::IdMap;
use machine_model::ConnSpec;
use std::alloc::{AllocError, Global};
use std::marker::Model;
use thiserror::Error;

/// Why a connection is not added.
#[derive(Clone, Copy, Debug, PartialEq, Eq, Error)]
pub enum AddErr {
    /// The id is there, or a ring connection of the same domain.
    #[error("the id or the domain has a connection")]
    Taken,
    /// No memory was found for it.
    #[error("out of memory")]
    NoMemory,
}

impl From<AllocError> for AddErr {
    ghost use Rattle.std.specs.Prelude.{◌≡◌};
    ghost use Rattle.conn_table.specs.declared.table.AddErr.TheVariants.{NoMemory};

    ghost from_gives = { λ _ e. e ≡ NoMemory };

    fn from(_error: AllocError) -> AddErr {
        AddErr::NoMemory
    }
}

/// Connections, by their ids: the other end of each.
///
/// Contracts see the list of the ids and specs in rising order of the ids, of which no two are rings of one domain
/// (`IsTable`). Memory is taken by [`Conns::add`] alone.
#[derive(Debug, Drop)]
pub struct Conns {
    specs: IdMap<ConnSpec>,
    // The ids of the ring connections, by their domains.
    rings: IdMap<u32>,
}

impl Model for Conns {
    ghost use Rattle.std.specs.Prelude.{ℕ, List};
    ghost use Rattle.machine_model.specs.declared.ConnSpec.{ConnSpec};
    ghost use Rattle.conn_table.specs.Kept.{Agrees};

    ghost Value = { List (ℕ × ConnSpec) };

    ghost view = { λ conns. conns.specs.entries };

    ghost invariant = { λ conns. Agrees conns.specs.entries conns.rings.entries };
}

impl Conns {
    /// No connections. It takes no memory.
    pub fn empty(alloc: Global) -> Conns
        ensures { result ≡ [] }
    {
        Conns {
            specs: IdMap::new(alloc),
            rings: IdMap::new(alloc),
        }
    }

    /// How many connections there are. O(1).
    pub fn len(&self) -> usize
        ensures { result ≡ length self.now }
    {
        self.specs.len()
    }

    /// Whether there is no connection. O(1).
    pub fn is_empty(&self) -> bool
        ensures { result ≡ (length self.now == 0) }
    {
        self.specs.is_empty()
    }

    /// Adds a connection. It is refused as taken exactly where its id is there or, for a ring, a ring connection of
    /// the same domain. Refused, nothing has changed. It moves the connections of higher ids, and the ring
    /// connections of higher domains.
    pub fn add(&mut self, id: u32, spec: ConnSpec) -> Result<(), AddErr>
        ensures ok { OnOk result (self.new ≡ put nat_cmp id spec self.old) }
        ensures rings { OnOk result ((d : ℕ) → ring_id d self.new ≡ (if is_ring_of d spec then Some id else ring_id d self.old)) }
        ensures err { OnErr result (self.new ≡ self.old) }
        ensures taken { IsErrOf result AddErr.Taken ↔ (is_taken id spec self.old ≡ true) }
        ensures table { IsTable self.new }
    {
        if taken_in(&self.specs, &self.rings, id, spec) {
            return Err(AddErr::Taken);
        }
        add_to(&mut self.specs, &mut self.rings, id, spec)?;
        Ok(())
    }

    /// The least positive id that no connection has. O(log connections).
    pub fn least_free(&self) -> u32
        requires { length self.now < 4294967295 }
        ensures least { IsLeastFree result self.now }
        ensures defined { AllByRecursion (λ e. 1 ≤ e.0) self.now → result ≡ least_free self.now }
    {
        self.specs.least_free()
    }

    /// The other end of a connection, if it is there. O(log connections).
    pub fn spec(&self, id: u32) -> Option<ConnSpec>
        ensures found { result ≡ find nat_cmp id self.now }
        ensures table { IsTable self.now }
    {
        self.specs.get(id).copied()
    }

    /// The ring connection of a domain, if it has one. O(log ring connections).
    pub fn by_domid(&self, domid: u16) -> Option<u32>
        ensures ring { result ≡ ring_id domid self.now }
        ensures only { (id : ℕ) → (result ≡ Some id) ↔ (is_ring_at domid id self.now ≡ true) }
        ensures table { IsTable self.now }
    {
        self.rings.get(u32::from(domid)).copied()
    }

    /// All connections, in rising order of their ids. O(1).
    pub fn entries(&self) -> &[(u32, ConnSpec)]
        ensures { result.now ≡ self.now }
    {
        self.specs.entries()
    }

    /// The least id above this one that has a connection, whether this one has one or not. O(log connections).
    pub fn next_after(&self, id: u32) -> Option<u32>
        ensures next { result ≡ first_id (above id self.now) }
        ensures least { IfSome result (IsNext self.now id) }
        ensures walk { IfSome result (λ next. above next self.now ≡ drop 1 (above id self.now)) }
    {
        self.specs.next_after(id)
    }

    /// Changes the other end of a connection, and says whether it was there. It is of the same domain's ring as
    /// before, or a socket as before. Every other connection stays as it is. O(log connections).
    pub fn set(&mut self, id: u32, spec: ConnSpec) -> bool
        requires { ForSome (find nat_cmp id self.old) (λ old. ring_domid old ≡ ring_domid spec) }
        ensures found { result ≡ is_some (find nat_cmp id self.old) }
        ensures after { self.new ≡ (if result then put nat_cmp id spec self.old else self.old) }
        ensures rings { (d : ℕ) → ring_id d self.new ≡ ring_id d self.old }
        ensures table { IsTable self.new }
    {
        set_in(&mut self.specs, id, spec)
    }

    /// Removes a connection, and says whether it was there. It moves the connections of higher ids, and the ring
    /// connections of higher domains.
    pub fn remove(&mut self, id: u32) -> bool
        ensures found { result ≡ is_some (find nat_cmp id self.old) }
        ensures after { self.new ≡ where_key nat_cmp (λ key. not (id == key)) self.old }
        ensures rings { (d : ℕ) → ring_id d self.new ≡ unless id (ring_id d self.old) }
        ensures table { IsTable self.new }
    {
        remove_from(&mut self.specs, &mut self.rings, id)
    }
}
