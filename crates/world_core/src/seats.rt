//! What connections have in a world: an inbox by its id, and a page by its domain.

ghost use Rattle.std.specs.Prelude.{◌≡◌, ◌≤◌, ℕ, List, [], drop, length, Some, None, IfSome, IfOk, OnOk, OnErr};
ghost use Rattle.std.specs.List.{AllByRecursion};
ghost use Rattle.std.specs.Ordering.{nat_cmp};
ghost use Rattle.std.specs.FinMap.{find, put};
ghost use Rattle.machine_model.specs.Connections.{least_free};
ghost use Rattle.world_model.specs.Worlds.{ring_domid, with_fresh_guests};
ghost use Rattle.conn_table.specs.Tables.{ring_id};
ghost use Rattle.daemon.specs.Peers.{IsSoundTable};
ghost use Rattle.daemon.specs.Submits.{Adds};
ghost use Rattle.world_core.specs.Guests.{ring_domids, with_fresh_page, with_ring, with_rings};
ghost use Rattle.world_core.specs.Parts.{IsInFront};
ghost use Rattle.world_core.specs.Seats.{Follows, HasRoom, IsSame, IsSeated, tables_of};

use crate::guest::Guest;
use daemon::{AddErr, ConnSpec, Conns, Daemon, Door};
use id_map::IdMap;
use msg_reassembly::{Inbox, Ins};
use std::alloc::Global;
use xs_base::NoMemory;

/// The inboxes and the pages of a world.
#[derive(Drop)]
pub struct Seats {
    /// By connection.
    pub ins: Ins,
    /// By domid, for each domain that ever had a ring connection.
    pub guests: IdMap<Guest>,
    /// The ring connection that each of these domains had last.
    pub rings: IdMap<u32>,
    /// An empty inbox for a connection that a request may make.
    pub spare: Option<Inbox>,
}

impl Seats {
    /// These inboxes, and no page. It takes no memory.
    pub fn new(alloc: Global, ins: Ins) -> Seats
        ensures ins { result.ins ≡ ins }
        ensures guests { result.guests.entries ≡ [] }
        ensures rings { result.rings.entries ≡ [] }
        ensures spare { result.spare ≡ None }
    {
        Seats {
            ins,
            guests: IdMap::new(alloc),
            rings: IdMap::new(alloc),
            spare: None,
        }
    }

    /// Takes memory for one more connection, and for its domain's page. Refused or not, all is as before.
    pub fn make_room(&mut self, alloc: Global) -> Result<(), NoMemory>
        requires { IfSome self.old.spare (λ bytes. bytes ≡ []) }
        ensures room { OnOk result (HasRoom self.new) }
        ensures spare { IfSome self.new.spare (λ bytes. bytes ≡ []) }
        ensures same { IsSame (tables_of self.old) (tables_of self.new) }
    {
        self.ins.reserve(1)?;
        self.guests.reserve(1)?;
        self.rings.reserve(1)?;
        if self.spare.is_none() {
            self.spare = Some(Inbox::new(alloc)?);
        }
        Ok(())
    }

    /// A connection has an empty inbox, and its domain this page. There is memory for both.
    pub fn seat(&mut self, conn: u32, domid: u16, guest: Guest)
        requires { HasRoom self.old }
        ensures seated { IsSeated domid conn guest (tables_of self.old) (tables_of self.new) }
        ensures spare { IfSome self.new.spare (λ bytes. bytes ≡ []) }
    {
        let inbox = self.spare.take().unwrap();
        self.ins.put(conn, inbox);
        self.guests.put(u32::from(domid), guest);
        self.rings.put(u32::from(domid), conn);
    }

    /// The message in front, of so many bytes, leaves its inbox.
    pub fn skip_front(&mut self, message: &mut [u8; 4112], conn: u32, len: usize)
        requires front { IsInFront self.old.ins.entries conn len }
        requires room { HasRoom self.old }
        ensures inbox { (bytes : List ℕ) → find nat_cmp conn self.old.ins.entries ≡ Some bytes
            → self.new.ins.entries ≡ put nat_cmp conn (drop len bytes) self.old.ins.entries }
        ensures guests { self.new.guests ≡ self.old.guests }
        ensures rings { self.new.rings ≡ self.old.rings }
        ensures room { HasRoom self.new }
    {
        if let Some(inbox) = self.ins.get_mut(conn) {
            let _len = inbox.take_front(message);
        }
    }

    /// Inboxes and pages follow the connection that a request made or removed.
    pub fn follow(&mut self, alloc: Global, daemon: &Daemon, door: Door)
        requires { HasRoom self.old }
        ensures follows { Follows daemon.now door (tables_of self.old) (tables_of self.new) }
        // A new inbox is empty.
        ensures short { (limit : ℕ) → AllByRecursion (λ e. length e.1 ≤ limit) self.old.ins.entries → AllByRecursion (λ e. length e.1 ≤ limit) self.new.ins.entries }
        ensures spare { IfSome self.new.spare (λ bytes. bytes ≡ []) }
        ensures sound { IsSoundTable daemon.now.specs }
    {
        let conns = daemon.conns();
        match door {
            Door::Same => {}
            Door::Opened(domid) => {
                if let Some(conn) = conns.by_domid(domid) {
                    self.seat(conn, domid, Guest::fresh(alloc, 0));
                }
            }
            Door::Closed(domid) => {
                if let Some(conn) = self.rings.get(u32::from(domid)) {
                    self.ins.remove(*conn);
                }
            }
        }
    }

    /// Gives the domain of a ring connection a fresh page.
    fn seat_ring(&mut self, alloc: Global, conns: &Conns, conn: u32) -> Result<(), NoMemory>
        ensures guests { OnOk result ((spec : ConnSpec) → find nat_cmp conn conns.now ≡ Some spec
            → self.new.guests.entries ≡ with_fresh_page (ring_domid spec) self.old.guests.entries) }
        ensures rings { OnOk result ((spec : ConnSpec) → find nat_cmp conn conns.now ≡ Some spec
            → self.new.rings.entries ≡ with_ring conn (ring_domid spec) self.old.rings.entries) }
        ensures ins { self.new.ins ≡ self.old.ins }
        ensures spare { self.new.spare ≡ self.old.spare }
    {
        let Some(ConnSpec::Ring { domid, .. }) = conns.spec(conn) else {
            return Ok(());
        };
        self.guests.reserve(1)?;
        self.rings.reserve(1)?;
        self.guests.put(u32::from(domid), Guest::fresh(alloc, 0));
        self.rings.put(u32::from(domid), conn);
        Ok(())
    }

    /// Gives each domain that has a ring connection a fresh page. O(connections).
    pub fn seat_all(&mut self, alloc: Global, conns: &Conns) -> Result<(), NoMemory>
        requires { IsSoundTable conns.now }
        ensures guests { OnOk result (self.new.guests.entries ≡ with_fresh_guests (ring_domids conns.now) self.old.guests.entries) }
        ensures rings { OnOk result (self.new.rings.entries ≡ with_rings conns.now self.old.rings.entries) }
        ensures ins { self.new.ins ≡ self.old.ins }
        ensures spare { self.new.spare ≡ self.old.spare }
    {
        let mut id = 0;
        while let Some(next) = conns.next_after(id) {
            self.seat_ring(alloc, conns, next)?;
            id = next;
        }
        Ok(())
    }
}

/// Adds the ring connection of a domain that has none, under the least id that is free.
pub fn connect(daemon: &mut Daemon, domid: u16) -> Result<u32, NoMemory>
    requires bound { domid ≤ 32751 }
    requires none { ring_id domid daemon.old.specs ≡ None }
    ensures id { IfOk result (λ id. id ≡ least_free daemon.old.specs) }
    ensures ok { IfOk result (λ id. Adds daemon.old id (ConnSpec.Ring domid None 0) daemon.new) }
    ensures err { OnErr result (daemon.new ≡ daemon.old) }
{
    let id = daemon.conns().least_free();
    let spec = ConnSpec::Ring {
        domid,
        target: None,
        evtchn: 0,
    };
    match daemon.add_conn(id, spec) {
        Ok(()) => Ok(id),
        Err(AddErr::Taken) => unreachable!(),
        Err(AddErr::NoMemory) => Err(NoMemory),
    }
}
