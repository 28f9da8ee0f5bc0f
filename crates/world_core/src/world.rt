//! The world, and its events.

ghost use Rattle.std.specs.Prelude.{◌≡◌, ◌==◌, ◌≤◌, not, List, ℕ, map, take, drop, length, Some, IfOk, OnOk, OnErr};
ghost use Rattle.std.specs.Bool.{OnTrue};
ghost use Rattle.std.specs.List.{AllByRecursion};
ghost use Rattle.std.specs.Ordering.{nat_cmp};
ghost use Rattle.std.specs.FinMap.{find, put};
ghost use Rattle.std.specs.FinMap.Entries.{where_key};
ghost use Rattle.xs_model.specs.Requests.{all_types};
ghost use Rattle.store_parts.specs.States.{state_of};
ghost use Rattle.world_states.specs.States.{begun_world};
ghost use Rattle.world_model.specs.Transcripts.{is_handover};
ghost use Rattle.world_model.specs.Rings.{put_all, with_reply, with_error};
ghost use Rattle.world_model.specs.Fronts.{front};
ghost use Rattle.world_model.specs.Worlds.{Guest as model_guest, Send as SendEvent, Put as PutEvent, Intake as IntakeEvent, Do as DoEvent, Out as OutEvent, Take as TakeEvent, Poke as PokeEvent, ShowPage, intake_ring, do_message, dropped};
ghost use Rattle.ring_index.specs.Answers.{free_unless_bad};
ghost use Rattle.msg_reassembly.specs.Inboxes.{front_view};
ghost use Rattle.guest_script.specs.Views.{event_view};
ghost use Rattle.daemon.specs.Submits.{Drops, Pulled};
ghost use Rattle.world_core.specs.Guests.{with_page_of};
ghost use Rattle.world_core.specs.Handovers.{HandsOver, refused_by};
ghost use Rattle.world_core.specs.Stands.{Acts, ActsOrNone, AddsDomain, Begins, Moves, StandsFor, Steps};
ghost use Rattle.world_core.specs.Parts.{HasRoom, IsInFront, IsServed, SendsSome};

use crate::guest::{Guest, RING_SIZE};
use crate::seats::{Seats, connect};
use daemon::{Daemon, Pull, Submit};
use guest_script::Event;
use handover::{Refusal, successor};
use msg_reassembly::{Front, Ins};
use ring_index::{BadIndex, Index};
use std::alloc::Global;
use std::marker::Model;
use world_model::Said;
use xs_base::{NoMemory, Vault};

/// The most bytes of a message: a header of 16 and a payload of 4096.
const MESSAGE_MAX: usize = 4112;

/// The error word of a page whose connection was dropped for bad indices.
const BAD_INDEX: u32 = 2;

/// The error word of a page whose connection was dropped for a header that is too long.
const BAD_PROTOCOL: u32 = 3;

/// The store, and for each domain the bytes that are under way.
///
/// Contracts see what it keeps, and the worlds of the definitions that it stands for.
#[derive(Drop)]
pub struct World {
    alloc: Global,
    daemon: Daemon,
    seats: Seats,
    // The bytes of the last take, and how many there are.
    bytes: [u8; 1024],
    count: usize,
    // Room for a message that leaves its inbox.
    message: [u8; 4112],
}

impl Model for World {
    ghost use Rattle.std.specs.Prelude.{◌≡◌, ◌≤◌, take, length, [], IfSome};
    ghost use Rattle.std.specs.List.{AllByRecursion};
    ghost use Rattle.world_core.specs.Stands.{Kept};

    ghost Value = { Kept };

    ghost view = { λ world. record {
      daemon = world.daemon;
      inboxes = world.seats.ins.entries;
      guests = world.seats.guests.entries;
      rings = world.seats.rings.entries;
      taken = take world.count world.bytes;
    } };

    ghost invariant = { λ world. record {
      count : world.count ≤ 1024;
      spare : IfSome world.seats.spare (λ bytes. bytes ≡ []);
      inboxes : AllByRecursion (λ e. length e.1 ≤ 16777216) world.seats.ins.entries;
    } };
}

impl World {
    /// The world of a store and the bytes that it took and has not answered. Each domain with a ring connection
    /// has a fresh page that starts at 0, and nothing to put. O(connections).
    pub fn start(alloc: Global, daemon: Daemon, ins: Ins) -> Result<World, NoMemory>
        requires named { map (λ e. e.0) ins.entries ≡ map (λ e. e.0) daemon.unsent }
        requires short { AllByRecursion (λ e. length e.1 ≤ 16777216) ins.entries }
        ensures begins { IfOk result (Begins daemon ins.entries) }
        // The world that goes on from the state that the store is in is one of those.
        ensures begun { IfOk result (λ world. StandsFor world (begun_world (state_of daemon ins.entries))) }
    {
        daemon.is_sound();
        let mut seats = Seats::new(alloc, ins);
        seats.seat_all(alloc, daemon.conns())?;
        Ok(World {
            alloc,
            daemon,
            seats,
            bytes: [0; RING_SIZE],
            count: 0,
            message: [0; MESSAGE_MAX],
        })
    }

    /// A domain is there with a fresh page whose indices start here, and with nothing to put. It gets a connection
    /// if it has none. Refused, nothing has changed. O(log domains), and it moves the domains behind it.
    pub fn add_domain(&mut self, domid: u16, start: u32) -> Result<(), NoMemory>
        requires { domid ≤ 32751 }
        ensures ok { OnOk result (AddsDomain self.old domid start self.new) }
        ensures err { OnErr result (self.new ≡ self.old) }
    {
        self.seats.make_room(self.alloc)?;
        let guest = Guest::fresh(self.alloc, start);
        if self.daemon.conns().by_domid(domid).is_some() {
            self.seats.guests.put(u32::from(domid), guest);
            return Ok(());
        }
        let conn = connect(&mut self.daemon, domid)?;
        self.seats.seat(conn, domid, guest);
        Ok(())
    }

    /// Plays one event and says what came of it. Want of memory may come at `Send`, `Do` and `Handover` alone, and nothing
    /// has changed then. The vault is for handovers.
    ///
    /// Look-ups are O(log domains). `Send`, `Put`, `Intake`, `Out` and `Take` cost the bytes that move, `Do` what
    /// the store does, `Handover` what [`successor`] does.
    pub fn step<V: Vault>(&mut self, event: &Event, vault: &mut V) -> Said
        requires { Moves (event_view event.now) }
        ensures step { OnTrue (not (is_handover (event_view event.now))) (Steps self.old (event_view event.now) self.new result) }
        ensures vault { OnTrue (not (is_handover (event_view event.now))) (vault.new ≡ vault.old) }
        ensures hands_over { OnTrue (is_handover (event_view event.now)) (HandsOver self.old
            (record { puts = V.puts vault.old; gets = V.gets vault.old; faults = V.faults vault.old; honest = V.honest vault.old }) result self.new
            (record { puts = V.puts vault.new; gets = V.gets vault.new; faults = V.faults vault.new; honest = V.honest vault.new })) }
    {
        match event {
            Event::Send { domid, bytes } => self.send(*domid, bytes.as_slice()),
            Event::Put { domid, max } => self.put(*domid, *max),
            Event::Intake { domid, max } => self.intake(*domid, *max),
            Event::Do { domid } => self.answer(*domid),
            Event::Out { domid, max } => self.give_out(*domid, *max),
            Event::Take { domid, max } => self.take(*domid, *max),
            Event::Poke {
                domid,
                which,
                value,
            } => self.poke(*domid, *which, *value),
            Event::Page { domid } => self.page(*domid),
            Event::Handover => self.hand_over(vault),
        }
    }

    /// The bytes of the last `Take`, at most 1024. O(1).
    pub fn taken(&self) -> &[u8]
        ensures { result.now ≡ self.now.taken }
    {
        &self.bytes[..self.count]
    }
}

impl World {
    fn send(&mut self, domid: u16, bytes: &[u8]) -> Said
        ensures { Steps self.old (SendEvent domid bytes.now) self.new result }
    {
        let Some(guest) = self.seats.guests.get_mut(u32::from(domid)) else {
            return Said::Gone;
        };
        if guest.queue(bytes).is_err() {
            return Said::NoMemory;
        }
        Said::Queued(bytes.len())
    }

    fn put(&mut self, domid: u16, max: u32) -> Said
        ensures { Steps self.old (PutEvent domid max) self.new result }
    {
        match self.seats.guests.get_mut(u32::from(domid)) {
            None => Said::Gone,
            Some(guest) => Said::Put(guest.put(max)),
        }
    }

    fn take(&mut self, domid: u16, max: u32) -> Said
        ensures { Steps self.old (TakeEvent domid max) self.new result }
    {
        let Some(guest) = self.seats.guests.get_mut(u32::from(domid)) else {
            return Said::Gone;
        };
        self.count = guest.take(max, &mut self.bytes);
        Said::Got(self.count)
    }

    fn poke(&mut self, domid: u16, which: Index, value: u32) -> Said
        ensures { Steps self.old (PokeEvent domid which value) self.new result }
    {
        let Some(guest) = self.seats.guests.get_mut(u32::from(domid)) else {
            return Said::Gone;
        };
        guest.poke(which, value);
        Said::Poked
    }

    fn page(&self, domid: u16) -> Said
        ensures { Steps self.now (ShowPage domid) self.now result }
    {
        match self.seats.guests.get(u32::from(domid)) {
            None => Said::Gone,
            Some(guest) => guest.words(),
        }
    }

    fn hand_over<V: Vault>(&mut self, vault: &mut V) -> Said
        ensures { HandsOver self.old
            (record { puts = V.puts vault.old; gets = V.gets vault.old; faults = V.faults vault.old; honest = V.honest vault.old }) result self.new
            (record { puts = V.puts vault.new; gets = V.gets vault.new; faults = V.faults vault.new; honest = V.honest vault.new }) }
    {
        match successor(self.alloc, &self.daemon, &self.seats.ins, vault) {
            Ok((daemon, ins)) => {
                self.daemon = daemon;
                self.seats.ins = ins;
                Said::Handed
            }
            Err(refusal) => refused(refusal),
        }
    }

    fn intake(&mut self, domid: u16, max: u32) -> Said
        ensures { Steps self.old (IntakeEvent domid max) self.new result }
    {
        let Some(conn) = self.served(domid) else {
            return Said::Gone;
        };
        match self.front(conn) {
            Front::Whole { .. } => Said::InFull,
            Front::TooLong { .. } => Said::InFull,
            Front::Part => self.take_in(conn, domid, max),
        }
    }

    fn answer(&mut self, domid: u16) -> Said
        ensures { Steps self.old (DoEvent domid) self.new result }
    {
        let Some(conn) = self.served(domid) else {
            return Said::Gone;
        };
        match self.front(conn) {
            Front::Part => Said::Part,
            Front::TooLong { len } => self.drop_for_length(conn, domid, len),
            Front::Whole { len } => self.submit(conn, domid, len),
        }
    }

    fn give_out(&mut self, domid: u16, max: u32) -> Said
        requires { 1 ≤ max }
        ensures { Steps self.old (OutEvent domid max) self.new result }
    {
        let Some(conn) = self.served(domid) else {
            return Said::Gone;
        };
        if self.daemon.unsent(conn) == Some(0) {
            return Said::NoneQueued;
        }
        match self.reply_free(domid) {
            Ok(0) => Said::NoSpace,
            Ok(free) => self.send_some(conn, domid, free.min(max)),
            Err(bad) => self.drop_for_index(conn, domid, bad),
        }
    }
}

impl World {
    /// The connection of a domain, where that has a page and an inbox too.
    fn served(&self, domid: u16) -> Option<u32>
        ensures { IsServed self.now domid result }
    {
        let conn = self.daemon.conn_of(domid)?;
        let _guest = self.seats.guests.get(u32::from(domid))?;
        let _inbox = self.seats.ins.get(conn)?;
        Some(conn)
    }

    /// What stands in front of the inbox of a connection; nothing where it has none.
    fn front(&self, conn: u32) -> Front
        ensures { (bytes : List ℕ) → find nat_cmp conn self.now.inboxes ≡ Some bytes → front_view result ≡ front bytes }
    {
        match self.seats.ins.get(conn) {
            Some(inbox) => inbox.front(),
            None => Front::Part,
        }
    }

    /// For how many bytes the reply ring of a domain has room; for none where it has no page.
    fn reply_free(&self, domid: u16) -> Result<u32, BadIndex>
        ensures free { (guest : model_guest) → find nat_cmp domid self.now.guests ≡ Some guest → result ≡ free_unless_bad guest.page.reply }
        ensures within { IfOk result (λ n. n ≤ 1024) }
    {
        match self.seats.guests.get(u32::from(domid)) {
            Some(guest) => guest.reply_free(),
            None => Ok(0),
        }
    }

    /// Bytes go from a request ring to an inbox, and never past the message in front.
    fn take_in(&mut self, conn: u32, domid: u16, max: u32) -> Said
        ensures { Acts self.old domid conn (intake_ring domid max) self.new result }
    {
        let Some(guest) = self.seats.guests.get_mut(u32::from(domid)) else {
            return Said::Gone;
        };
        let Some(inbox) = self.seats.ins.get_mut(conn) else {
            return Said::Gone;
        };
        match guest.intake(inbox, max) {
            Ok(count) => Said::Took(count),
            Err(bad) => self.drop_for_index(conn, domid, bad),
        }
    }

    /// The message in front, of so many bytes, is one step of the store. It leaves the inbox where the store
    /// takes it. A domain that gets a connection gets a fresh page and an empty inbox, for which memory is taken
    /// beforehand; a connection that goes takes its inbox with it, and the page stays.
    fn submit(&mut self, conn: u32, domid: u16, len: usize) -> Said
        requires { IsInFront self.old.inboxes conn len }
        ensures { ActsOrNone self.old domid conn (do_message all_types len) self.new result }
    {
        if self.seats.make_room(self.alloc).is_err() {
            return Said::NoMemory;
        }
        let Some(inbox) = self.seats.ins.get(conn) else {
            return Said::Gone;
        };
        match self.daemon.submit(conn, &inbox.bytes()[..len]) {
            Ok(Submit::Done(door)) => {
                self.seats.skip_front(&mut self.message, conn, len);
                self.seats.follow(self.alloc, &self.daemon, door);
                Said::Done
            }
            Ok(Submit::Held { unsent }) => Said::Held { unsent },
            Ok(Submit::Crowded { conn }) => Said::Crowded { conn },
            Ok(Submit::Gone) => Said::Gone,
            Err(_) => Said::NoMemory,
        }
    }

    /// At most so many bytes go from what is unsent to a reply ring that has room for them.
    fn send_some(&mut self, conn: u32, domid: u16, most: u32) -> Said
        requires most { (1 ≤ most) × (most ≤ 1024) }
        requires room { HasRoom self.old.guests domid most }
        ensures { SendsSome self.old domid conn most self.new result }
    {
        let mut piece = [0; RING_SIZE];
        match pull(&mut self.daemon, conn, most as usize, &mut piece) {
            Pull::Got(count) => {
                self.reply(domid, first(&piece, count));
                Said::Sent(count)
            }
            Pull::Nothing => Said::NoneQueued,
            Pull::Gone => Said::Gone,
        }
    }

    /// Bytes go into a reply ring that has room for them.
    fn reply(&mut self, domid: u16, bytes: &[u8])
        requires { HasRoom self.old.guests domid (length bytes.now) }
        ensures guest { (guest : model_guest) → find nat_cmp domid self.old.guests ≡ Some guest
            → self.new.guests ≡ put nat_cmp domid (with_page_of (with_reply (put_all bytes.now guest.page.reply)) guest) self.old.guests }
        ensures same { (self.new.daemon ≡ self.old.daemon) × (self.new.inboxes ≡ self.old.inboxes) × (self.new.rings ≡ self.old.rings) }
    {
        if let Some(guest) = self.seats.guests.get_mut(u32::from(domid)) {
            guest.reply(bytes);
        }
    }

    /// Drops a connection whose guest wrote indices that no ring has.
    fn drop_for_index(&mut self, conn: u32, domid: u16, bad: BadIndex) -> Said
        ensures { Acts self.old domid conn (dropped domid 2 (Said.DroppedIndex bad.prod bad.cons)) self.new result }
    {
        self.lose(conn, domid, BAD_INDEX);
        Said::DroppedIndex {
            prod: bad.prod,
            cons: bad.cons,
        }
    }

    /// Drops a connection whose guest put a header with a length above the limit.
    fn drop_for_length(&mut self, conn: u32, domid: u16, len: u32) -> Said
        ensures { Acts self.old domid conn (dropped domid 3 (Said.DroppedLength len)) self.new result }
    {
        self.lose(conn, domid, BAD_PROTOCOL);
        Said::DroppedLength { len }
    }

    /// Drops a connection, with its inbox and its unsent bytes, and says why on the page of its guest.
    fn lose(&mut self, conn: u32, domid: u16, error: u32)
        ensures daemon { Drops self.old.daemon conn self.new.daemon }
        ensures inbox { self.new.inboxes ≡ where_key nat_cmp (λ c. not (conn == c)) self.old.inboxes }
        ensures guest { (guest : model_guest) → find nat_cmp domid self.old.guests ≡ Some guest
            → self.new.guests ≡ put nat_cmp domid (with_page_of (with_error error) guest) self.old.guests }
        ensures rings { self.new.rings ≡ self.old.rings }
    {
        self.daemon.drop_conn(conn);
        self.seats.ins.remove(conn);
        if let Some(guest) = self.seats.guests.get_mut(u32::from(domid)) {
            guest.set_error(error);
        }
    }
}

/// What a handover says that was refused.
fn refused(refusal: Refusal) -> Said
    ensures { result ≡ refused_by refusal }
{
    match refusal {
        Refusal::VaultFault => Said::RefusedFault,
        Refusal::Changed(change) => Said::RefusedChanged {
            at: change.at,
            put: change.put,
            got: change.got,
        },
        Refusal::NoMemory => Said::NoMemory,
    }
}

/// Moves at most so many unsent bytes of a connection into the first bytes of a piece.
fn pull(daemon: &mut Daemon, conn: u32, most: usize, piece: &mut [u8; 1024]) -> Pull
    requires { (1 ≤ most) × (most ≤ 1024) }
    ensures { Pulled daemon.old conn (take most piece.old) daemon.new (take most piece.new) result }
{
    daemon.pull(conn, &mut piece[..most])
}

/// The first so many bytes of a piece.
fn first(piece: &[u8; 1024], count: usize) -> &[u8]
    requires { count ≤ 1024 }
    ensures { result.now ≡ take count piece.now }
{
    &piece[..count]
}
