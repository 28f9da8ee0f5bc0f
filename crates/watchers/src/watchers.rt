//! The watches of all connections.

ghost use Rattle.std.specs.Prelude.{◌≡◌, ◌≤◌, ◌+◌, ◌==◌, ◌++◌, ◌∷◌, [], ℕ, true, false, not, None, length, filter, IfOk, OnOk, OnErr};
ghost use Rattle.std.specs.List.{list_any};
ghost use Rattle.std.specs.Option.{option_copied};
ghost use Rattle.std.specs.Ordering.{nat_cmp};
ghost use Rattle.std.specs.FinMap.{find, put};
ghost use Rattle.std.specs.FinMap.Entries.{where_key};
ghost use Rattle.xs_model.specs.Requests.{is_watch_path, is_token};
ghost use Rattle.xs_model.specs.Watches.{same_watch, first_event};
ghost use Rattle.machine_model.specs.Machine.{change_sends, special_sends};
ghost use Rattle.machine_model.specs.History.{sent_to, unsent_to};
ghost use Rattle.conn_table.specs.Tables.{IsTable};
ghost use Rattle.watch_table.specs.Tables.{watch_of, watches_in, is_reached};
ghost use Rattle.watchers.specs.Watched.{Watched, made_by, watches_of, conns_of, AreOwn};

use crate::index::{Ids, Index, list, make_room, reached_in};
use crate::listing::{node_of, unlist_all, unlist_watch};
use crate::messages::{append, for_new};
use crate::owing::{owe_change, owe_special_each};
use conn_table::Conns;
use id_map::IdMap;
use owed_bytes::Owed;
use std::alloc::Global;
use std::marker::Model;
use watch_events::{Change, Nodes, changes};
use watch_table::{WatchErr, Watches};
use xs_base::{Bytes, NoMemory};
use xs_path::Paths;

/// The watches of all connections, by the connections' ids.
///
/// Contracts see the watches of each connection that has any, or had; a connection that is not named has none. Beside the
/// watches there is an index of the connections by the nodes that they watch, so that an event passes all others over.
#[derive(Drop)]
pub struct Watchers {
    alloc: Global,
    watches: IdMap<Watches>,
    index: Index,
}

impl Model for Watchers {
    ghost use Rattle.watchers.specs.Watched.{Watched};
    ghost use Rattle.watchers.specs.Index.{IsIndexed};

    ghost Value = { Watched };

    ghost view = { λ watchers. watchers.watches.entries };

    ghost invariant = { λ watchers. IsIndexed watchers.watches.entries watchers.index.entries };
}

/// No two connections of a table have one id. It does nothing.
fn is_table(conns: &Conns)
    ensures { IsTable conns.now }
{
    let _spec = conns.spec(0);
}

/// Adds a watch behind all others of a connection.
fn add_to(
    alloc: Global,
    watches: &mut IdMap<Watches>,
    conn: u32,
    wpath: Bytes,
    token: Bytes,
    domid: u16,
) -> Result<(), NoMemory>
    requires domid { domid ≤ 32751 }
    requires wpath { is_watch_path wpath domid ≡ true }
    requires token { is_token token ≡ true }
    requires other { list_any (same_watch (watch_of wpath token)) (watches_of conn watches.old.entries) ≡ false }
    ensures ok { OnOk result (watches.new.entries ≡ put nat_cmp conn (made_by conn watches.old.entries ++ record { watch = watch_of wpath token; domid = domid } ∷ []) watches.old.entries) }
    ensures err { OnErr result (watches.new.entries ≡ watches.old.entries) }
{
    match watches.get_mut(conn) {
        Some(those) => add_behind(those, wpath, token, domid),
        None => {
            let mut first = Watches::new(alloc);
            add_behind(&mut first, wpath, token, domid)?;
            watches.add(conn, first)
        }
    }
}

/// Adds a watch behind all others, none of which has this path and token.
fn add_behind(watches: &mut Watches, wpath: Bytes, token: Bytes, domid: u16) -> Result<(), NoMemory>
    requires domid { domid ≤ 32751 }
    requires wpath { is_watch_path wpath domid ≡ true }
    requires token { is_token token ≡ true }
    requires other { list_any (same_watch (watch_of wpath token)) (watches_in watches.old) ≡ false }
    ensures ok { OnOk result (watches.new ≡ watches.old ++ record { watch = watch_of wpath token; domid = domid } ∷ []) }
    ensures err { OnErr result (watches.new ≡ watches.old) }
{
    match watches.add(wpath, token, domid) {
        Ok(()) => Ok(()),
        Err(WatchErr::NoMemory) => Err(NoMemory),
        Err(WatchErr::Exists) => unreachable!(),
    }
}

/// Removes the watch of a connection with this path and token, and says whether there was one.
fn remove_from(watches: &mut IdMap<Watches>, conn: u32, wpath: &[u8], token: &[u8]) -> bool
    ensures found { result ≡ list_any (same_watch (watch_of wpath.now token.now)) (watches_of conn watches.old.entries) }
    ensures after { result ≡ true → watches.new.entries ≡ put nat_cmp conn (filter (λ m. not (same_watch (watch_of wpath.now token.now) m.watch)) (made_by conn watches.old.entries)) watches.old.entries }
    ensures absent { result ≡ false → watches.new.entries ≡ watches.old.entries }
{
    match watches.get_mut(conn) {
        Some(those) => those.remove(wpath, token),
        None => false,
    }
}

impl Watchers {
    /// No watches. It takes no memory.
    pub fn new(alloc: Global) -> Watchers
        ensures { result ≡ [] }
    {
        Watchers {
            alloc,
            watches: IdMap::new(alloc),
            index: Index::new(alloc),
        }
    }

    /// The watches of a connection, in the order in which they were made; none where it never had any. O(log connections).
    pub fn watches(&self, conn: u32) -> Option<&Watches>
        ensures { option_copied result ≡ find nat_cmp conn self.now }
    {
        self.watches.get(conn)
    }

    /// What takes the memory.
    pub(crate) fn allocator(&self) -> Global {
        self.alloc
    }

    /// How many watches a connection has. O(log connections).
    pub fn count(&self, conn: u32) -> usize
        ensures { result ≡ length (made_by conn self.now) }
    {
        match self.watches.get(conn) {
            Some(watches) => watches.len(),
            None => 0,
        }
    }

    /// Whether a connection has a watch with this path and token. O(log connections + bytes) on average.
    pub fn has(&self, conn: u32, wpath: &[u8], token: &[u8]) -> bool
        ensures { result ≡ list_any (same_watch (watch_of wpath.now token.now)) (watches_of conn self.now) }
    {
        match self.watches.get(conn) {
            Some(watches) => watches.has(wpath, token),
            None => false,
        }
    }

    /// Adds a watch behind all others of a connection, which has none with this path and token. Refused, nothing has
    /// changed. O(log connections + log watched nodes + bytes) on average; the first watch of a connection moves the
    /// connections of higher ids, and so does the first one on a node there.
    pub fn add(&mut self, conn: u32, wpath: Bytes, token: Bytes, domid: u16) -> Result<(), NoMemory>
        requires domid { domid ≤ 32751 }
        requires wpath { is_watch_path wpath domid ≡ true }
        requires token { is_token token ≡ true }
        requires other { list_any (same_watch (watch_of wpath token)) (watches_of conn self.old) ≡ false }
        ensures ok { OnOk result (self.new ≡ put nat_cmp conn (made_by conn self.old ++ record { watch = watch_of wpath token; domid = domid } ∷ []) self.old) }
        ensures err { OnErr result (self.new ≡ self.old) }
    {
        let Some(node) = node_of(self.alloc, wpath.as_slice(), domid)? else {
            return add_to(self.alloc, &mut self.watches, conn, wpath, token, domid);
        };
        let first = make_room(&mut self.index, self.alloc, &node)?;
        add_to(self.alloc, &mut self.watches, conn, wpath, token, domid)?;
        list(&mut self.index, node, first, conn);
        Ok(())
    }

    /// Removes the watch of a connection with this path and token, and says whether there was one. The others keep their
    /// order. It takes no memory. O(watches of the connection) and a look-up in the index.
    pub fn remove(&mut self, conn: u32, wpath: &[u8], token: &[u8]) -> bool
        ensures found { result ≡ list_any (same_watch (watch_of wpath.now token.now)) (watches_of conn self.old) }
        ensures after { result ≡ true → self.new ≡ put nat_cmp conn (filter (λ m. not (same_watch (watch_of wpath.now token.now) m.watch)) (made_by conn self.old)) self.old }
        ensures absent { result ≡ false → self.new ≡ self.old }
    {
        unlist_watch(&mut self.index, &self.watches, conn, wpath, token);
        remove_from(&mut self.watches, conn, wpath, token)
    }

    /// Removes all watches of a connection. It takes no memory. O(its watches) look-ups in the index, and it moves the
    /// connections of higher ids.
    pub fn clear(&mut self, conn: u32)
        ensures { self.new ≡ where_key nat_cmp (λ key. not (conn == key)) self.old }
    {
        unlist_all(&mut self.index, &self.watches, conn);
        self.watches.remove(conn);
    }

    /// The connections with a watch that an event reaches, and maybe others. Costs a look-up for each node that it reaches,
    /// and O(connections · log connections) of those that are found there.
    pub(crate) fn reached_by(&self, change: &Change) -> Result<Ids, NoMemory>
        ensures { IfOk result (λ ids. (c : ℕ) → find nat_cmp c ids.entries ≡ None → list_any (is_reached change.now) (made_by c self.now) ≡ false) }
    {
        reached_in(self.alloc, &self.index, change)
    }

    /// What a change of the tree owes to the connections of a table: the messages of the events of the written paths.
    ///
    /// Costs what [`changes`] costs, and for each event a look-up at its node and at each node above it, and what it owes
    /// to the connections that are found there. Connections and watches elsewhere cost nothing, and where no node is
    /// watched or no path is written, nothing is done and no memory taken.
    pub fn owed<A: Nodes, B: Nodes>(
        &self,
        conns: &Conns,
        before: &A,
        written: &Paths,
        after: &B,
    ) -> Result<Owed, NoMemory>
        requires { AreOwn conns.now self.now }
        ensures { IfOk result (λ owed. (c : ℕ)
            → unsent_to c owed ≡ sent_to c (change_sends (A.nodes before.now) written.now (B.nodes after.now) (conns_of conns.now self.now))) }
    {
        is_table(conns);
        let mut owed = Owed::new(self.alloc);
        if self.index.is_empty() {
            return Ok(owed);
        }
        if written.is_empty() {
            return Ok(owed);
        }
        let changes = changes(self.alloc, before, written, after)?;
        for change in changes.as_slice() {
            owe_change(self, conns, before, change, after, &mut owed)?;
        }
        Ok(owed)
    }

    /// What a special event owes to the connections of a table. Only those of domain 0 are owed any. O(connections · log
    /// connections), and the watches of those of domain 0 are gone over.
    pub fn special_owed(&self, conns: &Conns, special: &[u8]) -> Result<Owed, NoMemory>
        requires { AreOwn conns.now self.now }
        ensures { IfOk result (λ owed. (c : ℕ) → unsent_to c owed ≡ sent_to c (special_sends special.now (conns_of conns.now self.now))) }
    {
        is_table(conns);
        let mut owed = Owed::new(self.alloc);
        owe_special_each(self, conns, special, &mut owed)?;
        Ok(owed)
    }

    /// What a connection is owed for a new watch: its first event. It takes memory for that alone. O(bytes of the longest
    /// message).
    pub fn first_owed(&self, conn: u32, wpath: &[u8], token: &[u8]) -> Result<Owed, NoMemory>
        requires { length wpath.now + length token.now + 2 ≤ 4096 }
        ensures { IfOk result (λ owed. (c : ℕ) → unsent_to c owed ≡ sent_to c ((conn, first_event (watch_of wpath.now token.now)) ∷ [])) }
    {
        let mut owed = Owed::new(self.alloc);
        append(&mut owed, conn, for_new(self.alloc, wpath, token)?)?;
        Ok(owed)
    }
}
