//! What the record of a node adds to what came: a node of the store, or what a transaction did at a path.

ghost use Rattle.std.specs.Prelude.{◌≡◌, ◌<◌, ◌++◌, [], ◌∷◌, vec_len, vec_capacity};
ghost use Rattle.kept_model.specs.Loading.{load_node_data, load_node, load_mark};
ghost use Rattle.mig_load.specs.Steps.{Steps};

use crate::entries::{NodeRecord, found_by, generation_in, lacks_entries, perms_of};
use crate::loading::{Loading, Pending};
use crate::memory::or_fault;
use crate::texts::{absolute, is_special, one_string};
use kept_model::LoadFault;
use node_tree::Node;
use std::alloc::Global;
use txn_normal::{Access, Said};
use xs_path::Path;

/// Appends a path, for which there is memory.
fn push(list: &mut Vec<Pending>, pending: Pending)
    requires { vec_len list.old < vec_capacity list.old }
    ensures { list.new.items ≡ list.old.items ++ pending ∷ [] }
{
    list.push(pending).unwrap();
}

impl Loading {
    /// A node came. The record of a special path is read past. O(log nodes + bytes), or O(log connections +
    /// log transactions + log paths + bytes).
    pub fn node_data(
        &mut self,
        alloc: Global,
        rec: usize,
        item: NodeRecord,
    ) -> Result<(), LoadFault>
        ensures { Steps (load_node_data rec self.old item) self.old self.new result }
    {
        let Some(text) = one_string(item.path.as_slice()) else {
            return Err(LoadFault::BadText { rec });
        };
        if item.conn == 0 && is_special(text) {
            return Ok(());
        }
        let Some(path) = or_fault(absolute(alloc, text))? else {
            return Err(LoadFault::BadPath { rec });
        };
        if item.conn == 0 {
            return self.node(alloc, rec, item, path);
        }
        self.mark(alloc, rec, item, path)
    }

    /// A node of the store.
    fn node(
        &mut self,
        alloc: Global,
        rec: usize,
        item: NodeRecord,
        path: Path,
    ) -> Result<(), LoadFault>
        ensures { Steps (load_node rec self.old item path) self.old self.new result }
    {
        if item.perms.is_empty() {
            return Err(LoadFault::BadAccess { rec });
        }
        let Some(perms) = or_fault(perms_of(alloc, item.perms.as_slice()))? else {
            return Err(LoadFault::BadPerm { rec });
        };
        if self.nodes.has_come(&path) {
            return Err(LoadFault::Repeated { rec });
        }
        if !or_fault(self.nodes.has_parent(alloc, &path))? {
            return Err(LoadFault::Orphan { rec });
        }
        let generation = generation_in(&item);
        let node = Node::new(item.value, perms);
        or_fault(self.nodes.put(alloc, path, node, generation))
    }

    /// What a transaction did at a path.
    fn mark(
        &mut self,
        alloc: Global,
        rec: usize,
        item: NodeRecord,
        path: Path,
    ) -> Result<(), LoadFault>
        ensures { Steps (load_mark rec self.old item path) self.old self.new result }
    {
        let Some(access) = Access::of(item.access) else {
            return Err(LoadFault::BadAccess { rec });
        };
        if lacks_entries(access, &item) {
            return Err(LoadFault::BadAccess { rec });
        }
        let conn = item.conn;
        let tx = item.tx;
        let Some(found) = or_fault(found_by(alloc, access, item))? else {
            return Err(LoadFault::BadPerm { rec });
        };
        if !self.conns.has(conn) {
            return Err(LoadFault::UnknownConn { rec });
        }
        if !self.conns.has_txn(conn, tx) {
            return Err(LoadFault::UnknownTxn { rec });
        }
        if self.conns.has_mark(conn, tx, &path) {
            return Err(LoadFault::Repeated { rec });
        }
        let place = or_fault(path.copy(alloc))?;
        or_fault(self.pending.reserve(1))?;
        or_fault(self.conns.mark(conn, tx, path, Said::by(access, found)))?;
        let pending = Pending {
            rec,
            conn,
            tx,
            path: place,
        };
        push(&mut self.pending, pending);
        Ok(())
    }
}
