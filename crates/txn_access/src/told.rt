//! What a transaction tells of itself, and how it is made again from that.

ghost use Rattle.std.specs.Prelude.{◌≡◌, ◌≤◌, max, slice_get, OnOk, OnErr, IfOk};
ghost use Rattle.std.specs.FinMap.{put};
ghost use Rattle.std.specs.Option.{option_map};
ghost use Rattle.path_map.specs.Map.{most_kept};
ghost use Rattle.txn_access.specs.Entries.{entry_of, entry_at, mark_by, FitsKind};
ghost use Rattle.xs_model.specs.Paths.{path_cmp};

use crate::entries::Entries;
use crate::entry::EntryKind;
use crate::mark::Held;
use crate::{Txn, copies, entries};
use node_tree::Node;
use xs_base::NoMemory;
use xs_path::Path;

impl Txn {
    /// All marks, in the order of their paths, to be told one after the other. O(1).
    pub fn entries(&self) -> Entries<'_>
        ensures { result ≡ self.now.marks }
    {
        Entries::new(self.map.walk())
    }

    /// The mark at a place in the order of the paths: its path, its kind, whether others changed the path, and the node
    /// that it was given, or else the one that stood there before others changed it. None behind the last mark. Costs
    /// O(chunks of the map); to go over all marks, ask [`Txn::entries`].
    pub fn entry(&self, place: usize) -> Option<(&Path, EntryKind, bool, Option<&Node>)>
        ensures { option_map entry_at result ≡ option_map entry_of (slice_get self.now.marks place) }
    {
        let entry = entries::at(self.map.parts(), place)?;
        Some(entries::tell(entry))
    }

    /// Gives a path the mark that is told so, in place of the one that it has. A node that this kind of mark does not
    /// keep is let go. Refused for want of memory, the marks are as before. Costs O(log marks) comparisons of paths.
    pub fn restore(
        &mut self,
        path: Path,
        kind: EntryKind,
        changed: bool,
        node: Option<Node>,
    ) -> Result<(), NoMemory>
        requires { FitsKind kind changed node }
        ensures ok { OnOk result (self.new.marks ≡ put path_cmp path (mark_by kind changed node) self.old.marks) }
        ensures err { OnErr result (self.new.marks ≡ self.old.marks) }
        ensures count { self.new.count ≡ self.old.count }
        ensures kept { self.new.kept ≤ max self.old.kept (most_kept self.old.marks 1) }
        ensures pending { self.new.pending ≡ self.old.pending }
    {
        self.map.reserve(1)?;
        self.map.put(path, Held::told(kind, changed, node));
        Ok(())
    }

    /// So many of its commands wrote something.
    pub fn restore_count(&mut self, count: u32)
        ensures count { self.new.count ≡ count }
        ensures marks { self.new.marks ≡ self.old.marks }
        ensures spare { self.new.spare ≡ self.old.spare }
        ensures kept { self.new.kept ≡ self.old.kept }
        ensures pending { self.new.pending ≡ self.old.pending }
    {
        self.count = count;
    }

    /// A second transaction with the same marks and the same count, which has planned nothing; refused for want of memory.
    /// Costs O(marks * log marks) comparisons of paths, and a copy of each path and node.
    pub fn copy(&self) -> Result<Txn, NoMemory>
        ensures { IfOk result (λ txn. (txn.marks ≡ self.now.marks) × (txn.count ≡ self.now.count)) }
    {
        Ok(Txn {
            map: copies::copied(self.alloc, self.map.parts())?,
            count: self.count,
            pending: Vec::new(self.alloc),
            alloc: self.alloc,
        })
    }
}
