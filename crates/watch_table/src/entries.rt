//! What is kept of watches, by their keys.

ghost use Rattle.std.specs.Prelude.{◌≡◌, ◌≤◌, ◌++◌, ◌∷◌, [], false, not, filter, is_some, IfOk, OnOk, OnErr};
ghost use Rattle.std.specs.List.{list_any};
ghost use Rattle.std.specs.Str.{bytes_eq};
ghost use Rattle.xs_model.specs.Requests.{ok_value};
ghost use Rattle.xs_model.specs.Paths.{path_of};
ghost use Rattle.xs_model.specs.Watches.{reaches_watched};

use crate::NoMemory;
use indexmap::IndexMap;
use std::alloc::Global;
use xs_path::{Path, PathFault};

/// What is kept of a watch beside its path and its token.
#[derive(Drop)]
pub struct Kept {
    pub domid: u16,
    /// The node that the watch is on; a watch on a special path is on none.
    pub watched: Option<Path>,
}

/// Watches by their keys, in the order in which they were made.
pub type Entries = IndexMap<Vec<u8>, Kept>;

impl Kept {
    /// Whether an event at a path is for this watch: an exact one if the watch is on that node, any other also if it is
    /// on a node above it. O(bytes of the path).
    pub fn is_reached(&self, path: &Path, exact: bool) -> bool
        ensures { result ≡ reaches_watched (record { path = path.now; exact = exact }) self.now.watched }
    {
        match &self.watched {
            Some(watched) if exact => watched == path,
            Some(watched) => path.is_below(watched),
            None => false,
        }
    }
}

/// The node that a watch is on: that of its path as a path of the domain, if it is one. O(bytes).
pub fn watched_by(alloc: Global, wpath: &[u8], domid: u16) -> Result<Option<Path>, NoMemory>
    requires { domid ≤ 32751 }
    ensures { IfOk result (λ watched. watched ≡ ok_value (path_of wpath.now domid)) }
{
    match Path::read(alloc, wpath, domid) {
        Ok(path) => Ok(Some(path)),
        Err(PathFault::NoMemory) => Err(NoMemory),
        Err(_) => Ok(None),
    }
}

/// Adds a watch behind all others. Refused, nothing has changed. O(bytes of its key) on average.
pub fn add_to(entries: &mut Entries, key: Vec<u8>, kept: Kept) -> Result<(), NoMemory>
    requires { list_any (λ e. bytes_eq key.items e.0.items) entries.old.entries ≡ false }
    ensures ok { OnOk result (entries.new.entries ≡ entries.old.entries ++ (key, kept) ∷ []) }
    ensures err { OnErr result (entries.new.entries ≡ entries.old.entries) }
{
    entries.insert(key, kept)?;
    Ok(())
}

/// Takes the watch of a key out, if there is one. The others keep their order. It takes no memory. O(bytes of the key) on
/// average to find it, and it moves those behind it.
pub fn take_from(entries: &mut Entries, key: &[u8]) -> Option<Kept>
    ensures found { is_some result ≡ list_any (λ e. bytes_eq key.now e.0.items) entries.old.entries }
    ensures after { entries.new.entries ≡ filter (λ e. not (bytes_eq key.now e.0.items)) entries.old.entries }
{
    // The length says that no two watches have one key.
    let _len = entries.len();
    entries.shift_remove(key)
}
