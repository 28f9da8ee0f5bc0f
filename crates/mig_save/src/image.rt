//! The whole image.

ghost use Rattle.std.specs.Prelude.{◌≡◌, ◌≤◌, ◌++◌, IfOk, OnOk, length};
ghost use Rattle.std.specs.List.{AllByRecursion};
ghost use Rattle.stream_model.specs.Spelling.{canonical_record};
ghost use Rattle.kept_model.specs.Sound.{IsSound};
ghost use Rattle.kept_model.specs.Images.{globals_record, image};
ghost use Rattle.store_parts.specs.Kept.{kept_lent};
ghost use Rattle.store_parts.specs.States.{state_of};

use crate::connections::write_connections;
use crate::marks::write_marks;
use crate::nodes::write_nodes;
use crate::scratch::Scratch;
use crate::sizes::{add_connections, add_marks, add_nodes, add_transactions, add_watches};
use crate::transactions::write_transactions;
use crate::watches::write_watches;
use daemon::Daemon;
use mig_records::{write_end, write_global, write_header};
use msg_reassembly::Ins;
use std::alloc::Global;
use store_parts::{Globals, PartsRef};
use xs_base::{Bytes, NoMemory};

/// The bytes of the header, of the record of the whole store and of END.
const FRAME: usize = 40;

/// Appends the record of the whole store.
fn write_globals(out: &mut Bytes, globals: Globals) -> Result<(), NoMemory>
    ensures { OnOk result (out.new ≡ out.old ++ canonical_record (globals_record globals)) }
{
    write_global(out, globals.rw_socket_fd, globals.evtchn_fd)
}

/// How many bytes the image of a store has. O(nodes, watches and marks), and the look-ups of [`image_of`].
fn image_len(parts: &PartsRef<'_>, ins: &Ins) -> Result<usize, NoMemory>
    requires sound { IsSound (state_of (kept_lent parts.now) ins.now.entries) }
    ensures { IfOk result (λ n. n ≡ length (image (state_of (kept_lent parts.now) ins.now.entries))) }
{
    let conns = add_connections(FRAME, parts.conns, parts.rows, ins)?;
    let watches = add_watches(conns, parts.conns, parts.watchers)?;
    let transactions = add_transactions(watches, parts.conns, parts.rows)?;
    let nodes = add_nodes(transactions, parts.tree)?;
    add_marks(nodes, parts.conns, parts.rows, parts.tree)
}

/// The image of a store: the one stream that tells its state, with the bytes that were read from its connections and are
/// not answered yet.
///
/// Its bytes are counted first, so that it is written once, into memory that is taken at once. It is refused for want of
/// memory alone. O(bytes of the image), O(log connections) a connection, and O(log nodes) comparisons of paths for each
/// path that a transaction looked at and nobody changed.
pub fn image_of(alloc: Global, parts: &PartsRef<'_>, ins: &Ins) -> Result<Bytes, NoMemory>
    requires sound { IsSound (state_of (kept_lent parts.now) ins.now.entries) }
    ensures { IfOk result (λ bytes. bytes ≡ image (state_of (kept_lent parts.now) ins.now.entries)) }
{
    let len = image_len(parts, ins)?;
    let mut out = Bytes::from_vec(Vec::with_capacity(alloc, len)?);
    let mut scratch = Scratch::new(alloc);
    write_header(&mut out)?;
    write_globals(&mut out, parts.globals)?;
    write_connections(&mut out, parts.conns, parts.rows, ins)?;
    write_watches(&mut out, &mut scratch, parts.conns, parts.watchers)?;
    write_transactions(&mut out, parts.conns, parts.rows)?;
    write_nodes(&mut out, &mut scratch, parts.tree)?;
    write_marks(&mut out, &mut scratch, parts.conns, parts.rows, parts.tree)?;
    write_end(&mut out)?;
    Ok(out)
}

/// The image of a running store, which goes on. It is refused for want of memory alone, and costs what [`image_of`] does.
pub fn save(alloc: Global, daemon: &Daemon, ins: &Ins) -> Result<Bytes, NoMemory>
    requires inboxes { AllByRecursion (λ e. length e.1 ≤ 16777216) ins.now.entries }
    ensures { IfOk result (λ bytes. bytes ≡ image (state_of daemon.now ins.now.entries)) }
{
    daemon.is_sound();
    let parts = daemon.parts();
    image_of(alloc, &parts, ins)
}
