//! The records of watches.

ghost use Rattle.std.specs.Prelude.{◌≡◌, ◌≤◌, ◌++◌, length, Some, OnOk, slice_get};
ghost use Rattle.stream_model.specs.Spelling.{canonical_record};
ghost use Rattle.kept_model.specs.Images.{watch_record};
ghost use Rattle.watch_table.specs.Tables.{Made, watch_of, watches_in};
ghost use Rattle.watchers.specs.Watched.{watches_of};
ghost use Rattle.mig_save.specs.Texts.{watches_text, all_watches_text};

use crate::scratch::{Scratch, set_string};
use mig_records::write_watch;
use store_parts::Conns;
use watchers::{Watchers, Watches};
use xs_base::{Bytes, NoMemory};

/// Appends the record of one watch. O(its bytes).
fn write_one(
    out: &mut Bytes,
    scratch: &mut Scratch,
    conn: u32,
    wpath: &[u8],
    token: &[u8],
) -> Result<(), NoMemory>
    requires wpath { length wpath.now ≤ 3072 }
    requires token { length token.now ≤ 1022 }
    ensures { OnOk result (out.new ≡ out.old ++ canonical_record (watch_record conn (watch_of wpath.now token.now))) }
{
    set_string(&mut scratch.path, wpath)?;
    set_string(&mut scratch.token, token)?;
    write_watch(out, conn, scratch.path.as_slice(), scratch.token.as_slice())
}

/// The same, of the watch at a place.
fn write_at(
    out: &mut Bytes,
    scratch: &mut Scratch,
    conn: u32,
    watches: &Watches,
    place: usize,
) -> Result<(), NoMemory>
    ensures { OnOk result ((m : Made) → slice_get watches.now place ≡ Some m → out.new ≡ out.old ++ canonical_record (watch_record conn m.watch)) }
{
    watches.is_made();
    match watches.at(place) {
        Some((wpath, token)) => write_one(out, scratch, conn, wpath, token),
        None => Ok(()),
    }
}

/// Appends the records of a connection's watches. O(their bytes).
fn write_each(
    out: &mut Bytes,
    scratch: &mut Scratch,
    conn: u32,
    watches: &Watches,
) -> Result<(), NoMemory>
    ensures { OnOk result (out.new ≡ out.old ++ watches_text conn (watches_in watches.now)) }
{
    for place in 0..watches.len() {
        write_at(out, scratch, conn, watches, place)?;
    }
    Ok(())
}

/// The same, where it has any.
fn write_of(
    out: &mut Bytes,
    scratch: &mut Scratch,
    conn: u32,
    watchers: &Watchers,
) -> Result<(), NoMemory>
    ensures { OnOk result (out.new ≡ out.old ++ watches_text conn (watches_of conn watchers.now)) }
{
    match watchers.watches(conn) {
        Some(watches) => write_each(out, scratch, conn, watches),
        None => Ok(()),
    }
}

/// Appends the records of the watches of all connections. O(log connections) a connection, and O(their bytes).
pub fn write_watches(
    out: &mut Bytes,
    scratch: &mut Scratch,
    conns: &Conns,
    watchers: &Watchers,
) -> Result<(), NoMemory>
    ensures { OnOk result (out.new ≡ out.old ++ all_watches_text conns.now watchers.now) }
{
    for entry in conns.entries() {
        write_of(out, scratch, entry.0, watchers)?;
    }
    Ok(())
}
