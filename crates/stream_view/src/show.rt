//! Writes the lines of a stream.

ghost use Rattle.std.specs.Prelude.{◌≡◌, ◌<◌, ◌++◌, [], length, true, false, OnOk};
ghost use Rattle.std.specs.Io.KnownBytes.{Appends};
ghost use Rattle.xs_base.specs.Faults.{NeverFalls, Rose};
ghost use Rattle.stream_model.specs.View.{record_line, lines_from, view_text};
ghost use Rattle.mig_records.specs.RecordView.{record_of};
ghost use Rattle.program_io.specs.Ends.{AppendsFront};
ghost use Rattle.stream_view.specs.declared.show.ShowFault.TheVariants.{NoMemory as no_memory, WriteFault as write_fault};

use crate::lines::push_line;
use mig_records::{Reader, Record};
use program_io::{write_all, write_if_many};
use std::alloc::Global;
use xs_base::{Bytes, Failed, NoMemory, Sink};

/// Why not all lines were written.
#[derive(Clone, Copy, Debug, PartialEq, Eq)]
pub enum ShowFault {
    /// The sink failed.
    WriteFault,
    /// No memory was found for a line.
    NoMemory,
}

impl From<NoMemory> for ShowFault {
    ghost from_gives = { λ _ e. e ≡ no_memory };

    fn from(_error: NoMemory) -> ShowFault {
        ShowFault::NoMemory
    }
}

impl From<Failed> for ShowFault {
    ghost from_gives = { λ _ e. e ≡ write_fault };

    fn from(_error: Failed) -> ShowFault {
        ShowFault::WriteFault
    }
}

// Appends the line of a record, which is done with.
fn push_item(lines: &mut Bytes, at: usize, item: Record) -> Result<(), NoMemory>
    ensures { OnOk result (lines.new ≡ lines.old ++ record_line at (record_of item)) }
{
    push_line(lines, at, &item)
}

// Appends the line of a reader's next record, and says whether one was left. What is appended and what is still to come
// are the same lines as before.
#[tactic(auto, using(crate::proofs::ShowLemmas::next_line))]
fn push_next(alloc: Global, reader: &mut Reader, lines: &mut Bytes) -> Result<bool, NoMemory>
    ensures same { OnOk result (lines.new ++ lines_from reader.new.at reader.new.bytes reader.new.records
        ≡ lines.old ++ lines_from reader.old.at reader.old.bytes reader.old.records) }
    ensures fewer { result ≡ Ok true → length reader.new.records < length reader.old.records }
    ensures none { result ≡ Ok false → reader.new.records ≡ [] }
{
    let at = reader.place();
    let Some(item) = reader.next(alloc)? else {
        return Ok(false);
    };
    push_item(lines, at, item)?;
    Ok(true)
}

/// Writes the line of a stream's header and the line of each of its records, through one buffer, from a reader that has
/// handed on none. One record is in memory at a time. Refused, a front of the lines was written. O(length of the
/// lines).
pub fn write_lines<K: Sink>(alloc: Global, mut reader: Reader, out: &mut K) -> Result<(), ShowFault>
    requires { reader.at ≡ 16 }
    ensures ok { OnOk result (Appends (K.written out.old) (K.written out.new) (view_text reader.entry.bytes reader.entry.records)) }
    ensures front { AppendsFront (K.written out.old) (K.written out.new) (view_text reader.entry.bytes reader.entry.records) }
    ensures failed { result ≡ Err ShowFault.WriteFault → Rose (K.faults out.old) (K.faults out.new) }
    ensures counts { NeverFalls (K.faults out.old) (K.faults out.new) }
{
    let mut lines = Bytes::copy(alloc, b"0 header version 1\n")?;
    loop {
        if !push_next(alloc, &mut reader, &mut lines)? {
            break;
        }
        write_if_many(&mut lines, out)?;
    }
    write_all(out, lines.as_slice())?;
    Ok(())
}
