//! Shows a migration stream as lines that a person can read.
//!
//! [`view`] is the whole program but for its ends: the words that it was called with, a source of bytes and a sink.
//! Its contract is the theorem of the program.
#![tactic(auto)]

mod form;
mod lines;
mod show;
mod status;

ghost use Rattle.std.specs.Prelude.{◌≡◌, ◌⊎◌, ◌↔◌, ◌<◌, None, IsSome, IfSome, IsTrue, List, ℕ, map, length, string_bytes};
ghost use Rattle.std.specs.Io.KnownBytes.{Appends, Keeps, IsAtEnd};
ghost use Rattle.xs_base.specs.Faults.{NeverFalls, Rose};
ghost use Rattle.stream_model.specs.declared.fault.StreamFault.{StreamFault as Fault};
ghost use Rattle.program_io.specs.Ends.{AppendsFront, input_limit};
ghost use Rattle.stream_view.specs.Shown.{form_of, Shows, IsNoHex, IsNoStream};
ghost use Rattle.stream_view.specs.Statuses.{is_before_lines};

use crate::form::{FormFault, bytes_given, form_of};
use crate::show::{ShowFault, write_lines};
use mig_records::Reader;
use program_io::{InputFault, read_all};
pub use status::ViewStatus;
use std::alloc::Global;
use xs_base::{Sink, Source};

/// Runs the program by its words, which do not include its name. The forms are `raw`, where the source is a
/// migration stream, and `hex`, where it is one in hexadecimal digits, with spaces and line feeds between them. What
/// is written is a line for the stream's header and one for each of its records.
///
/// Where a source or a sink does not tell its bytes, nothing is said of them.
pub fn view<S: Source, K: Sink>(
    alloc: Global,
    words: &[String],
    src: &mut S,
    out: &mut K,
) -> ViewStatus
    // The source was read to its end, it gave a stream, and the lines of that stream were written.
    ensures done { result ≡ ViewStatus.Done → IfSome (S.left src.old) (λ input. (lines : List ℕ)
        × Shows (map string_bytes words.now) input lines × Appends (K.written out.old) (K.written out.new) lines) }
    ensures done_at_end { result ≡ ViewStatus.Done → IsAtEnd (S.left src.new) }

    // When each other status comes; want of memory is free.
    ensures usage { (result ≡ ViewStatus.Usage) ↔ (form_of (map string_bytes words.now) ≡ None) }
    ensures too_long { result ≡ ViewStatus.TooLong → IfSome (S.left src.old) (λ input. input_limit < length input) }
    ensures read_fault { result ≡ ViewStatus.ReadFault → Rose (S.faults src.old) (S.faults src.new) }
    ensures hex { result ≡ ViewStatus.Hex → IfSome (S.left src.old) (IsNoHex (map string_bytes words.now)) }
    ensures stream { (fault : Fault) → result ≡ ViewStatus.Stream fault
        → IfSome (S.left src.old) (λ input. IsNoStream (map string_bytes words.now) input fault) }
    ensures write_fault { result ≡ ViewStatus.WriteFault → Rose (K.faults out.old) (K.faults out.new) }
    ensures write_fault_of_stream { result ≡ ViewStatus.WriteFault → IfSome (S.left src.old) (λ input. (lines : List ℕ)
        × Shows (map string_bytes words.now) input lines) }

    // What was written, whatever the status: a front of the lines, and nothing where the input was at fault.
    ensures front { IfSome (S.left src.old) (λ input. (lines : List ℕ) → Shows (map string_bytes words.now) input lines
        → AppendsFront (K.written out.old) (K.written out.new) lines) }
    ensures nothing { IsTrue (is_before_lines result) → Keeps (K.written out.old) (K.written out.new) }

    // Where the input has no lines nothing was written, whatever the status.
    ensures no_lines { IfSome (S.left src.old) (λ input. ((lines : List ℕ) → Shows (map string_bytes words.now) input lines → ⊥)
        → Keeps (K.written out.old) (K.written out.new)) }

    // A stream, and ends that did not fail, give Done or want of memory.
    ensures complete { IsSome (S.left src.old) → IfSome (S.left src.old) (λ input. (lines : List ℕ)
        × Shows (map string_bytes words.now) input lines) → (Rose (S.faults src.old) (S.faults src.new) → ⊥)
        → (Rose (K.faults out.old) (K.faults out.new) → ⊥) → (result ≡ ViewStatus.Done) ⊎ (result ≡ ViewStatus.NoMemory) }

    ensures source_counts { NeverFalls (S.faults src.old) (S.faults src.new) }
    ensures sink_counts { NeverFalls (K.faults out.old) (K.faults out.new) }
{
    let Some(form) = form_of(words) else {
        return ViewStatus::Usage;
    };
    let input = match read_all(alloc, src) {
        Ok(input) => input,
        Err(InputFault::TooLong) => return ViewStatus::TooLong,
        Err(InputFault::ReadFault) => return ViewStatus::ReadFault,
        Err(InputFault::NoMemory) => return ViewStatus::NoMemory,
    };
    let bytes = match bytes_given(alloc, form, input) {
        Ok(bytes) => bytes,
        Err(FormFault::NotSpelled) => return ViewStatus::Hex,
        Err(FormFault::NoMemory) => return ViewStatus::NoMemory,
    };
    let reader = match Reader::new(bytes.as_slice()) {
        Ok(reader) => reader,
        Err(fault) => return ViewStatus::Stream(fault),
    };
    match write_lines(alloc, reader, out) {
        Ok(()) => ViewStatus::Done,
        Err(ShowFault::WriteFault) => ViewStatus::WriteFault,
        Err(ShowFault::NoMemory) => ViewStatus::NoMemory,
    }
}
