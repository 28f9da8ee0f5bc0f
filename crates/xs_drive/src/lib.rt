//! Plays a script of guest writes, guest reads, server turns and handovers, and writes what every guest received; or makes
//! such a script from a seed, and counts what comes of it.
//!
//! [`drive`] is the whole program but for its ends: the words that it was called with, a source of bytes, a sink
//! and a vault. Its contract is the theorem of the program.
#![tactic(auto)]

mod counting;
mod form;
mod making;
mod play;
mod run;
mod start;
mod status;

ghost use Rattle.std.specs.Prelude.{◌≡◌, ◌⊎◌, ◌↔◌, ◌<◌, ℕ, Some, None, IsSome, IfSome, IsTrue, map, length, string_bytes};
ghost use Rattle.std.specs.Io.KnownBytes.{IsAtEnd, Keeps};
ghost use Rattle.xs_base.specs.Faults.{NeverFalls, Rose};
ghost use Rattle.world_model.specs.declared.LineKind.{LineKind};
ghost use Rattle.program_io.specs.Ends.{ConsumesFront, input_limit};
ghost use Rattle.xs_drive.specs.Ends.{IsFaulty, IsPlayable, IsRefused};
ghost use Rattle.xs_drive.specs.Forms.{form_of};
ghost use Rattle.xs_drive.specs.Statuses.{is_before_run};
ghost use Rattle.xs_drive.specs.Works.{Finishes, Starves, Stops};

use crate::counting::write_counts;
use crate::form::{Form, form_of};
use crate::making::write_made;
use crate::play::PlayFault;
use crate::run::run;
pub use kept_model::LoadFault;
pub use status::Status;
use std::alloc::Global;
pub use world_model::LineKind;
use xs_base::{Sink, Source, Vault};

/// Runs the program by its words, which do not include its name.
///
/// - `run`: the source is a script, and what is written is its transcript, a line an event. Each handover goes through the
///   vault. O(length of the script and of the transcript, and what the store does), in memory for the script and the store
///   alone: the transcript goes through one buffer. A handover costs what an image of the store does.
/// - `make SEED N`: what is written is the made script of this seed with so many operations, 1 to 20000.
/// - `bulk SEED N`: that script is played, with its handovers, and five counts of what came of it are written.
///
/// Where a source or a sink does not tell its bytes, nothing is said of them, and of a vault only what it tells.
pub fn drive<S: Source, K: Sink, V: Vault>(
    alloc: Global,
    words: &[String],
    src: &mut S,
    out: &mut K,
    vault: &mut V,
) -> Status
    // What was written where the work is done, where the sink failed, and where no memory was found.
    ensures done { result ≡ Status.Done → Finishes (form_of (map string_bytes words.now)) (S.left src.old) (K.written out.old) (K.written out.new) (record { puts = V.puts vault.old; gets = V.gets vault.old; faults = V.faults vault.old; honest = V.honest vault.old })
        (record { puts = V.puts vault.new; gets = V.gets vault.new; faults = V.faults vault.new; honest = V.honest vault.new }) }
    ensures stopped { result ≡ Status.WriteFault → Stops (form_of (map string_bytes words.now)) (S.left src.old) (K.written out.old) (K.written out.new) (record { puts = V.puts vault.old; gets = V.gets vault.old; faults = V.faults vault.old; honest = V.honest vault.old })
        (record { puts = V.puts vault.new; gets = V.gets vault.new; faults = V.faults vault.new; honest = V.honest vault.new }) }
    ensures starved { result ≡ Status.NoMemory → Starves (form_of (map string_bytes words.now)) (S.left src.old) (K.written out.old) (K.written out.new) (record { puts = V.puts vault.old; gets = V.gets vault.old; faults = V.faults vault.old; honest = V.honest vault.old })
        (record { puts = V.puts vault.new; gets = V.gets vault.new; faults = V.faults vault.new; honest = V.honest vault.new }) }
    ensures done_at_end { form_of (map string_bytes words.now) ≡ Some Form.Run → result ≡ Status.Done → IsAtEnd (S.left src.new) }

    // When each other status comes; want of memory is free.
    ensures usage { (result ≡ Status.Usage) ↔ (form_of (map string_bytes words.now) ≡ None) }
    ensures too_long { result ≡ Status.TooLong → (form_of (map string_bytes words.now) ≡ Some Form.Run) × IfSome (S.left src.old) (λ text. input_limit < length text) }
    ensures read_fault { result ≡ Status.ReadFault → (form_of (map string_bytes words.now) ≡ Some Form.Run) × Rose (S.faults src.old) (S.faults src.new) }
    ensures script { (line : ℕ) (kind : LineKind) → result ≡ Status.Script line kind → (form_of (map string_bytes words.now) ≡ Some Form.Run) × IfSome (S.left src.old) (λ text. IsFaulty text line kind) }
    ensures load { (fault : LoadFault) → result ≡ Status.Load fault → (form_of (map string_bytes words.now) ≡ Some Form.Run) × IfSome (S.left src.old) (λ text. IsRefused text fault) }
    ensures write_fault { result ≡ Status.WriteFault → Rose (K.faults out.old) (K.faults out.new) }

    // What is left of the source: all of it where no script is read, and else what stands behind a front.
    ensures unread { (form_of (map string_bytes words.now) ≡ Some Form.Run → ⊥) → src.new ≡ src.old }
    ensures rest { ConsumesFront (S.left src.old) (S.left src.new) }

    // Before the run began nothing was written, and no handover was made.
    ensures nothing { IsTrue (is_before_run result) → Keeps (K.written out.old) (K.written out.new) }
    ensures vault { IsTrue (is_before_run result) → vault.new ≡ vault.old }

    // A script, and ends that did not fail, give Done or want of memory.
    ensures complete { form_of (map string_bytes words.now) ≡ Some Form.Run → IfSome (S.left src.old) IsPlayable
        → (Rose (S.faults src.old) (S.faults src.new) → ⊥) → (Rose (K.faults out.old) (K.faults out.new) → ⊥)
        → IsSome (S.left src.old) → (result ≡ Status.Done) ⊎ (result ≡ Status.NoMemory) }

    ensures source_counts { NeverFalls (S.faults src.old) (S.faults src.new) }
    ensures sink_counts { NeverFalls (K.faults out.old) (K.faults out.new) }
    ensures vault_counts { NeverFalls (V.faults vault.old) (V.faults vault.new) }
{
    match form_of(words) {
        None => Status::Usage,
        Some(Form::Run) => run(alloc, src, out, vault),
        Some(Form::Make { seed, count }) => match write_made(alloc, seed, count, out) {
            Ok(()) => Status::Done,
            Err(PlayFault::WriteFault) => Status::WriteFault,
            Err(PlayFault::NoMemory) => Status::NoMemory,
        },
        Some(Form::Bulk { seed, count }) => match write_counts(alloc, seed, count, out, vault) {
            Ok(()) => Status::Done,
            Err(PlayFault::WriteFault) => Status::WriteFault,
            Err(PlayFault::NoMemory) => Status::NoMemory,
        },
    }
}
