//! A script is played.

ghost use Rattle.std.specs.Prelude.{◌≡◌, ◌⊎◌, ◌<◌, ℕ, IsSome, IfSome, IsTrue, length};
ghost use Rattle.std.specs.Io.KnownBytes.{IsAtEnd, Keeps};
ghost use Rattle.xs_base.specs.Faults.{NeverFalls, Rose};
ghost use Rattle.kept_model.specs.declared.fault.LoadFault.{LoadFault};
ghost use Rattle.world_model.specs.declared.LineKind.{LineKind};
ghost use Rattle.program_io.specs.Ends.{ConsumesFront, input_limit};
ghost use Rattle.xs_drive.specs.Ends.{IsFaulty, IsPlayable, IsRefused, PlaysAll, PlaysFront, PlaysFrontOrNone};
ghost use Rattle.xs_drive.specs.Statuses.{is_before_run};

use crate::play::{PlayFault, play};
use crate::start::{StartFault, start};
use crate::status::Status;
use guest_script::{ScriptFault, read_script};
use program_io::{InputFault, read_all};
use std::alloc::Global;
use xs_base::{Sink, Source, Vault};

/// Plays the script that a source has, and writes its transcript. See [`drive`](crate::drive).
#[tactic(auto, using(crate::proofs::SourceLemmas::untouched))]
pub fn run<S: Source, K: Sink, V: Vault>(
    alloc: Global,
    src: &mut S,
    out: &mut K,
    vault: &mut V,
) -> Status
    // The source was read to its end, its bytes are a script, and its transcript was written.
    ensures done { result ≡ Status.Done → IfSome (S.left src.old) (λ text. PlaysAll text (K.written out.old) (K.written out.new)
        (record { puts = V.puts vault.old; gets = V.gets vault.old; faults = V.faults vault.old; honest = V.honest vault.old })
        (record { puts = V.puts vault.new; gets = V.gets vault.new; faults = V.faults vault.new; honest = V.honest vault.new })) }
    ensures done_at_end { result ≡ Status.Done → IsAtEnd (S.left src.new) }

    // Or the sink failed, or no memory was found, and a front of it was written.
    ensures stopped { result ≡ Status.WriteFault → IfSome (S.left src.old) (λ text. PlaysFront text (K.written out.old) (K.written out.new)
        (record { puts = V.puts vault.old; gets = V.gets vault.old; faults = V.faults vault.old; honest = V.honest vault.old })
        (record { puts = V.puts vault.new; gets = V.gets vault.new; faults = V.faults vault.new; honest = V.honest vault.new })) }
    ensures starved { result ≡ Status.NoMemory → IfSome (S.left src.old) (λ text. PlaysFrontOrNone text (K.written out.old) (K.written out.new)
        (record { puts = V.puts vault.old; gets = V.gets vault.old; faults = V.faults vault.old; honest = V.honest vault.old })
        (record { puts = V.puts vault.new; gets = V.gets vault.new; faults = V.faults vault.new; honest = V.honest vault.new })) }

    // It is none of the words' statuses, and when each other comes; want of memory is free.
    ensures no_usage { result ≡ Status.Usage → ⊥ }
    ensures too_long { result ≡ Status.TooLong → IfSome (S.left src.old) (λ text. input_limit < length text) }
    ensures read_fault { result ≡ Status.ReadFault → Rose (S.faults src.old) (S.faults src.new) }
    ensures script { (line : ℕ) (kind : LineKind) → result ≡ Status.Script line kind → IfSome (S.left src.old) (λ text. IsFaulty text line kind) }
    ensures load { (fault : LoadFault) → result ≡ Status.Load fault → IfSome (S.left src.old) (λ text. IsRefused text fault) }
    ensures write_fault { result ≡ Status.WriteFault → Rose (K.faults out.old) (K.faults out.new) }

    // What is left of the source stands behind a front.
    ensures rest { ConsumesFront (S.left src.old) (S.left src.new) }

    // Before the run began nothing was written, and no handover was made.
    ensures nothing { IsTrue (is_before_run result) → Keeps (K.written out.old) (K.written out.new) }
    ensures vault { IsTrue (is_before_run result) → vault.new ≡ vault.old }

    // A script, and ends that did not fail, give Done or want of memory.
    ensures complete { IfSome (S.left src.old) IsPlayable → (Rose (S.faults src.old) (S.faults src.new) → ⊥) → (Rose (K.faults out.old) (K.faults out.new) → ⊥)
        → IsSome (S.left src.old) → (result ≡ Status.Done) ⊎ (result ≡ Status.NoMemory) }

    ensures source_counts { NeverFalls (S.faults src.old) (S.faults src.new) }
    ensures sink_counts { NeverFalls (K.faults out.old) (K.faults out.new) }
    ensures vault_counts { NeverFalls (V.faults vault.old) (V.faults vault.new) }
{
    let text = match read_all(alloc, src) {
        Ok(text) => text,
        Err(InputFault::TooLong) => return Status::TooLong,
        Err(InputFault::ReadFault) => return Status::ReadFault,
        Err(InputFault::NoMemory) => return Status::NoMemory,
    };
    let script = match read_script(alloc, text.as_slice()) {
        Ok(script) => script,
        Err(ScriptFault::Line { line, kind }) => return Status::Script { line, kind },
        Err(ScriptFault::NoMemory) => return Status::NoMemory,
    };
    let world = match start(alloc, &script) {
        Ok(world) => world,
        Err(StartFault::Load(fault)) => return Status::Load { fault },
        Err(StartFault::NoMemory) => return Status::NoMemory,
    };
    match play(alloc, world, &script.events, out, vault) {
        Ok(()) => Status::Done,
        Err(PlayFault::WriteFault) => Status::WriteFault,
        Err(PlayFault::NoMemory) => Status::NoMemory,
    }
}
