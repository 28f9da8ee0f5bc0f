//! A made script is written.

ghost use Rattle.std.specs.Prelude.{◌≡◌, Err, OnOk};
ghost use Rattle.std.specs.Io.KnownBytes.{Appends};
ghost use Rattle.xs_base.specs.Faults.{NeverFalls, Rose};
ghost use Rattle.program_io.specs.Ends.{AppendsFront};
ghost use Rattle.guest_script.specs.Made.{made_script};

use crate::play::PlayFault;
use guest_script::make;
use program_io::write_all;
use std::alloc::Global;
use xs_base::Sink;

/// Writes the script of a seed with so many operations. Refused, a front of it was written.
pub fn write_made<K: Sink>(
    alloc: Global,
    seed: u64,
    count: u32,
    out: &mut K,
) -> Result<(), PlayFault>
    ensures ok { OnOk result (Appends (K.written out.old) (K.written out.new) (made_script seed count)) }
    ensures front { AppendsFront (K.written out.old) (K.written out.new) (made_script seed count) }
    ensures failed { result ≡ Err PlayFault.WriteFault → Rose (K.faults out.old) (K.faults out.new) }
    ensures counts { NeverFalls (K.faults out.old) (K.faults out.new) }
{
    let text = make(alloc, seed, count)?;
    write_all(out, text.as_slice())?;
    Ok(())
}
