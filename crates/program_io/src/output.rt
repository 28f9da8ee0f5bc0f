//! Writes texts, whole or through a buffer.

ghost use Rattle.std.specs.Prelude.{◌≡◌, ◌<◌, length, OnOk, OnErr};
ghost use Rattle.std.specs.Io.KnownBytes.{Appends};
ghost use Rattle.xs_base.specs.Faults.{NeverFalls, Rose};
ghost use Rattle.program_io.specs.Ends.{AppendsBut, AppendsFront, buffer_limit};

use xs_base::{Bytes, Failed, Sink};

/// Appends a text to a sink. Refused, a front of it was appended. O(length of the text).
#[tactic(auto, using(crate::proofs::EndLemmas::appends_more))]
pub fn write_all<K: Sink>(out: &mut K, text: &[u8]) -> Result<(), Failed>
    ensures ok { OnOk result (Appends (K.written out.old) (K.written out.new) text.now) }
    ensures front { AppendsFront (K.written out.old) (K.written out.new) text.now }
    ensures failed { OnErr result (Rose (K.faults out.old) (K.faults out.new)) }
    ensures counts { NeverFalls (K.faults out.old) (K.faults out.new) }
{
    let mut done = 0;
    while done < text.len() {
        done += out.write(&text[done..])?;
    }
    Ok(())
}

/// From so many bytes of lines on they are written.
const BUFFER: usize = 16_384;

/// Writes lines where they have become many, and empties the list of them, which keeps its memory. Refused, a front
/// of them was written, and the list is as before. O(length of the lines) where they are written.
pub fn write_if_many<K: Sink>(lines: &mut Bytes, out: &mut K) -> Result<(), Failed>
    ensures ok { OnOk result (AppendsBut (K.written out.old) (K.written out.new) lines.old lines.new) }
    ensures few { OnOk result (length lines.new < buffer_limit) }
    ensures err { OnErr result (lines.new ≡ lines.old) }
    ensures front { AppendsFront (K.written out.old) (K.written out.new) lines.old }
    ensures failed { OnErr result (Rose (K.faults out.old) (K.faults out.new)) }
    ensures counts { NeverFalls (K.faults out.old) (K.faults out.new) }
{
    if lines.len() >= BUFFER {
        write_all(out, lines.as_slice())?;
        lines.clear();
    }
    Ok(())
}
