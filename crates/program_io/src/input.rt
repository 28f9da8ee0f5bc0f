//! Reads a whole source.

ghost use Rattle.std.specs.Prelude.{◌≡◌, ◌<◌, ◌≤◌, length, IfOk, IfSome, OnOk};
ghost use Rattle.std.specs.Io.KnownBytes.{Consumes, IsAtEnd};
ghost use Rattle.xs_base.specs.Faults.{NeverFalls, Rose};
ghost use Rattle.program_io.specs.Ends.{ConsumesFront, input_limit};

use std::alloc::Global;
use xs_base::{Bytes, Source};

/// The most bytes that an input may have.
pub const INPUT_LIMIT: usize = 16_777_216;

/// Why an input was not read to its end.
#[derive(Clone, Copy, Debug, PartialEq, Eq)]
pub enum InputFault {
    /// It has more than 16777216 bytes.
    TooLong,
    /// The source failed.
    ReadFault,
    /// No memory was found for its bytes.
    NoMemory,
}

/// All bytes that a source has left, if these are no more than 16777216. O(their number), and at most one piece
/// of 16384 bytes behind the limit is asked for. Refused, a front of the bytes is gone.
#[tactic(auto, using(crate::proofs::EndLemmas::consumes_more, crate::proofs::EndLemmas::consumes_kept))]
pub fn read_all<S: Source>(alloc: Global, src: &mut S) -> Result<Bytes, InputFault>
    ensures bytes { IfOk result (λ text. Consumes (S.left src.old) (S.left src.new) text) }
    ensures front { ConsumesFront (S.left src.old) (S.left src.new) }
    ensures end { OnOk result (IsAtEnd (S.left src.new)) }
    ensures short { IfOk result (λ text. length text ≤ input_limit) }
    ensures too_long { result ≡ Err InputFault.TooLong → IfSome (S.left src.old) (λ text. input_limit < length text) }
    ensures read_fault { result ≡ Err InputFault.ReadFault → Rose (S.faults src.old) (S.faults src.new) }
    ensures counts { NeverFalls (S.faults src.old) (S.faults src.new) }
{
    let mut text = Vec::new(alloc);
    let mut piece = [0u8; 16384];
    loop {
        let Ok(count) = src.read(&mut piece) else {
            return Err(InputFault::ReadFault);
        };
        if count == 0 {
            return Ok(Bytes::from_vec(text));
        }
        if text.len() + count > INPUT_LIMIT {
            return Err(InputFault::TooLong);
        }
        if text.extend_from_slice(&piece[..count]).is_err() {
            return Err(InputFault::NoMemory);
        }
    }
}
