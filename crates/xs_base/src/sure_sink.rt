//! A sink that never fails.
ghost use Rattle.std.specs.Prelude.{◌≡◌, [], Some};
ghost use Rattle.std.specs.List.{concat};

use crate::told::Told;
use crate::{Failed, Sink};

/// Takes every byte and drops it. The bytes written are proof data.
#[derive(Debug, Drop)]
pub struct SureSink {
    told: Told,
}

impl SureSink {
    /// A sink to which nothing was written.
    pub fn new() -> SureSink
        ensures { ⟦<SureSink as Sink>⟧.written result ≡ Some [] }
    {
        SureSink { told: Told::new() }
    }
}

impl Sink for SureSink {
    ghost written = { λ sink. Some (concat sink.told.strings) };

    ghost faults = { λ _. 0 };

    /// Takes the whole piece.
    fn write(&mut self, piece: &[u8]) -> Result<usize, Failed> {
        self.told.note(piece);
        Ok(piece.len())
    }
}
