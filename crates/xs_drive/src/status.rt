//! How a run ends.

use kept_model::LoadFault;
use world_model::LineKind;

/// The end of a call of `drive`. Its number is the program's exit status.
#[derive(Clone, Copy, Debug, PartialEq, Eq)]
pub enum Status {
    /// The work was done.
    Done,
    /// The words are none of the forms.
    Usage,
    /// The first line with a fault, counted from 1, and its first fault.
    Script { line: usize, kind: LineKind },
    /// More than 16777216 bytes came.
    TooLong,
    /// The source failed.
    ReadFault,
    /// The sink failed.
    WriteFault,
    /// No memory was found.
    NoMemory,
    /// The stream with which the script begins tells no state, and this is its first fault.
    Load { fault: LoadFault },
}

impl Status {
    ghost use Rattle.std.specs.Prelude.{◌≡◌};
    ghost use Rattle.xs_drive.specs.Statuses.{number_of_status};

    /// The exit status.
    pub fn number(self) -> u8
        ensures { result ≡ number_of_status self }
    {
        match self {
            Status::Done => 0,
            Status::Usage => 2,
            Status::Script { .. } => 3,
            Status::TooLong => 4,
            Status::ReadFault => 5,
            Status::WriteFault => 6,
            Status::NoMemory => 7,
            Status::Load { .. } => 8,
        }
    }
}
