//! How a view ends.

use mig_records::StreamFault;

/// The end of a call of `view`. Its number is the program's exit status.
#[derive(Clone, Copy, Debug, PartialEq, Eq)]
pub enum ViewStatus {
    /// The lines of a stream were written.
    Done,
    /// The words are none of the forms.
    Usage,
    /// The form is `hex`, and a byte is no digit, space or line feed, or the digits are odd.
    Hex,
    /// More than 16777216 bytes came.
    TooLong,
    /// The source failed.
    ReadFault,
    /// The sink failed.
    WriteFault,
    /// No memory was found.
    NoMemory,
    /// The bytes are no stream.
    Stream(StreamFault),
}

impl ViewStatus {
    ghost use Rattle.std.specs.Prelude.{◌≡◌};
    ghost use Rattle.stream_view.specs.Statuses.{number_of_status};

    /// The exit status.
    pub fn number(self) -> u8
        ensures { result ≡ number_of_status self }
    {
        match self {
            ViewStatus::Done => 0,
            ViewStatus::Usage => 2,
            ViewStatus::Hex => 3,
            ViewStatus::TooLong => 4,
            ViewStatus::ReadFault => 5,
            ViewStatus::WriteFault => 6,
            ViewStatus::NoMemory => 7,
            ViewStatus::Stream(_) => 8,
        }
    }
}
