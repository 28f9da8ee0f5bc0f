//! What came of a command.

use wire_codec::WireErr;
use xs_base::Bytes;
use xs_path::Paths;

/// What came of a command.
#[derive(Debug, Drop)]
pub struct Did {
    /// The payload of the reply, at most 4096 bytes, or the error that refuses the command.
    pub reply: Result<Bytes, WireErr>,
    /// The paths that it looked at, whatever the answer, rising: the nearest present one at or above the command's
    /// path, and the absent ones from there down to that.
    pub touched: Paths,
    /// The paths that it created, set or removed, rising.
    pub written: Paths,
}
