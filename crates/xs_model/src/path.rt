//! Faults of paths.

use thiserror::Error;

/// Why bytes are no path: the first fault, in the order of the variants, where the two at a place
/// stand side by side and the leftmost place counts. Places are counted from 0.
#[derive(Clone, Copy, Debug, PartialEq, Eq, Error)]
pub enum PathFault {
    /// There is no byte.
    #[error("the path is empty")]
    Empty,
    /// An absolute path has more than 3072 bytes, or a relative one more than 2048.
    #[error("the path has {len} bytes, which is too long")]
    TooLong { len: usize },
    /// A byte that no path has, or `@` as the first byte.
    #[error("no byte of a path at {at}")]
    BadByte { at: usize },
    /// The second of two slashes.
    #[error("two slashes, the second at {at}")]
    DoubleSlash { at: usize },
    /// A last slash in any path but `/`.
    #[error("the path ends in a slash")]
    TrailingSlash,
    /// No memory was found for the path.
    #[error("out of memory")]
    NoMemory,
}
