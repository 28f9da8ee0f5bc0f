//! What a daemon answers.

/// Which ring connection a request made or removed.
#[derive(Clone, Copy, Debug, PartialEq, Eq)]
pub enum Door {
    /// None.
    Same,
    /// It made the one of this domain.
    Opened(u16),
    /// It removed the one of this domain.
    Closed(u16),
}

/// What comes of a request.
#[derive(Clone, Copy, Debug, PartialEq, Eq)]
pub enum Submit {
    /// It was applied, and what it is answered joined the unsent bytes.
    Done(Door),
    /// Its connection has so many unsent bytes, 32768 or more. Nothing changed.
    Held { unsent: usize },
    /// After it this connection would have more than 16777216 unsent bytes; it is the least such id. Nothing
    /// changed.
    Crowded { conn: u32 },
    /// Its connection is not there. Nothing changed.
    Gone,
}

/// What comes of a pull of unsent bytes.
#[derive(Clone, Copy, Debug, PartialEq, Eq)]
pub enum Pull {
    /// So many bytes were moved, one or more.
    Got(usize),
    /// No byte is unsent.
    Nothing,
    /// The connection is not there.
    Gone,
}
