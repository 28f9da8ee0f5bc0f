//! What an end of a ring knows.

use crate::index::BadIndex;

/// Whose a view is.
pub enum Role {
    /// The one view of a new ring, before it is cut in two.
    Fresh,
    /// The end that puts bytes.
    Producer,
    /// The end that takes bytes.
    Consumer,
    /// The views of both ends, once the ring is closed.
    Closed,
    /// What is left of a view that was joined to another.
    Spent,
    /// What a closed view was cut into: one goes with the ring, the other is kept.
    Kept,
}

/// What an end of a ring did and found. It is proof data: no value of it is made, a field is a number without
/// bounds, and an array is a list of any length.
pub struct View {
    pub role: Role,
    /// The index of the first byte.
    pub start: u64,
    /// Of a producer: the bytes that its stores of PROD have given over.
    pub sent: [u8; 0],
    /// Of a producer: the bytes that it stored since its last store of PROD.
    pub staged: [u8; 0],
    /// Of a producer: the values stored into NOTE, each with the length of `sent` then.
    pub notes: [(u64, u64); 0],
    /// Of a consumer: the bytes that it loaded.
    pub read: [u8; 0],
    /// Of a consumer: the length of `read` at its last store of CONS, 0 before any.
    pub freed: u64,
    /// Of a producer: how many freed bytes it saw last. Of a consumer: how many sent bytes it saw last.
    pub seen: u64,
    /// Of a consumer: what its last load of NOTE found, 0 before any.
    pub heard: u64,
    /// Of a consumer: what `heard` was at its last load of PROD, 0 before any.
    pub whole: u64,
    /// How often it loaded the other end's index or NOTE.
    pub looks: u64,
    /// Whether it poked an index.
    pub poked: bool,
    /// Of a producer: whether a load of CONS found fewer free bytes than it had seen before.
    pub short: bool,
    /// Of a producer: the indices at its first load that found bad ones.
    pub bad_put: Option<BadIndex>,
    /// Of a consumer: the indices at its first load that found bad ones.
    pub bad_take: Option<BadIndex>,
}
