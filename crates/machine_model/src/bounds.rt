//! Limits of the store. They are this project's own.

/// So many unsent bytes may a connection have, less one, for a request of it to be taken.
pub const HELD_LIMIT: usize = 32768;

/// So many unsent bytes may any connection have after a request, at the most.
pub const CROWD_LIMIT: usize = 16777216;

/// So many watches may a guest have, at the most.
pub const WATCH_LIMIT: usize = 128;

/// So many transactions may a guest have open, at the most.
pub const GUEST_TRANSACTIONS: usize = 10;

/// So many transactions may a connection of domain 0 have open, at the most.
pub const CONTROL_TRANSACTIONS: usize = 65535;
