//! A hold point for tests.

/// A hold point for tests: the code that calls it goes on when the gate returns.
pub trait Gate {
    /// Comes once before each request of this connection is handed to the store.
    fn before_submit(&self, conn: u32);

    /// Comes once before this domain first puts bytes of a line.
    fn before_put(&self, domid: u16);
}

/// The gate of the programs, which holds nothing.
#[derive(Clone, Copy, Debug)]
pub struct OpenGate;

impl Gate for OpenGate {
    fn before_submit(&self, _conn: u32) {}

    fn before_put(&self, _domid: u16) {}
}
