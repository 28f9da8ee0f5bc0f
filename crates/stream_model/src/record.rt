//! The plain types of a record that the definitions and the code both name.

/// One permission entry of a node as a stream has it: no value is refused here.
#[derive(Clone, Copy, Debug, PartialEq, Eq)]
pub struct RawPerm {
    /// The letter, as a byte.
    pub letter: u8,
    /// The flags; 1 stands for a stale entry.
    pub flags: u8,
    /// The domain that the entry names.
    pub domid: u16,
}

/// What a record is of, by the names of `xenstore-migration.md`.
#[derive(Clone, Copy, Debug, PartialEq, Eq)]
pub enum RecordType {
    /// END, type 0.
    End,
    /// GLOBAL_DATA, type 1.
    Global,
    /// CONNECTION_DATA, type 2.
    Connection,
    /// WATCH_DATA, type 3.
    Watch,
    /// TRANSACTION_DATA, type 4.
    Transaction,
    /// NODE_DATA, type 5.
    Node,
}
