//! How numbers and bytes stand in a text: decimal digits and hexadecimal digits.
//!
//! The definitions are in `specs/`. The two faults are declared here, since both the definitions and
//! the readers in the crates above name them.
#![tactic(auto)]

use thiserror::Error;

/// Why a text is no decimal number within a bound. This project's own.
#[derive(Clone, Copy, Debug, PartialEq, Eq, Error)]
pub enum NumFault {
    /// There is no byte.
    #[error("no digit")]
    Empty,
    /// The first byte that is no ASCII digit stands at this place, counted from 0.
    #[error("no digit at byte {at}")]
    BadDigit { at: usize },
    /// There are more than 20 digits, or the number is above the bound.
    #[error("the number is too large")]
    TooLarge,
}

/// Why a text is no row of bytes in hexadecimal. This project's own.
#[derive(Clone, Copy, Debug, PartialEq, Eq, Error)]
pub enum HexFault {
    /// The first byte that is no hexadecimal digit stands at this place, counted from 0.
    #[error("no hexadecimal digit at byte {at}")]
    BadDigit { at: usize },
    /// The number of digits is odd.
    #[error("an odd number of digits")]
    Odd,
    /// No memory was found for the bytes.
    #[error("out of memory")]
    NoMemory,
}
