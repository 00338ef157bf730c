//! Which digit of a number is read first.

/// The order in which the digits of a number are in a word.
#[derive(Clone, Copy, Debug, PartialEq, Eq)]
pub enum Direction {
    /// The most significant digit first.
    Msd,
    /// The least significant digit first.
    Lsd,
}
