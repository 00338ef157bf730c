//! Comparisons of two numbers.

/// How two numbers compare.
#[derive(Clone, Copy, PartialEq, Eq)]
pub enum Comparison {
    /// The numbers are the same.
    Equal,
    /// They are not.
    Unequal,
    /// The first is less than the second.
    Less,
    /// The second is less than the first.
    Greater,
    /// The first is at most the second.
    AtMost,
    /// The second is at most the first.
    AtLeast,
}
