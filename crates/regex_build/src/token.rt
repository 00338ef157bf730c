//! Tokens of expressions.

/// A token.
#[derive(Clone, Copy, PartialEq, Eq)]
pub(crate) enum Token {
    Bar,
    Star,
    Plus,
    Optional,
    Dot,
    Opening,
    Closing,
    Bracket,
    Comma,
    Unbracket,
    /// A digit that is in no brackets.
    Digit(u8),
    /// A number in brackets. One further than 2^32 - 1 from 0 is kept as one at that distance.
    Number(i64),
    /// A byte that begins no token.
    Other,
}
