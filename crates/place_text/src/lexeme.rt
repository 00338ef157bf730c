//! What the text of a place is made of.

/// A lexeme of a place.
#[derive(Clone, Copy)]
pub(crate) enum Lexeme {
    /// `[`
    Open,
    /// `]`
    Close,
    /// `,`
    Comma,
    /// A number that fits 32 bits, signed.
    Number(i32),
    /// A number that does not.
    Long,
    /// A `-` without a digit after it.
    Sign,
    /// A byte that begins none of these.
    Other,
}

/// A lexeme, and how many bytes it has.
#[derive(Clone, Copy)]
pub(crate) struct Piece {
    pub lexeme: Lexeme,
    pub len: usize,
}

/// A lexeme with the byte at which it begins, and the byte after it.
#[derive(Clone, Copy)]
pub(crate) struct Spot {
    pub lexeme: Lexeme,
    pub at: usize,
    pub after: usize,
}
