//! What the text of rules is made of.

/// A lexeme of rules.
#[derive(Clone, Copy)]
pub(crate) enum Lexeme {
    /// A digit, or a number in brackets.
    Letter(i32),
    /// A number in brackets that does not fit 32 bits, signed.
    Long,
    /// A bracket without a number, or without a bracket after it.
    Broken,
    /// `->`
    Arrow,
    /// A blank.
    Blank,
    /// A comma.
    Comma,
    /// A byte that begins none of these.
    Other,
}

/// A lexeme, and how many bytes it has.
#[derive(Clone, Copy)]
pub(crate) struct Piece {
    pub lexeme: Lexeme,
    pub len: usize,
}

/// A lexeme with the byte at which it begins, and the byte after it.
#[derive(Clone, Copy)]
pub(crate) struct Spot {
    pub lexeme: Lexeme,
    pub at: usize,
    pub after: usize,
}
