//! Operations on languages.

/// An operation on two languages, which is done on more from the left.
#[derive(Clone, Copy, PartialEq, Eq)]
pub enum PairOp {
    /// The words that are in one of them.
    Union,
    /// The words that are in both.
    Intersection,
    /// The words of the first followed by words of the second.
    Concatenation,
}

/// An operation on one language.
#[derive(Clone, Copy, PartialEq, Eq)]
pub enum OneOp {
    /// The words joined of any number of words of the language.
    Star,
    /// The reversed words of the language.
    Reversal,
}

/// The operation of a language command.
#[derive(Clone, Copy, PartialEq, Eq)]
pub enum LanguageOp {
    /// On one or more languages.
    Pair(PairOp),
    /// On one language.
    One(OneOp),
}
