//! The symbols of an expression in postfix order.

use crate::letter_tuple::LetterTuple;

/// A symbol of an expression in postfix order: a letter, or a sign after what it is about.
#[derive(Drop)]
pub enum PostfixSymbol {
    /// The empty word.
    Empty,
    /// A letter.
    Letter(LetterTuple),
    /// Any letter.
    Any,
    /// One of the last two expressions.
    Either,
    /// The last two expressions, one after the other.
    Follow,
    /// The last expression any number of times.
    Star,
    /// The last expression at least once.
    Plus,
    /// The last expression at most once.
    Optional,
}
