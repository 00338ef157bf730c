//! The tokens of a formula.

ghost use Rattle.std.specs.Prelude.{◌≡◌};

use crate::tree::{Connective, Quantifier, Relation, Sign};
use digit_tuple::name::Name;

/// The connectives of a chain.
#[derive(Clone, Copy)]
pub(crate) enum ChainSign {
    And,
    Or,
    Xor,
}

/// A token. Those at which a chain may be mixed or a product not linear, and the `@`, keep their byte.
#[derive(Drop)]
pub(crate) enum Token {
    /// A variable or a word.
    Name(Name),
    /// A numeral below 2^64.
    Number(u64),
    /// The system after a `?`.
    System(Name),
    /// The name after a `$`.
    Called(Name),
    Mark,
    CallSign,
    Negation,
    Quantifier(Quantifier),
    Comma,
    Opening,
    Closing,
    Bracket,
    Unbracket,
    LetterSign(usize),
    Sign(Sign),
    Times(usize),
    Slash,
    Relation(Relation),
    Connective(ChainSign, usize),
    Implies(usize),
    Iff,
    /// A byte that begins none.
    Other,
    /// The end of the text.
    End,
}

impl ChainSign {
    ghost use Rattle.formula_parse.specs.Building.{joint};
    ghost use Rattle.formula_parse.specs.Views.{connective_view};
    ghost use Rattle.formula_parse.specs.StateViews.{chain_sign_view};

    /// The connective of the tree.
    pub fn connective(self) -> Connective
        ensures { connective_view result ≡ joint (chain_sign_view self) }
    {
        match self {
            ChainSign::And => Connective::And,
            ChainSign::Or => Connective::Or,
            ChainSign::Xor => Connective::Xor,
        }
    }
}
