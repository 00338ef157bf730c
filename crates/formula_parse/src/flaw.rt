//! The faults that a text of the grammar may still have. The one at the least byte is kept.

ghost use Rattle.std.specs.Prelude.{◌≡◌};
ghost use Rattle.formula_parse.specs.Flaws as flaws;
ghost use Rattle.formula_parse.specs.StateViews.{chain_sign_view, flaw_view, noted_view, product_view, came_view};

use crate::token::ChainSign;

/// A chain that mixes its connectives, or a product of two unknowns, with the byte.
#[derive(Clone, Copy)]
pub(crate) enum Flaw {
    MixedChain(usize),
    NotLinear(usize),
}

impl Flaw {
    fn byte(self) -> usize
        ensures { result ≡ flaws.byte_of (flaw_view self) }
    {
        match self {
            Flaw::MixedChain(at) => at,
            Flaw::NotLinear(at) => at,
        }
    }
}

/// The least so far, where a further flaw is met or not.
pub(crate) fn noted_if(met: bool, flaw: Flaw, least: Option<Flaw>) -> Option<Flaw>
    ensures { noted_view result ≡ flaws.noted_if met (flaw_view flaw) (noted_view least) }
{
    if !met {
        return least;
    }
    match least {
        None => Some(flaw),
        Some(earlier) => {
            if flaw.byte() < earlier.byte() {
                Some(flaw)
            } else {
                Some(earlier)
            }
        }
    }
}

/// What comes before a factor in its term.
#[derive(Clone, Copy)]
pub(crate) struct Product {
    /// Nothing does.
    pub lone: bool,
    /// A factor of its product that is no numeral does, or a quotient.
    pub unknown: bool,
    /// The byte of the `*` before it.
    pub star: usize,
}

impl Product {
    /// Before the first factor of a product, which is the first of its term or not.
    pub fn start(lone: bool) -> Product
        ensures { product_view result ≡ flaws.product_start lone }
    {
        Product {
            lone,
            unknown: false,
            star: 0,
        }
    }

    /// After a factor, which is a numeral or is not, and a `*`.
    pub fn next(self, numeral: bool, star: usize) -> Product
        ensures { product_view result ≡ flaws.product_next (product_view self) numeral star }
    {
        Product {
            lone: false,
            unknown: self.unknown || !numeral,
            star,
        }
    }

    /// The least flaw with a factor, which is a numeral or is not.
    pub fn noted(self, numeral: bool, least: Option<Flaw>) -> Option<Flaw>
        ensures { noted_view result ≡ flaws.noted_factor (product_view self) numeral (noted_view least) }
    {
        noted_if(self.unknown && !numeral, Flaw::NotLinear(self.star), least)
    }
}

/// Which of `|` and `^` have come in a chain.
#[derive(Clone, Copy)]
pub(crate) struct Came {
    pub or_came: bool,
    pub xor_came: bool,
}

impl Came {
    pub fn none() -> Came
        ensures { came_view result ≡ flaws.none_came }
    {
        Came {
            or_came: false,
            xor_came: false,
        }
    }

    pub fn next(self, sign: ChainSign) -> Came
        ensures { came_view result ≡ flaws.came_next (chain_sign_view sign) (came_view self) }
    {
        match sign {
            ChainSign::And => self,
            ChainSign::Or => Came {
                or_came: true,
                xor_came: self.xor_came,
            },
            ChainSign::Xor => Came {
                or_came: self.or_came,
                xor_came: true,
            },
        }
    }

    /// Whether a connective follows one that the chain does not mix it with.
    pub fn mixes(self, sign: ChainSign) -> bool
        ensures { result ≡ flaws.mixes (chain_sign_view sign) (came_view self) }
    {
        match sign {
            ChainSign::And => self.or_came || self.xor_came,
            ChainSign::Or => self.xor_came,
            ChainSign::Xor => self.or_came,
        }
    }
}
