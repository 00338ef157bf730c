//! Connectives of two arguments.

ghost use Rattle.std.specs.Prelude.{◌≡◌};
ghost use Rattle.product_op.specs.Connectives.{connective, among_valid};
ghost use Rattle.product_op.specs.DeadPairs.{needs_first, needs_second};

/// A connective of two arguments.
#[derive(Clone, Copy, PartialEq, Eq)]
pub enum Op {
    And,
    /// The first and not the second.
    AndNot,
    Or,
    /// The one or the other and not both.
    Xor,
    /// If the first then the second.
    Implies,
    /// Both or none.
    Iff,
}

impl Op {
    /// What the connective says of two truth values.
    pub fn holds(self, first: bool, second: bool) -> bool
        ensures { result ≡ connective self first second }
    {
        match self {
            Op::And => first && second,
            Op::AndNot => first && !second,
            Op::Or => first || second,
            Op::Xor => first != second,
            Op::Implies => !first || second,
            Op::Iff => first == second,
        }
    }

    /// Whether the connective is taken among valid words alone: each but `And` and `AndNot`.
    pub fn is_among_valid(self) -> bool
        ensures { result ≡ among_valid self }
    {
        !matches!(self, Op::And | Op::AndNot)
    }

    /// Whether the connective refuses wherever the first argument does: `And` and `AndNot`.
    pub fn needs_first(self) -> bool
        ensures { result ≡ needs_first self }
    {
        !self.holds(false, true) && !self.holds(false, false)
    }

    /// Whether the connective refuses wherever the second argument does: `And`.
    pub fn needs_second(self) -> bool
        ensures { result ≡ needs_second self }
    {
        !self.holds(true, false) && !self.holds(false, false)
    }
}
