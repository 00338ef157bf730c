//! Kinds of steps.

ghost use Rattle.std.specs.Prelude.{◌≡◌};
ghost use Rattle.digit_tuple.specs.Kinds.{kind_name};

/// What a step makes. There are these kinds and no other.
#[derive(Clone, Copy, Debug, PartialEq, Eq)]
pub enum Kind {
    /// The language that a file lists.
    Read,
    /// The reversed language.
    Reverse,
    /// The language of a regular expression.
    Regex,
    /// The closure under padding.
    Pad,
    /// The part on valid words.
    Valid,
    /// The order of numbers.
    Order,
    /// The representations of one number.
    Const,
    /// Two automata combined by a connective.
    Product,
    /// The valid words that are not accepted.
    Complement,
    /// A track dropped: some value of it.
    Project,
    /// A word automaton of several automata.
    Combine,
    /// The fixed point of a morphism.
    Promote,
    /// The words of one language followed by those of another.
    Concat,
    /// Words of a language, any number of them one after another.
    Star,
    /// The word that a transducer makes of a word.
    Transduce,
    /// A word over a base, read digit by digit of its root.
    Split,
    /// A word over a base, read in groups of digits.
    Join,
}

impl Kind {
    /// The word by which users see the kind.
    pub fn name(self) -> &'static str
        ensures { result.now ≡ kind_name self }
    {
        match self {
            Kind::Read => "read",
            Kind::Reverse => "reverse",
            Kind::Regex => "regex",
            Kind::Pad => "pad",
            Kind::Valid => "valid",
            Kind::Order => "order",
            Kind::Const => "const",
            Kind::Product => "product",
            Kind::Complement => "complement",
            Kind::Project => "project",
            Kind::Combine => "combine",
            Kind::Promote => "promote",
            Kind::Concat => "concat",
            Kind::Star => "star",
            Kind::Transduce => "transduce",
            Kind::Split => "split",
            Kind::Join => "join",
        }
    }
}
