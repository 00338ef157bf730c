//! The kinds of systems that are built in.
ghost use Rattle.std.specs.Prelude.{◌≡◌};
ghost use Rattle.system_names.specs.Names.{digit_count};

/// What a numeration system that is built in is, whatever the direction of its words.
#[derive(Clone, Copy)]
pub enum SystemKind {
    /// The base of this number, from 2 to 40: all words over its digits.
    Base(u32),
    /// The Fibonacci system: the words over 0 and 1 without 11.
    Fibonacci,
}

impl SystemKind {
    /// How many digits it has: those of base k are 0 to k - 1, those of the Fibonacci system 0 and 1. It takes no memory.
    pub fn digits(self) -> u32
        ensures { result ≡ digit_count self }
    {
        match self {
            SystemKind::Base(base) => base,
            SystemKind::Fibonacci => 2,
        }
    }
}
