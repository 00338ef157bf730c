//! Faults of expressions.

ghost use Rattle.std.specs.Prelude.{◌≡◌};
ghost use Rattle.regex_build.specs.declared.fault.RegexFault.TheVariants.{Memory};
ghost use Rattle.regex_build.specs.declared.fault.Refusal.TheVariants as refusals;
ghost use Rattle.regex_build.specs.Reading.{fault_at};

use digit_tuple::faults::OutOfMemory;
use std::alloc::{AllocError, AllocFailed};

/// Why a text gives no expression. Bytes are counted from 0.
#[derive(Clone, Copy, Debug, PartialEq, Eq)]
pub enum RegexFault {
    /// No expression goes on with the token at this byte; at the text's length, the text ends too
    /// early.
    Syntax(usize),
    /// The digit or number at this byte is no member of its track's set.
    Number(usize),
    /// The `(` at this byte opens nesting 129.
    Depth(usize),
    /// A growth was refused.
    Memory,
}

/// Why a token is not read.
#[derive(Clone, Copy, PartialEq, Eq)]
pub(crate) enum Refusal {
    /// No expression goes on with it.
    Syntax,
    /// It is a digit or a number, and no member of its track's set.
    Number,
    /// It opens nesting 129.
    Depth,
    /// A growth was refused.
    Memory,
}

impl Refusal {
    /// The fault of a text whose token at this byte is not read.
    pub(crate) fn at(self, at: usize) -> RegexFault
        ensures { result ≡ fault_at self at }
    {
        match self {
            Refusal::Syntax => RegexFault::Syntax(at),
            Refusal::Number => RegexFault::Number(at),
            Refusal::Depth => RegexFault::Depth(at),
            Refusal::Memory => RegexFault::Memory,
        }
    }
}

impl From<AllocError> for RegexFault {
    ghost from_gives = { λ _ e. e ≡ Memory };

    fn from(_error: AllocError) -> RegexFault {
        RegexFault::Memory
    }
}

impl<T: Drop> From<AllocFailed<T>> for RegexFault {
    ghost from_gives = { λ _ e. e ≡ Memory };

    fn from(_error: AllocFailed<T>) -> RegexFault {
        RegexFault::Memory
    }
}

impl From<OutOfMemory> for RegexFault {
    ghost from_gives = { λ _ e. e ≡ Memory };

    fn from(_error: OutOfMemory) -> RegexFault {
        RegexFault::Memory
    }
}

impl From<AllocError> for Refusal {
    ghost from_gives = { λ _ e. e ≡ refusals.Memory };

    fn from(_error: AllocError) -> Refusal {
        Refusal::Memory
    }
}

impl<T: Drop> From<AllocFailed<T>> for Refusal {
    ghost from_gives = { λ _ e. e ≡ refusals.Memory };

    fn from(_error: AllocFailed<T>) -> Refusal {
        Refusal::Memory
    }
}

impl From<OutOfMemory> for Refusal {
    ghost from_gives = { λ _ e. e ≡ refusals.Memory };

    fn from(_error: OutOfMemory) -> Refusal {
        Refusal::Memory
    }
}
