//! Why a text has no tree.

ghost use Rattle.std.specs.Prelude.{◌≡◌};
ghost use Rattle.formula_parse.specs.declared.fault.ParseFault.TheVariants as faults;
ghost use Rattle.formula_parse.specs.declared.fault.Stop.TheVariants as stops;

use digit_tuple::faults::OutOfMemory;
use std::alloc::AllocFailed;

/// Why a text has no tree, with the byte of the fault.
#[derive(Clone, Copy, Debug, PartialEq, Eq)]
pub enum ParseFault {
    /// The first byte of the first token at which no text of the grammar goes on, or the text's length.
    Syntax(usize),
    /// A numeral of 2^64 or more, or the `@` of a letter that is no signed 32-bit number.
    Number(usize),
    /// A token that opens nesting 129.
    Depth(usize),
    /// A connective that its chain or implication does not allow.
    MixedChain(usize),
    /// The `*` before the second factor of a product that is no numeral.
    NotLinear(usize),
    /// Memory ran out.
    Memory,
}

impl From<OutOfMemory> for ParseFault {
    ghost from_gives = { λ _ e. e ≡ faults.Memory };

    fn from(_error: OutOfMemory) -> ParseFault {
        ParseFault::Memory
    }
}

/// Why the machine stops at a token.
#[derive(Clone, Copy)]
pub(crate) enum Stop {
    Syntax,
    /// The letter of this `@` is out of its range.
    Letter(usize),
    Depth,
    Memory,
}

impl From<OutOfMemory> for Stop {
    ghost from_gives = { λ _ e. e ≡ stops.Memory };

    fn from(_error: OutOfMemory) -> Stop {
        Stop::Memory
    }
}

impl<T: Drop> From<AllocFailed<T>> for Stop {
    ghost from_gives = { λ _ e. e ≡ stops.Memory };

    fn from(_error: AllocFailed<T>) -> Stop {
        Stop::Memory
    }
}
