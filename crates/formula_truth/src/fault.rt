//! Why a formula is not decided.

use digit_tuple::faults::OutOfMemory;
use std::alloc::{AllocError, AllocFailed};

/// Why the slow program gives no answer.
#[derive(Clone, Copy, Debug, PartialEq, Eq)]
pub enum Undecided {
    /// A sum or a product is 2^64 or more.
    Large,
    /// The quantifier `I` ranges over all numbers: trying some of them does not decide it.
    Endless,
    /// The formula has more levels than may be gone down.
    Deep,
    /// There was not enough memory.
    Memory,
}

impl From<AllocError> for Undecided {
    ghost use Rattle.std.specs.Prelude.{◌≡◌};
    ghost use Rattle.formula_truth.specs.declared.fault.Undecided.TheVariants.{Memory};

    ghost from_gives = { λ _ e. e ≡ Memory };

    fn from(_: AllocError) -> Undecided {
        Undecided::Memory
    }
}

impl<T: Drop> From<AllocFailed<T>> for Undecided {
    ghost use Rattle.std.specs.Prelude.{◌≡◌};
    ghost use Rattle.formula_truth.specs.declared.fault.Undecided.TheVariants.{Memory};

    ghost from_gives = { λ _ e. e ≡ Memory };

    fn from(_: AllocFailed<T>) -> Undecided {
        Undecided::Memory
    }
}

impl From<OutOfMemory> for Undecided {
    ghost use Rattle.std.specs.Prelude.{◌≡◌};
    ghost use Rattle.formula_truth.specs.declared.fault.Undecided.TheVariants.{Memory};

    ghost from_gives = { λ _ e. e ≡ Memory };

    fn from(_: OutOfMemory) -> Undecided {
        Undecided::Memory
    }
}
