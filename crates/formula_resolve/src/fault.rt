//! Why a formula has no resolution.

use digit_tuple::faults::OutOfMemory;
use digit_tuple::name::Name;
use std::alloc::{AllocError, AllocFailed};

/// Why a formula has no resolution.
#[derive(Drop)]
pub enum ResolveFault {
    /// The automaton of this name is over sets.
    Plain(Name),
    /// The automaton or word of this name has so many tracks, and so many arguments or places are
    /// given. A count of 2^32 or more is kept as 2^32 - 1.
    Arity(Name, u32, u32),
    /// This variable, the system of its first occurrence under one binding, and the system of the
    /// first occurrence that differs.
    Clash(Name, Name, Name),
    /// The system that is met first, and the first later one of the other direction.
    Direction(Name, Name),
    /// There was not enough memory.
    Memory,
}

impl From<AllocError> for ResolveFault {
    ghost use Rattle.std.specs.Prelude.{◌≡◌};
    ghost use Rattle.formula_resolve.specs.declared.fault.ResolveFault.TheVariants.{Memory};

    ghost from_gives = { λ _ e. e ≡ Memory };

    fn from(_: AllocError) -> ResolveFault {
        ResolveFault::Memory
    }
}

impl<T: Drop> From<AllocFailed<T>> for ResolveFault {
    ghost use Rattle.std.specs.Prelude.{◌≡◌};
    ghost use Rattle.formula_resolve.specs.declared.fault.ResolveFault.TheVariants.{Memory};

    ghost from_gives = { λ _ e. e ≡ Memory };

    fn from(_: AllocFailed<T>) -> ResolveFault {
        ResolveFault::Memory
    }
}

impl From<OutOfMemory> for ResolveFault {
    ghost use Rattle.std.specs.Prelude.{◌≡◌};
    ghost use Rattle.formula_resolve.specs.declared.fault.ResolveFault.TheVariants.{Memory};

    ghost from_gives = { λ _ e. e ≡ Memory };

    fn from(_: OutOfMemory) -> ResolveFault {
        ResolveFault::Memory
    }
}
