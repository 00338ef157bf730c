//! Faults of a place's text.

use digit_tuple::faults::OutOfMemory;
use std::alloc::{AllocError, AllocFailed};

/// Why a text is no place. Bytes are counted from 0.
#[derive(Clone, Copy, Debug, PartialEq, Eq)]
pub enum PlaceFault {
    /// No place goes on with the byte; at the text's length, the text ends too early.
    Syntax(usize),
    /// The number that begins at the byte does not fit 32 bits, signed.
    Number(usize),
    /// There was not enough memory.
    Memory,
}

impl From<AllocError> for PlaceFault {
    ghost use Rattle.std.specs.Prelude.{◌≡◌};
    ghost use Rattle.place_text.specs.declared.fault.PlaceFault.TheVariants.{Memory};

    ghost from_gives = { λ _ e. e ≡ Memory };

    fn from(_: AllocError) -> PlaceFault {
        PlaceFault::Memory
    }
}

impl<T: Drop> From<AllocFailed<T>> for PlaceFault {
    ghost use Rattle.std.specs.Prelude.{◌≡◌};
    ghost use Rattle.place_text.specs.declared.fault.PlaceFault.TheVariants.{Memory};

    ghost from_gives = { λ _ e. e ≡ Memory };

    fn from(_: AllocFailed<T>) -> PlaceFault {
        PlaceFault::Memory
    }
}

impl From<OutOfMemory> for PlaceFault {
    ghost use Rattle.std.specs.Prelude.{◌≡◌};
    ghost use Rattle.place_text.specs.declared.fault.PlaceFault.TheVariants.{Memory};

    ghost from_gives = { λ _ e. e ≡ Memory };

    fn from(_: OutOfMemory) -> PlaceFault {
        PlaceFault::Memory
    }
}
