//! Why a file is not read.

ghost use Rattle.std.specs.Prelude.{◌≡◌};
ghost use Rattle.dfa_reading.specs.declared.fault.FileFault.TheVariants.{Memory};

use digit_tuple::faults::OutOfMemory;
use std::alloc::{AllocError, AllocFailed};

/// Why a file is not read.
#[derive(Clone, Copy, Debug, PartialEq, Eq)]
pub enum FileFault {
    /// The line of the first fault, counted from one.
    File(u64),
    /// A growth was refused.
    Memory,
}

impl From<AllocError> for FileFault {
    ghost from_gives = { λ _ e. e ≡ Memory };

    fn from(_error: AllocError) -> FileFault {
        FileFault::Memory
    }
}

impl<T: Drop> From<AllocFailed<T>> for FileFault {
    ghost from_gives = { λ _ e. e ≡ Memory };

    fn from(_error: AllocFailed<T>) -> FileFault {
        FileFault::Memory
    }
}

impl From<OutOfMemory> for FileFault {
    ghost from_gives = { λ _ e. e ≡ Memory };

    fn from(_error: OutOfMemory) -> FileFault {
        FileFault::Memory
    }
}
