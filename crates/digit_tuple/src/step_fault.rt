//! Why a step gives no automaton.

ghost use Rattle.std.specs.Prelude.{◌≡◌};
ghost use Rattle.digit_tuple.specs.declared.step_fault.StepFault.TheVariants.{Memory};

use crate::faults::OutOfMemory;
use std::alloc::{AllocError, AllocFailed};

/// Why a step gives no automaton. Steps are counted from 1.
#[derive(Clone, Copy, Debug, PartialEq, Eq)]
pub enum StepFault {
    /// This step would be over more than 16 tracks or 65,536 letters.
    Letters(u64),
    /// This step would have more values than a step may have.
    States(u64),
    /// There was not enough memory.
    Memory,
}

impl From<OutOfMemory> for StepFault {
    ghost from_gives = { λ _ e. e ≡ Memory };

    fn from(_error: OutOfMemory) -> StepFault {
        StepFault::Memory
    }
}

impl From<AllocError> for StepFault {
    ghost from_gives = { λ _ e. e ≡ Memory };

    fn from(_error: AllocError) -> StepFault {
        StepFault::Memory
    }
}

impl<T: Drop> From<AllocFailed<T>> for StepFault {
    ghost from_gives = { λ _ e. e ≡ Memory };

    fn from(_error: AllocFailed<T>) -> StepFault {
        StepFault::Memory
    }
}
