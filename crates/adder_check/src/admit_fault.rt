//! Why a system is not admitted.

ghost use Rattle.std.specs.Prelude.{◌≡◌};
ghost use Rattle.adder_check.specs.Faults.{fault_of};
ghost use Rattle.adder_check.specs.declared.admit_fault.AdmitFault.TheVariants as faults;

use digit_tuple::faults::OutOfMemory;
use digit_tuple::step_fault::StepFault;
use std::alloc::{AllocError, AllocFailed};

/// The laws by which a language and an adder make a numeration system, in the order in which they are
/// looked at.
#[derive(Clone, Copy, Debug, PartialEq, Eq)]
pub enum Law {
    /// The empty word is in the language, and leading zeros change nothing.
    NoZero,
    /// Words without leading zeros are longer than any bound.
    Endless,
    /// With 0 the sum of a number is the number itself, and nothing else.
    ZeroLaw,
    /// With one more the sums are those that are one more.
    SuccessorLaw,
}

/// Why a system is not admitted. Steps are counted from 1.
#[derive(Clone, Copy, Debug, PartialEq, Eq)]
pub enum AdmitFault {
    /// This is the first law that does not hold.
    NotAdmitted(Law),
    /// This step would be over more than 65,536 letters.
    Letters(u64),
    /// This step would have more values than a step may have.
    States(u64),
    /// There was not enough memory.
    Memory,
}

impl From<StepFault> for AdmitFault {
    ghost from_gives = { λ f e. e ≡ fault_of f };

    fn from(fault: StepFault) -> AdmitFault {
        match fault {
            StepFault::Letters(step) => AdmitFault::Letters(step),
            StepFault::States(step) => AdmitFault::States(step),
            StepFault::Memory => AdmitFault::Memory,
        }
    }
}

impl From<OutOfMemory> for AdmitFault {
    ghost from_gives = { λ _ e. e ≡ faults.Memory };

    fn from(_error: OutOfMemory) -> AdmitFault {
        AdmitFault::Memory
    }
}

impl From<AllocError> for AdmitFault {
    ghost from_gives = { λ _ e. e ≡ faults.Memory };

    fn from(_error: AllocError) -> AdmitFault {
        AdmitFault::Memory
    }
}

impl<T: Drop> From<AllocFailed<T>> for AdmitFault {
    ghost from_gives = { λ _ e. e ≡ faults.Memory };

    fn from(_error: AllocFailed<T>) -> AdmitFault {
        AdmitFault::Memory
    }
}
