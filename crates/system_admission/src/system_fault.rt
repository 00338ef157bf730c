//! Why there is no system of a name.

ghost use Rattle.std.specs.Prelude.{◌≡◌};
ghost use Rattle.digit_tuple.specs.declared.step_fault.StepFault.TheVariants.{Memory};
ghost use Rattle.system_admission.specs.declared.system_fault.SystemFault.TheVariants as faults;

use adder_check::admit_fault::Law;
use dfa_loading::LoadFault;
use digit_tuple::faults::OutOfMemory;
use digit_tuple::name::Name;
use digit_tuple::step_fault::StepFault;
use std::alloc::AllocFailed;

/// Why there is no system of a name.
#[derive(Drop)]
pub enum SystemFault {
    /// Its files are not loaded, or no system can have the name.
    Load(LoadFault),
    /// This is the first law that does not hold of the system of this name.
    NotAdmitted(Name, Law),
    /// A step of the admission is refused, or memory ran out.
    Step(StepFault),
}

impl From<LoadFault> for SystemFault {
    ghost from_gives = { λ f e. e ≡ faults.Load f };

    fn from(fault: LoadFault) -> SystemFault {
        SystemFault::Load(fault)
    }
}

impl From<StepFault> for SystemFault {
    ghost from_gives = { λ f e. e ≡ faults.Step f };

    fn from(fault: StepFault) -> SystemFault {
        SystemFault::Step(fault)
    }
}

impl From<OutOfMemory> for SystemFault {
    ghost from_gives = { λ _ e. e ≡ faults.Step Memory };

    fn from(_error: OutOfMemory) -> SystemFault {
        SystemFault::Step(StepFault::Memory)
    }
}

impl<T: Drop> From<AllocFailed<T>> for SystemFault {
    ghost from_gives = { λ _ e. e ≡ faults.Step Memory };

    fn from(_error: AllocFailed<T>) -> SystemFault {
        SystemFault::Step(StepFault::Memory)
    }
}
