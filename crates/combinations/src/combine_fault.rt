//! Why relations make no word.

ghost use Rattle.std.specs.Prelude.{◌≡◌};
ghost use Rattle.combinations.specs.declared.combine_fault.CombineFault.TheVariants.{Step};

use digit_tuple::step_fault::StepFault;

/// Why relations make no word.
#[derive(Clone, Copy, Debug, PartialEq, Eq)]
pub enum CombineFault {
    /// The places in the list, from 0, of the first relation and of the first that differs from it in its
    /// number of tracks, or at some track in the system's digits, direction or language. It is 0 twice
    /// where the first has no track.
    Shape(usize, usize),
    /// The step passes a limit, or memory ran out.
    Step(StepFault),
}

impl From<StepFault> for CombineFault {
    ghost from_gives = { λ f e. e ≡ Step f };

    fn from(fault: StepFault) -> Self {
        CombineFault::Step(fault)
    }
}
