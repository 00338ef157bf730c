//! Why a morphism gives no word.

ghost use Rattle.std.specs.Prelude.{◌≡◌};
ghost use Rattle.digit_tuple.specs.declared.step_fault.StepFault.TheVariants.{Memory};
ghost use Rattle.fixed_points.specs.declared.promote_fault.PromoteFault.TheVariants.{Morphism, Step};

use digit_tuple::faults::OutOfMemory;
use digit_tuple::step_fault::StepFault;
use morph_words::MorphismKind;

/// Why a morphism gives no word.
#[derive(Clone, Copy, Debug, PartialEq, Eq)]
pub enum PromoteFault {
    /// The morphism has no fixed point in a base.
    Morphism(MorphismKind),
    /// The step passes its limit, or memory ran out.
    Step(StepFault),
}

impl From<MorphismKind> for PromoteFault {
    ghost from_gives = { λ kind e. e ≡ Morphism kind };

    fn from(kind: MorphismKind) -> Self {
        PromoteFault::Morphism(kind)
    }
}

impl From<StepFault> for PromoteFault {
    ghost from_gives = { λ fault e. e ≡ Step fault };

    fn from(fault: StepFault) -> Self {
        PromoteFault::Step(fault)
    }
}

impl From<OutOfMemory> for PromoteFault {
    ghost from_gives = { λ _ e. e ≡ Step Memory };

    fn from(_fault: OutOfMemory) -> Self {
        PromoteFault::Step(StepFault::Memory)
    }
}
