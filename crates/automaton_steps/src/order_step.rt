//! The step `order`.

ghost use Rattle.std.specs.Prelude.{◌≡◌, length};
ghost use Rattle.minimise.specs.Canonical.{IsCanonical};
ghost use Rattle.automaton_steps.specs.Makings.{DoesStep};
ghost use Rattle.automaton_steps.specs.OrderSteps.{order_step as the_step};

use digit_tuple::dfa::Dfa;
use digit_tuple::direction::Direction;
use digit_tuple::faults::OpFault;
use digit_tuple::kind::Kind;
use digit_tuple::step_fault::StepFault;
use digit_tuple::stepped::Stepped;
use digit_tuple::steps::Steps;
use number_order::order::order_of;
use std::alloc::Global;

/// The pairs of numbers of which the first is less, for a canonical automaton of one track that accepts
/// the valid words of a system, by the step `order` as the next one. The width and the cost are those
/// of `order_of`.
///
/// # Errors
/// `Letters` if and only if two tracks have too many letters, looked at first; `States` if and only if the width passes
/// the limit. The steps are as before then, also if memory runs out.
pub fn order_step(
    alloc: Global,
    language: &Dfa,
    direction: Direction,
    steps: &mut Steps,
) -> Result<Dfa, StepFault>
    requires track { length language.now.sizes ≡ 1 }
    requires canonical { IsCanonical language.now }
    ensures { DoesStep (the_step direction language.now) steps.old result steps.new }
{
    match order_of(alloc, language, direction, steps.begin(Kind::Order)) {
        Ok(Stepped { result, width }) => {
            steps.done(Kind::Order, width, result.states())?;
            Ok(result)
        }
        Err(OpFault::Letters) => Err(StepFault::Letters(steps.next_number())),
        Err(OpFault::States) => Err(StepFault::States(steps.next_number())),
        Err(OpFault::Memory) => Err(StepFault::Memory),
    }
}
