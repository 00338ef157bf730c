//! The step `pad`.

ghost use Rattle.minimise.specs.Canonical.{IsCanonical};
ghost use Rattle.automaton_steps.specs.Makings.{DoesStep};
ghost use Rattle.automaton_steps.specs.PadSteps.{pad_step as the_step};

use digit_tuple::dfa::Dfa;
use digit_tuple::direction::Direction;
use digit_tuple::faults::OpFault;
use digit_tuple::kind::Kind;
use digit_tuple::step_fault::StepFault;
use digit_tuple::stepped::Stepped;
use digit_tuple::steps::Steps;
use pad_rename::padding::pad;
use std::alloc::Global;

/// The closure of a canonical automaton under zeros at the end of the most significant letters, by the
/// step `pad` as the next one. The width and the cost are those of `pad`.
///
/// # Errors
/// `States` if and only if the width passes the limit. The steps are as before then, also if memory runs out.
pub fn pad_step(
    alloc: Global,
    argument: &Dfa,
    direction: Direction,
    steps: &mut Steps,
) -> Result<Dfa, StepFault>
    requires canonical { IsCanonical argument.now }
    ensures { DoesStep (the_step direction argument.now) steps.old result steps.new }
{
    let _ = argument.alphabet().tracks();
    match pad(alloc, argument, direction, steps.begin(Kind::Pad)) {
        Ok(Stepped { result, width }) => {
            steps.done(Kind::Pad, width, result.states())?;
            Ok(result)
        }
        Err(OpFault::States) => Err(StepFault::States(steps.next_number())),
        Err(_) => Err(StepFault::Memory),
    }
}
