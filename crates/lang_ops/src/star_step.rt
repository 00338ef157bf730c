//! The step `star`.

ghost use Rattle.minimise.specs.Canonical.{IsCanonical};
ghost use Rattle.automaton_steps.specs.Makings.{DoesStep};
ghost use Rattle.lang_ops.specs.StarSteps.{star_step as the_step};

use crate::star::star;
use digit_tuple::dfa::Dfa;
use digit_tuple::faults::OpFault;
use digit_tuple::kind::Kind;
use digit_tuple::step_fault::StepFault;
use digit_tuple::stepped::Stepped;
use digit_tuple::steps::Steps;
use std::alloc::Global;

/// The canonical automaton of the words joined of any number of words of the language of a canonical automaton, by the
/// step `star` as the next one. The width and the cost are those of `star`.
///
/// # Errors
/// `States` if and only if the width passes the limit. The steps are as before then, also if memory runs out.
pub fn star_step(alloc: Global, argument: &Dfa, steps: &mut Steps) -> Result<Dfa, StepFault>
    requires canonical { IsCanonical argument.now }
    ensures { DoesStep (the_step argument.now) steps.old result steps.new }
{
    let _ = argument.alphabet().tracks();
    match star(alloc, argument, steps.begin(Kind::Star)) {
        Ok(Stepped { result, width }) => {
            steps.done(Kind::Star, width, result.states())?;
            Ok(result)
        }
        Err(OpFault::States) => Err(StepFault::States(steps.next_number())),
        Err(_) => Err(StepFault::Memory),
    }
}
