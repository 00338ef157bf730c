//! The step `reverse`.

ghost use Rattle.automaton_steps.specs.Makings.{DoesStep};
ghost use Rattle.automaton_steps.specs.ReverseSteps.{reverse_step as the_step};

use determinise::reversal::reverse;
use digit_tuple::dfa::Dfa;
use digit_tuple::faults::OpFault;
use digit_tuple::kind::Kind;
use digit_tuple::step_fault::StepFault;
use digit_tuple::stepped::Stepped;
use digit_tuple::steps::Steps;
use minimise::canonical::canonical;
use std::alloc::Global;

/// The canonical automaton of the words whose reversal is accepted, by the step `reverse` as the next
/// one. The width is the number of residuals of that language, the empty one among them where it
/// occurs. The cost is that of `reverse`.
///
/// # Errors
/// `States` if and only if the width passes the limit. The steps are as before then, also if memory runs out.
pub fn reverse_step(alloc: Global, argument: &Dfa, steps: &mut Steps) -> Result<Dfa, StepFault>
    ensures { DoesStep (the_step argument.now) steps.old result steps.new }
{
    let _ = argument.alphabet().tracks();
    match reverse(alloc, argument, steps.begin(Kind::Reverse)) {
        Ok(Stepped { result, width }) => {
            let reversed = canonical(alloc, &result)?;
            steps.done(Kind::Reverse, width, reversed.states())?;
            Ok(reversed)
        }
        Err(OpFault::States) => Err(StepFault::States(steps.next_number())),
        Err(_) => Err(StepFault::Memory),
    }
}
