//! The step `regex`.

ghost use Rattle.automaton_steps.specs.Makings.{DoesStep};
ghost use Rattle.reg_steps.specs.RegexSteps.{regex_step as the_step};

use digit_tuple::dfa::Dfa;
use digit_tuple::faults::OpFault;
use digit_tuple::kind::Kind;
use digit_tuple::step_fault::StepFault;
use digit_tuple::stepped::Stepped;
use digit_tuple::steps::Steps;
use regex_build::build::build;
use regex_build::regex::Regex;
use std::alloc::Global;

/// The canonical automaton of the words that the expression matches, by the step `regex` as the next
/// one. Its width is the number of sets of last marks that words have, its size the number of the
/// automaton's states.
///
/// # Errors
/// `Letters` if and only if the sets are too many or have too many tuples for an alphabet, looked at first; `States` if
/// and only if the width passes the limit. The steps are as before then, also if memory runs out.
pub fn regex_step(alloc: Global, regex: &Regex, steps: &mut Steps) -> Result<Dfa, StepFault>
    ensures { DoesStep (the_step regex.now.sets regex.now.tree) steps.old result steps.new }
{
    match build(alloc, regex, steps.begin(Kind::Regex)) {
        Ok(Stepped { result, width }) => {
            steps.done(Kind::Regex, width, result.states())?;
            Ok(result)
        }
        Err(OpFault::Letters) => Err(StepFault::Letters(steps.next_number())),
        Err(OpFault::States) => Err(StepFault::States(steps.next_number())),
        Err(OpFault::Memory) => Err(StepFault::Memory),
    }
}
