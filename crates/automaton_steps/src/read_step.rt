//! The step `read`.

ghost use Rattle.automaton_steps.specs.Makings.{DoesStep};
ghost use Rattle.automaton_steps.specs.ReadSteps.{read_step as the_step};

use determinise::subset_construction::determinise;
use digit_tuple::dfa::Dfa;
use digit_tuple::faults::OpFault;
use digit_tuple::kind::Kind;
use digit_tuple::nfa::Nfa;
use digit_tuple::step_fault::StepFault;
use digit_tuple::stepped::Stepped;
use digit_tuple::steps::Steps;
use minimise::canonical::canonical;
use std::alloc::Global;

/// The canonical automaton with the language of a nondeterministic one, by the step `read` as the next one. The width
/// is the number of sets of states that words lead to, the empty one among them. Time and memory follow the sizes of
/// these sets and their transitions, as for `determinise`.
///
/// # Errors
/// `States` if and only if the width passes the limit. The steps are as before then, also if memory runs out.
pub fn read_step(alloc: Global, listed: &Nfa, steps: &mut Steps) -> Result<Dfa, StepFault>
    ensures { DoesStep (the_step listed.now) steps.old result steps.new }
{
    let _ = listed.alphabet().tracks();
    match determinise(alloc, listed, steps.begin(Kind::Read)) {
        Ok(Stepped { result, width }) => {
            let read = canonical(alloc, &result)?;
            steps.done(Kind::Read, width, read.states())?;
            Ok(read)
        }
        Err(OpFault::States) => Err(StepFault::States(steps.next_number())),
        Err(_) => Err(StepFault::Memory),
    }
}
