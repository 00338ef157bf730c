//! The step `concat`.

ghost use Rattle.std.specs.Prelude.{◌≡◌};
ghost use Rattle.minimise.specs.Canonical.{IsCanonical};
ghost use Rattle.automaton_steps.specs.Makings.{DoesStep};
ghost use Rattle.lang_ops.specs.ConcatSteps.{concat_step as the_step};

use crate::concat::concat;
use digit_tuple::dfa::Dfa;
use digit_tuple::faults::OpFault;
use digit_tuple::kind::Kind;
use digit_tuple::step_fault::StepFault;
use digit_tuple::stepped::Stepped;
use digit_tuple::steps::Steps;
use std::alloc::Global;

/// The canonical automaton of the words of the first language followed by words of the second, of two canonical
/// automata over the same tracks, by the step `concat` as the next one. The width and the cost are those of `concat`.
///
/// # Errors
/// `States` if and only if the width passes the limit. The steps are as before then, also if memory runs out.
pub fn concat_step(alloc: Global, a: &Dfa, b: &Dfa, steps: &mut Steps) -> Result<Dfa, StepFault>
    requires first { IsCanonical a.now }
    requires second { IsCanonical b.now }
    requires sizes { b.now.sizes ≡ a.now.sizes }
    ensures { DoesStep (the_step a.now b.now) steps.old result steps.new }
{
    let _ = a.alphabet().tracks();
    match concat(alloc, a, b, steps.begin(Kind::Concat)) {
        Ok(Stepped { result, width }) => {
            steps.done(Kind::Concat, width, result.states())?;
            Ok(result)
        }
        Err(OpFault::States) => Err(StepFault::States(steps.next_number())),
        Err(_) => Err(StepFault::Memory),
    }
}
