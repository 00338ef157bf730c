//! The step `complement`.

ghost use Rattle.std.specs.Prelude.{map};
ghost use Rattle.std.specs.Rc.{rc_value};
ghost use Rattle.product_op.specs.Validity.{AreLanguages};
ghost use Rattle.automaton_steps.specs.Makings.{DoesStep};
ghost use Rattle.automaton_steps.specs.ValiditySteps.{complement_step as the_step};

use digit_tuple::dfa::Dfa;
use digit_tuple::faults::OpFault;
use digit_tuple::kind::Kind;
use digit_tuple::step_fault::StepFault;
use digit_tuple::stepped::Stepped;
use digit_tuple::steps::Steps;
use minimise::tracked::Tracked;
use std::alloc::Global;
use std::rc::Rc;
use validity::valid_words::complement_in;

/// The words that are not accepted and whose tracks are each in the track's language, by the step
/// `complement` as the next one. There is a canonical language for each track. The tracks, the width
/// and the cost are those of `complement_in`.
///
/// # Errors
/// `States` if and only if the width passes the limit. The steps are as before then, also if memory runs out.
pub fn complement_step(
    alloc: Global,
    argument: &Tracked,
    languages: &[Rc<Dfa>],
    steps: &mut Steps,
) -> Result<Tracked, StepFault>
    requires languages { AreLanguages argument.now.automaton.sizes (map rc_value languages.now) }
    ensures { DoesStep (the_step (map rc_value languages.now) argument.now) steps.old result steps.new }
{
    let _ = argument.dfa().alphabet().tracks();
    match complement_in(alloc, argument, languages, steps.begin(Kind::Complement)) {
        Ok(Stepped { result, width }) => {
            steps.done(Kind::Complement, width, result.dfa().states())?;
            Ok(result)
        }
        Err(OpFault::States) => Err(StepFault::States(steps.next_number())),
        Err(_) => Err(StepFault::Memory),
    }
}
