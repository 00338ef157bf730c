//! The step `product`, of two languages over the same tracks.

ghost use Rattle.std.specs.Prelude.{◌≡◌, false};
ghost use Rattle.minimise.specs.Canonical.{IsCanonical};
ghost use Rattle.product_op.specs.Connectives.{connective};
ghost use Rattle.automaton_steps.specs.Makings.{DoesStep};
ghost use Rattle.lang_ops.specs.ProductSteps.{product_step as the_step};

use crate::pairs::combined;
use digit_tuple::dfa::Dfa;
use digit_tuple::faults::OpFault;
use digit_tuple::kind::Kind;
use digit_tuple::step_fault::StepFault;
use digit_tuple::stepped::Stepped;
use digit_tuple::steps::Steps;
use product_op::op::Op;
use std::alloc::Global;

/// The canonical automaton of the words of which the connective says that they are in, of two canonical automata over
/// the same tracks, by the step `product` as the next one: the union by `Or`, the intersection by `And`. The connective
/// is false of two false values. The width and the cost are those of `combined`.
///
/// # Errors
/// `States` if and only if the width passes the limit. The steps are as before then, also if memory runs out.
pub fn product_step(
    alloc: Global,
    a: &Dfa,
    b: &Dfa,
    op: Op,
    steps: &mut Steps,
) -> Result<Dfa, StepFault>
    requires first { IsCanonical a.now }
    requires second { IsCanonical b.now }
    requires sizes { b.now.sizes ≡ a.now.sizes }
    requires none { connective op false false ≡ false }
    ensures { DoesStep (the_step op a.now b.now) steps.old result steps.new }
{
    let _ = a.alphabet().tracks();
    match combined(alloc, a, b, op, steps.begin(Kind::Product)) {
        Ok(Stepped { result, width }) => {
            steps.done(Kind::Product, width, result.states())?;
            Ok(result)
        }
        Err(OpFault::States) => Err(StepFault::States(steps.next_number())),
        Err(_) => Err(StepFault::Memory),
    }
}
