//! The step `product`.

ghost use Rattle.std.specs.Prelude.{map, IsTrue};
ghost use Rattle.std.specs.Rc.{rc_value};
ghost use Rattle.product_op.specs.Connectives.{among_valid};
ghost use Rattle.product_op.specs.Tracks.{AgreeOnShared, joint_sizes};
ghost use Rattle.product_op.specs.Validity.{AreLanguages};
ghost use Rattle.automaton_steps.specs.JoinSteps.{join_step as the_step};
ghost use Rattle.automaton_steps.specs.Makings.{DoesStep};

use digit_tuple::dfa::Dfa;
use digit_tuple::faults::OpFault;
use digit_tuple::kind::Kind;
use digit_tuple::step_fault::StepFault;
use digit_tuple::stepped::Stepped;
use digit_tuple::steps::Steps;
use minimise::tracked::Tracked;
use product_op::op::Op;
use product_op::product::product;
use std::alloc::Global;
use std::rc::Rc;

/// A connective, and a canonical language for each track of the result, which counts where the
/// connective is taken among valid words.
#[derive(Clone, Copy)]
pub struct Joining<'a> {
    pub op: Op,
    pub languages: &'a [Rc<Dfa>],
}

/// The words over the tracks of both automata of which the connective says that they are in, by the
/// step `product` as the next one. Tracks of one name are one track, and have one number of digits in
/// both. The tracks, the width and the cost are those of `product`.
///
/// # Errors
/// `Letters` if and only if there are too many tracks or letters, looked at first; `States` if and only if the width
/// passes the limit. The steps are as before then, also if memory runs out.
pub fn join_step(
    alloc: Global,
    a: &Tracked,
    b: &Tracked,
    joining: Joining<'_>,
    steps: &mut Steps,
) -> Result<Tracked, StepFault>
    requires agree { AgreeOnShared a.now b.now }
    requires languages { IsTrue (among_valid joining.op) → AreLanguages (joint_sizes a.now b.now) (map rc_value joining.languages.now) }
    ensures { DoesStep (the_step joining.entry.op (map rc_value joining.entry.languages.now) a.now b.now) steps.old result steps.new }
{
    let Joining { op, languages } = joining;
    match product(alloc, a, b, op, languages, steps.begin(Kind::Product)) {
        Ok(Stepped { result, width }) => {
            steps.done(Kind::Product, width, result.dfa().states())?;
            Ok(result)
        }
        Err(OpFault::Letters) => Err(StepFault::Letters(steps.next_number())),
        Err(OpFault::States) => Err(StepFault::States(steps.next_number())),
        Err(OpFault::Memory) => Err(StepFault::Memory),
    }
}
