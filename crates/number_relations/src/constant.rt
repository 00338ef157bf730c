//! Relations that hold of one number alone.

ghost use Rattle.automaton_steps.specs.Makings.{DoesStep};
ghost use Rattle.number_relations.specs.Constants.{relation_constant_step};

use crate::relation::Relation;
use constants::constant::constant;
use digit_tuple::faults::OpFault;
use digit_tuple::kind::Kind;
use digit_tuple::name::Name;
use digit_tuple::step_fault::StepFault;
use digit_tuple::stepped::Stepped;
use digit_tuple::steps::Steps;
use minimise::tracked::Tracked;
use num_system::sealed::is_sealed;
use num_system::system::System;
use std::alloc::Global;
use std::rc::Rc;

/// The relation on one track, over the system and under the name, that holds of one number alone, by
/// the step `const` as the next one. The width and the cost are those of `constant`.
///
/// # Errors
/// `States` if and only if the width passes the limit. The steps are as before then, also if memory runs out.
pub fn constant_step(
    alloc: Global,
    system: &Rc<System>,
    number: u64,
    name: &Name,
    steps: &mut Steps,
) -> Result<Relation, StepFault>
    ensures { DoesStep (relation_constant_step system.now.value number name.now) steps.old result steps.new }
{
    let names = vec![in alloc; name.copy(alloc)?]?;
    let systems = vec![in alloc; system.clone()?]?;
    let sealed = system.as_ref();
    is_sealed(sealed);
    let direction = sealed.direction();
    let language = sealed.language().as_ref();
    let _ = language.alphabet().tracks();
    match constant(alloc, language, direction, number, steps.begin(Kind::Const)) {
        Ok(Stepped { result, width }) => {
            steps.done(Kind::Const, width, result.states())?;
            Ok(Relation::from_parts(Tracked::of_canonical(result, names), systems))
        }
        Err(OpFault::States) => Err(StepFault::States(steps.next_number())),
        Err(_) => Err(StepFault::Memory),
    }
}
