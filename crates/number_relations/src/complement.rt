//! Complements of relations.

ghost use Rattle.automaton_steps.specs.Makings.{DoesStep};
ghost use Rattle.number_relations.specs.Complements.{relation_complement_step};

use crate::placed::systems_for;
use crate::relation::Relation;
use automaton_steps::complement_step::complement_step as complement_automaton;
use digit_tuple::step_fault::StepFault;
use digit_tuple::steps::Steps;
use num_system::tracks::languages_of;
use std::alloc::Global;

/// The relation that holds of the tuples of numbers of which the other does not hold, by the step
/// `complement` as the next one. The tracks are the same. The width and the cost are those of the step
/// on automata.
///
/// # Errors
/// `States` if and only if the width passes the limit. The steps are as before then, also if memory runs out.
pub fn complement_step(
    alloc: Global,
    argument: &Relation,
    steps: &mut Steps,
) -> Result<Relation, StepFault>
    ensures { DoesStep (relation_complement_step argument.now) steps.old result steps.new }
{
    let names = argument.names();
    let systems = systems_for(alloc, argument.systems(), names, names)?;
    let languages = languages_of(alloc, &systems)?;
    let complement = complement_automaton(alloc, argument.tracked(), &languages, steps)?;
    Ok(Relation::from_parts(complement, systems))
}
