//! Projections of relations.

ghost use Rattle.std.specs.List.{Contains};
ghost use Rattle.automaton_steps.specs.Makings.{DoesStep};
ghost use Rattle.number_relations.specs.Projections.{relation_project_step};

use crate::placed::systems_for;
use crate::relation::Relation;
use automaton_steps::project_step::project_step as project_automaton;
use digit_tuple::name::Name;
use digit_tuple::names::names_without;
use digit_tuple::step_fault::StepFault;
use digit_tuple::steps::Steps;
use num_system::tracks::direction_of;
use std::alloc::Global;

/// The relation that holds of numbers on the other tracks where some number on the track of this name
/// completes them, by the step `project` as the next one. There is such a track. The width and the cost
/// are those of the step on automata, in the direction of the tracks.
///
/// # Errors
/// `Letters` if and only if the tracks that stay have too many letters, looked at first; `States` if and only if the
/// width passes the limit. The steps are as before then, also if memory runs out.
pub fn project_step(
    alloc: Global,
    argument: &Relation,
    track: &Name,
    steps: &mut Steps,
) -> Result<Relation, StepFault>
    requires there { Contains argument.now.names track.now }
    ensures { DoesStep (relation_project_step track.now argument.now) steps.old result steps.new }
{
    let names = names_without(alloc, argument.names(), track)?;
    let systems = systems_for(alloc, argument.systems(), argument.names(), &names)?;
    let direction = direction_of(argument.systems());
    let projected = project_automaton(alloc, argument.tracked(), track, direction, steps)?;
    Ok(Relation::from_parts(projected, systems))
}
