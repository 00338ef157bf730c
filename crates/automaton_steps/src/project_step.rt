//! The step `project`.

ghost use Rattle.std.specs.List.{Contains};
ghost use Rattle.automaton_steps.specs.Makings.{DoesStep};
ghost use Rattle.automaton_steps.specs.ProjectSteps.{project_step as the_step};

use digit_tuple::direction::Direction;
use digit_tuple::faults::OpFault;
use digit_tuple::kind::Kind;
use digit_tuple::name::Name;
use digit_tuple::step_fault::StepFault;
use digit_tuple::stepped::Stepped;
use digit_tuple::steps::Steps;
use minimise::tracked::Tracked;
use project_close::projection::project;
use std::alloc::Global;

/// The words over the other tracks for which there is a value on the track of this name, by the step
/// `project` as the next one. The automaton has such a track. The width and the cost are those of
/// `project`.
///
/// # Errors
/// `Letters` if and only if the tracks that stay have too many letters, looked at first; `States` if and only if the
/// width passes the limit. The steps are as before then, also if memory runs out.
pub fn project_step(
    alloc: Global,
    argument: &Tracked,
    track: &Name,
    direction: Direction,
    steps: &mut Steps,
) -> Result<Tracked, StepFault>
    requires there { Contains argument.now.names track.now }
    ensures { DoesStep (the_step direction track.now argument.now) steps.old result steps.new }
{
    match project(
        alloc,
        argument,
        track,
        direction,
        steps.begin(Kind::Project),
    ) {
        Ok(Stepped { result, width }) => {
            steps.done(Kind::Project, width, result.dfa().states())?;
            Ok(result)
        }
        Err(OpFault::Letters) => Err(StepFault::Letters(steps.next_number())),
        Err(OpFault::States) => Err(StepFault::States(steps.next_number())),
        Err(OpFault::Memory) => Err(StepFault::Memory),
    }
}
