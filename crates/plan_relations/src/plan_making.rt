//! Plans made, one after another.

ghost use Rattle.std.specs.Prelude.{◌≡◌, ◌<◌, length, filter};
ghost use Rattle.term_plans.specs.Plans.{is_step};
ghost use Rattle.term_plans.specs.Makings.{plan_at};
ghost use Rattle.plan_relations.specs.Building.{Builds};
ghost use Rattle.plan_relations.specs.KnownViews.{known_value};
ghost use Rattle.plan_relations.specs.Makings.{IsReady};
ghost use Rattle.plan_relations.specs.Parts.{AreParts};

use crate::known::Known;
use crate::making::make;
use crate::needed::needed_plans;
use digit_tuple::step_fault::StepFault;
use digit_tuple::steps::Steps;
use number_relations::relation::Relation;
use std::alloc::Global;
use term_plans::PlanList;

/// The relation that the plan at a place makes, by those plans of the list that are steps, in their order.
/// All of them are parts of it. The names that it has mean something: the plan is ready (`IsReady`).
///
/// Each plan that is needed is made once, by the call of its kind, in whose time and memory it is made.
///
/// # Errors
/// `Letters` and `States` exactly at the first step that passes a limit, with its number; letters are
/// looked at before states.
pub fn make_plans(
    alloc: Global,
    plans: &PlanList,
    last: usize,
    known: Known<'_>,
    steps: &mut Steps,
) -> Result<Relation, StepFault>
    requires place { last < length plans.now }
    requires parts { AreParts (filter is_step plans.now) (plan_at plans.now last) }
    requires ready { IsReady (known_value known) (plan_at plans.now last) }
    ensures { Builds (known_value known.entry) (filter is_step plans.now) (plan_at plans.now last) steps.old result steps.new }
{
    let makings = plans.makings();
    let needed = needed_plans(alloc, makings, last)?;
    let mut made = Vec::new(alloc);
    for (place, making) in makings.iter().enumerate() {
        let relation = if needed[place] {
            steps.part(place as u64 + 1, makings.len() as u64);
            make(alloc, making, &made, known, steps)?
        } else {
            Relation::truth(alloc, false)?
        };
        made.push(relation)?;
    }
    Ok(made.swap_remove(last))
}
