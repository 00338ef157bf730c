//! Which plans of a list are needed.

ghost use Rattle.std.specs.Prelude.{◌≡◌, ◌<◌, ℕ, List, true, length, IfOk, OnOk};
ghost use Rattle.std.specs.List.{Contains};
ghost use Rattle.term_plans.specs.Plans.{Plan};
ghost use Rattle.term_plans.specs.Makings.{AreMakingsOf, IsOf};
ghost use Rattle.plan_relations.specs.MadeOf.{AreNeeded, is_step_making, marked};

use digit_tuple::faults::OutOfMemory;
use std::alloc::Global;
use term_plans::Making;

/// For each plan of a list, made so, whether it is a step, the last one or a part of these.
pub(crate) fn needed_plans(
    alloc: Global,
    makings: &[Making],
    last: usize,
) -> Result<Vec<bool>, OutOfMemory>
    requires place { last < length makings.now }
    requires list { (plans : List Plan) × AreMakingsOf plans makings.now }
    ensures { IfOk result (λ needed. (plans : List Plan) → AreMakingsOf plans makings.now → AreNeeded plans makings.now last needed.items) }
{
    let mut needed = vec![in alloc; false; makings.len()]?;
    needed[last] = true;
    for place in (0..makings.len()).rev() {
        let making = &makings[place];
        if needed[place] || is_step(making) {
            needed[place] = true;
            mark_parts(&mut needed, making);
        }
    }
    Ok(needed)
}

// Whether the relation is made by a step.
fn is_step(making: &Making) -> bool
    ensures { result ≡ is_step_making making.now }
{
    matches!(
        making,
        Making::Constant(..)
            | Making::Joined(..)
            | Making::Paired(..)
            | Making::Complement(..)
            | Making::Projected(..)
    )
}

// Marks what a relation is made of.
fn mark_parts(needed: &mut Vec<bool>, making: &Making)
    requires { IsOf (length needed.old.items) making.now }
    ensures { needed.new.items ≡ marked needed.old.items making.now }
{
    match making {
        Making::Joined(_, first, second) => {
            needed[*first] = true;
            needed[*second] = true;
        }
        Making::Renamed(_, _, part) | Making::Complement(part) | Making::Projected(_, part) => {
            needed[*part] = true;
        }
        _ => {}
    }
}
