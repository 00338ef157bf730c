//! The plan of a formula.

ghost use Rattle.std.specs.Prelude.{◌<◌, ◌^◌, IfOk};
ghost use Rattle.formula_parse.specs.Views.{formula_view};
ghost use Rattle.formula_plan.specs.FormulaPlans.{plan_of};
ghost use Rattle.formula_plan.specs.FactPlanning.{headers_of};
ghost use Rattle.term_plans.specs.PlanLists.{IsPlanOf};

use crate::formulas::planned;
use crate::free_names::FreeNames;
use digit_tuple::faults::OutOfMemory;
use formula_parse::tree::Formula;
use formula_resolve::Headers;
use std::alloc::Global;
use term_plans::{PlanList, Planner};

/// The plan of a formula: a list of plans, and the place of that which the formula has.
#[derive(Drop)]
pub struct FormulaPlan {
    /// The plans, each made of earlier ones. Those that are steps are in the order of the steps.
    pub plans: PlanList,
    /// The place of what is made at last.
    pub last: usize,
}

/// The plan of a formula, where the tracks of automata and words have these systems. A track that the headers do not
/// say of has the system without a name.
///
/// It takes time in proportion to the length of the formula times its nesting times the logarithm of the
/// number of its variables, and memory in proportion to the length times the nesting. Calls go no deeper
/// than the nesting of the formula, and 128 deep for the multiples of a number.
///
/// # Errors
/// None apart from out of memory.
pub fn plan(alloc: Global, formula: &Formula, headers: &Headers) -> Result<FormulaPlan, OutOfMemory>
    ensures plan { IfOk result (λ p. IsPlanOf p.plans p.last (plan_of (headers_of headers.now) (formula_view formula.now) 0)) }
    ensures few { IfOk result (λ p. (plan_of (headers_of headers.now) (formula_view formula.now) 0).next < 2 ^ 64) }
{
    let mut planner = Planner {
        alloc,
        plans: PlanList::new(alloc),
        next: 0,
    };
    let mut free = FreeNames::new(alloc);
    let last = planned(&mut planner, headers, formula, &mut free)?;
    let _ = planner.next_fresh();
    Ok(FormulaPlan {
        plans: planner.plans,
        last,
    })
}
