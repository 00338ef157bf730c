//! Quantified variables, from the last to the first.

ghost use Rattle.std.specs.Prelude.{◌≡◌, ◌<◌, length, IfOk};
ghost use Rattle.formula_parse.specs.Views.{formula_view, names_view, quantifier_view};
ghost use Rattle.term_plans.specs.Plans.{complement as complement_of, tracks};
ghost use Rattle.formula_plan.specs.FormulaPlans.{kept, for_some, for_every, for_infinitely as infinitely, for_infinitely_many as infinitely_many, quantified_made};
ghost use Rattle.formula_plan.specs.FactPlanning.{headers_of};
ghost use Rattle.term_plans.specs.Makings.{plan_at};
ghost use Rattle.formula_plan.specs.OwnNames.{has_name, without_name, without_all, HaveSame};
ghost use Rattle.term_plans.specs.Planning.{Does, base_made, step_made};
ghost use Rattle.formula_plan.specs.FormulaPlanning.{AgreeOn, projected_where, infinitely_if};

use crate::free_names::FreeNames;
use digit_tuple::faults::OutOfMemory;
use digit_tuple::name::Name;
use formula_parse::tree::{Formula, Quantifier, Relation};
use formula_resolve::{Headers, free_system};
use std::alloc::Global;
use term_plans::{Making, Planner, Track};

/// By the step `complement`.
pub(crate) fn complement(planner: &mut Planner, place: usize) -> Result<usize, OutOfMemory>
    requires { place < length planner.old.plans }
    ensures { IfOk result (λ to. Does planner.old planner.new to (step_made (complement_of (plan_at planner.old.plans place)) planner.old.next)) }
{
    planner.make(Making::Complement(place))
}

/// A variable projected, where it is free; it is free no longer then.
fn project(
    planner: &mut Planner,
    variable: &Name,
    place: usize,
    free: &mut FreeNames,
) -> Result<usize, OutOfMemory>
    requires { place < length planner.old.plans }
    ensures plan { IfOk result (λ to. Does planner.old planner.new to (projected_where (has_name free.old variable.now) variable.now (plan_at planner.old.plans place) planner.old.next)) }
    ensures names { IfOk result (λ _. HaveSame free.new (without_name variable.now free.old)) }
{
    if !free.has(variable) {
        return Ok(place);
    }
    free.remove(variable);
    let track = Track::Own(variable.copy(planner.alloc)?);
    planner.make(Making::Projected(track, place))
}

/// Those of some variables that are free projected, from the last to the first.
fn project_all(
    planner: &mut Planner,
    variables: &[Name],
    place: usize,
    free: &mut FreeNames,
) -> Result<usize, OutOfMemory>
    requires place { place < length planner.old.plans }
    requires free { AgreeOn (plan_at planner.old.plans place) free.old }
    ensures plan { IfOk result (λ to. Does planner.old planner.new to (for_some (kept (names_view variables.now) (tracks (plan_at planner.old.plans place))) (base_made (plan_at planner.old.plans place) planner.old.next))) }
    ensures names { IfOk result (λ _. HaveSame free.new (without_all (names_view variables.now) free.old)) }
{
    let mut rest = variables;
    let mut to = place;
    while let Some((variable, before)) = rest.split_last() {
        to = project(planner, variable, to, free)?;
        rest = before;
    }
    Ok(to)
}

/// A quantifier with its variables and the formula that it takes, and the headers of the names in it.
#[derive(Clone, Copy)]
pub(crate) struct Binding<'a> {
    pub quantifier: Quantifier,
    pub variables: &'a [Name],
    pub formula: &'a Formula,
    pub headers: &'a Headers,
}

/// A quantifier with its variables.
pub(crate) fn quantified(
    planner: &mut Planner,
    binding: Binding<'_>,
    place: usize,
    free: &mut FreeNames,
) -> Result<usize, OutOfMemory>
    requires place { place < length planner.old.plans }
    requires free { AgreeOn (plan_at planner.old.plans place) free.old }
    ensures plan { IfOk result (λ to. Does planner.old planner.new to (quantified_made (quantifier_view binding.entry.quantifier) ((headers_of binding.entry.headers.now).of_variable (formula_view binding.entry.formula.now)) (names_view binding.entry.variables.now) (base_made (plan_at planner.old.plans place) planner.old.next))) }
    ensures names { IfOk result (λ _. HaveSame free.new (without_all (names_view binding.entry.variables.now) free.old)) }
{
    match binding.quantifier {
        Quantifier::Exists => project_all(planner, binding.variables, place, free),
        Quantifier::ForAll => for_all(planner, binding.variables, place, free),
        Quantifier::Infinite => for_infinitely_many(planner, binding, place, free),
    }
}

/// `A` with its variables: where one of them is free a complement, the projections, a complement.
fn for_all(
    planner: &mut Planner,
    variables: &[Name],
    place: usize,
    free: &mut FreeNames,
) -> Result<usize, OutOfMemory>
    requires place { place < length planner.old.plans }
    requires free { AgreeOn (plan_at planner.old.plans place) free.old }
    ensures plan { IfOk result (λ to. Does planner.old planner.new to (for_every (kept (names_view variables.now) (tracks (plan_at planner.old.plans place))) (base_made (plan_at planner.old.plans place) planner.old.next))) }
    ensures names { IfOk result (λ _. HaveSame free.new (without_all (names_view variables.now) free.old)) }
{
    if !free.has_any(variables) {
        return project_all(planner, variables, place, free);
    }
    let inside = complement(planner, place)?;
    let projected = project_all(planner, variables, inside, free)?;
    let outside = complement(planner, projected)?;
    Ok(outside)
}

/// The system of a variable at its first free occurrence; the one without a name where there is none.
fn system_of(alloc: Global, binding: Binding<'_>, variable: &Name) -> Result<Name, OutOfMemory>
    ensures { IfOk result (λ system. system ≡ (headers_of binding.entry.headers.now).of_variable (formula_view binding.entry.formula.now) variable.now) }
{
    match free_system(alloc, binding.formula, binding.headers, variable)? {
        Some(system) => Ok(system),
        None => Ok(Name::new(alloc, "")?),
    }
}

/// For infinitely many numbers of a variable in a system.
fn for_infinitely(
    planner: &mut Planner,
    system: &Name,
    variable: &Name,
    place: usize,
) -> Result<usize, OutOfMemory>
    requires { place < length planner.old.plans }
    ensures { IfOk result (λ to. Does planner.old planner.new to (infinitely system.now variable.now (base_made (plan_at planner.old.plans place) planner.old.next))) }
{
    let bound = Track::Fresh(planner.fresh()?);
    let own = Track::Own(variable.copy(planner.alloc)?);
    let less = planner.compared(system, Relation::Less, &bound, &own)?;
    let above = planner.link(place, less, &own)?;
    let none_above = complement(planner, above)?;
    let bounded = planner.make(Making::Projected(bound, none_above))?;
    let unbounded = complement(planner, bounded)?;
    Ok(unbounded)
}

/// A variable of `I`, where it is free; it is free no longer then.
fn infinitely_where(
    planner: &mut Planner,
    binding: Binding<'_>,
    name: &Name,
    place: usize,
    free: &mut FreeNames,
) -> Result<usize, OutOfMemory>
    requires { place < length planner.old.plans }
    ensures plan { IfOk result (λ to. Does planner.old planner.new to (infinitely_if (has_name free.old name.now) ((headers_of binding.entry.headers.now).of_variable (formula_view binding.entry.formula.now) name.now) name.now (plan_at planner.old.plans place) planner.old.next)) }
    ensures names { IfOk result (λ _. HaveSame free.new (without_name name.now free.old)) }
{
    if !free.has(name) {
        return Ok(place);
    }
    free.remove(name);
    let system = system_of(planner.alloc, binding, name)?;
    let made = for_infinitely(planner, &system, name, place)?;
    Ok(made)
}

/// `I` with its variables, from the last to the first.
fn for_infinitely_many(
    planner: &mut Planner,
    binding: Binding<'_>,
    place: usize,
    free: &mut FreeNames,
) -> Result<usize, OutOfMemory>
    requires place { place < length planner.old.plans }
    requires free { AgreeOn (plan_at planner.old.plans place) free.old }
    ensures plan { IfOk result (λ to. Does planner.old planner.new to (infinitely_many ((headers_of binding.entry.headers.now).of_variable (formula_view binding.entry.formula.now)) (names_view binding.entry.variables.now) (base_made (plan_at planner.old.plans place) planner.old.next))) }
    ensures names { IfOk result (λ _. HaveSame free.new (without_all (names_view binding.entry.variables.now) free.old)) }
{
    let mut rest = binding.variables;
    let mut to = place;
    while let Some((last, before)) = rest.split_last() {
        to = infinitely_where(planner, binding, last, to, free)?;
        rest = before;
    }
    Ok(to)
}
