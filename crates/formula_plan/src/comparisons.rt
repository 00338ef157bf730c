//! Plans of two terms compared.

ghost use Rattle.std.specs.Prelude.{◌≡◌, ℕ, IfOk};
ghost use Rattle.formula_parse.specs.Views.{term_view, relation_view};
ghost use Rattle.term_plans.specs.TermPlans.{term_plan};
ghost use Rattle.formula_plan.specs.FactPlans.{as_variable, is_equal, form_by, named as named_plan, named_by, compare_by, long};
ghost use Rattle.term_plans.specs.Makings.{track_view};
ghost use Rattle.term_plans.specs.Planning.{Does, IsWithin, base_made, placed_at};
ghost use Rattle.formula_plan.specs.FactPlanning.{IsForm, IsNameOf};

use digit_tuple::faults::OutOfMemory;
use digit_tuple::name::Name;
use formula_parse::tree::{Relation, Term};
use term_plans::{Making, Placed, Planner, Track, term};

/// The sides of an equation of a variable and a term that is none.
#[derive(Clone, Copy)]
pub(crate) struct Short<'a> {
    pub name: &'a Name,
    pub term: &'a Term,
}

/// The name of the variable that a term is, if it is one.
#[tactic(auto, using(formula_parse::proofs::ViewSteps::view_numeral, formula_parse::proofs::ViewSteps::view_variable, formula_parse::proofs::ViewSteps::view_product, formula_parse::proofs::ViewSteps::view_sum))]
fn variable_of(whole: &Term) -> Option<&Name>
    ensures { IsNameOf (as_variable (term_view whole.now)) result }
{
    match whole {
        Term::Variable(name) => Some(name),
        Term::Numeral(_) => None,
        Term::Product(_) => None,
        Term::Sum(..) => None,
    }
}

/// Whether the relation is `=`.
fn is_equation(relation: Relation) -> bool
    ensures { result ≡ is_equal (relation_view relation) }
{
    match relation {
        Relation::Equal => true,
        Relation::Unequal
        | Relation::Less
        | Relation::Greater
        | Relation::AtMost
        | Relation::AtLeast => false,
    }
}

/// The sides of a short equation, if it is one.
fn short_form<'a>(first: &'a Term, relation: Relation, second: &'a Term) -> Option<Short<'a>>
    ensures { IsForm (form_by (is_equal (relation_view relation)) (as_variable (term_view first.now)) (as_variable (term_view second.now))) first.now second.now result }
{
    if !is_equation(relation) {
        return None;
    }
    match variable_of(first) {
        Some(name) => match variable_of(second) {
            Some(_) => None,
            None => Some(Short { name, term: second }),
        },
        None => match variable_of(second) {
            Some(name) => Some(Short { name, term: first }),
            None => None,
        },
    }
}

/// A term's relation, its track under a variable's name.
fn renamed(
    planner: &mut Planner,
    system: &Name,
    name: &Name,
    placed: Placed,
) -> Result<usize, OutOfMemory>
    requires { IsWithin planner.old.plans placed.relation }
    ensures { IfOk result (λ place. Does planner.old planner.new place (base_made (named_by system.now name.now (placed_at planner.old.plans placed).track (placed_at planner.old.plans placed).relation) planner.old.next)) }
{
    let own = Track::Own(name.copy(planner.alloc)?);
    match placed.relation {
        None => planner.compared(system, Relation::Equal, &placed.track, &own),
        Some(relation) => planner.make(Making::Renamed(placed.track, own, relation)),
    }
}

/// An equation of a variable and a term that is none: the term's relation, its track under the
/// variable's name.
fn named(planner: &mut Planner, system: &Name, short: Short<'_>) -> Result<usize, OutOfMemory>
    ensures { IfOk result (λ place. Does planner.old planner.new place (named_plan system.now short.entry.name.now (term_plan system.now (term_view short.entry.term.now) planner.old.next))) }
{
    let placed = term(planner, system, short.term)?;
    let named = renamed(planner, system, short.name, placed)?;
    Ok(named)
}

/// Two values compared, and their tracks closed.
fn values_compared(
    planner: &mut Planner,
    system: &Name,
    first: &Term,
    relation: Relation,
    second: &Term,
) -> Result<usize, OutOfMemory>
    ensures { IfOk result (λ place. Does planner.old planner.new place (compare_by long system.now (term_view first.now) (relation_view relation) (term_view second.now) planner.old.next)) }
{
    let left = term(planner, system, first)?;
    let right = term(planner, system, second)?;
    let base = planner.compared(system, relation, &left.track, &right.track)?;
    let half = planner.close(&left, base)?;
    let closed = planner.close(&right, half)?;
    Ok(closed)
}

/// Two terms compared.
pub(crate) fn terms_compared(
    planner: &mut Planner,
    system: &Name,
    first: &Term,
    relation: Relation,
    second: &Term,
) -> Result<usize, OutOfMemory>
    ensures { IfOk result (λ place. Does planner.old planner.new place (compare_by (form_by (is_equal (relation_view relation)) (as_variable (term_view first.now)) (as_variable (term_view second.now))) system.now (term_view first.now) (relation_view relation) (term_view second.now) planner.old.next)) }
{
    match short_form(first, relation, second) {
        Some(short) => named(planner, system, short),
        None => values_compared(planner, system, first, relation, second),
    }
}
