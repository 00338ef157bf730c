//! Plans of several terms, one after another: the arguments of an automaton, or the indices of a word.

ghost use Rattle.std.specs.Prelude.{ℕ, List, [], slice_index_or, IfOk};
ghost use Rattle.formula_parse.specs.Views.{term_view, terms_view};
ghost use Rattle.term_plans.specs.TermPlans.{term_plan};
ghost use Rattle.term_plans.specs.ArgumentPlans.{argument_plans};
ghost use Rattle.term_plans.specs.Planning.{DoesTerm, DoesTerms};

use crate::planner::{Placed, Planner};
use crate::terms::term;
use digit_tuple::faults::OutOfMemory;
use digit_tuple::name::Name;
use formula_parse::tree::Term;

/// The plan of a term in the system at an index. Past the last system, the system without a name is.
fn argument(
    planner: &mut Planner,
    systems: &[Name],
    index: usize,
    whole: &Term,
) -> Result<Placed, OutOfMemory>
    ensures { IfOk result (λ placed. DoesTerm planner.old planner.new placed (term_plan (slice_index_or systems.now index []) (term_view whole.now) planner.old.next)) }
{
    match systems.get(index) {
        Some(system) => term(planner, system, whole),
        None => {
            let nameless = Name::new(planner.alloc, "")?;
            term(planner, &nameless, whole)
        }
    }
}

/// The plans of terms, in the systems of the tracks that they are given to.
pub fn arguments(
    planner: &mut Planner,
    systems: &[Name],
    terms: &[Term],
) -> Result<Vec<Placed>, OutOfMemory>
    ensures { IfOk result (λ placed. DoesTerms planner.old planner.new placed.items (argument_plans systems.now (terms_view terms.now) planner.old.next)) }
{
    let mut placed = Vec::new(planner.alloc);
    for (i, whole) in terms.iter().enumerate() {
        let one = argument(planner, systems, i, whole)?;
        placed.push(one)?;
    }
    Ok(placed)
}
