//! Plans of formulas.

ghost use Rattle.std.specs.Prelude.{◌++◌, IfOk};
ghost use Rattle.formula_parse.specs.Views.{formula_view};
ghost use Rattle.formula_plan.specs.FormulaPlans.{plan_of};
ghost use Rattle.formula_plan.specs.OwnNames.{own_of, HaveSame};
ghost use Rattle.term_plans.specs.Planning.{Does};
ghost use Rattle.formula_plan.specs.FactPlanning.{headers_of};

use crate::chains::{Prefix, chained};
use crate::facts::stated;
use crate::free_names::FreeNames;
use crate::names::add_fact;
use crate::quantifiers::{Binding, complement, quantified};
use digit_tuple::faults::OutOfMemory;
use formula_parse::tree::Formula;
use formula_resolve::Headers;
use term_plans::Planner;

/// The plan of a formula; its free variables are added to the set. Calls go no deeper than the nesting
/// of the formula.
pub(crate) fn planned(
    planner: &mut Planner,
    headers: &Headers,
    formula: &Formula,
    free: &mut FreeNames,
) -> Result<usize, OutOfMemory>
    ensures plan { IfOk result (λ place. Does planner.old planner.new place (plan_of (headers_of headers.now) (formula_view formula.now) planner.old.next)) }
    ensures names { IfOk result (λ _. HaveSame free.new (free.old ++ own_of (formula_view formula.now))) }
{
    match formula {
        Formula::Atom(atom) => {
            add_fact(free, &atom.fact)?;
            let said = stated(planner, headers, &atom.system, &atom.fact)?;
            Ok(said)
        }
        Formula::Negated(inside) => {
            let place = planned(planner, headers, inside, free)?;
            let denied = complement(planner, place)?;
            Ok(denied)
        }
        Formula::Chain(operands, last) => {
            let mut made = Vec::new(planner.alloc);
            for operand in operands {
                let place = planned(planner, headers, &operand.formula, free)?;
                made.push(Prefix {
                    place,
                    connective: operand.connective,
                })?;
            }
            let end = planned(planner, headers, last, free)?;
            let product = chained(planner, &made, end)?;
            Ok(product)
        }
        Formula::Quantified(quantifier, variables, inside) => {
            let mut inner = FreeNames::new(planner.alloc);
            let place = planned(planner, headers, inside, &mut inner)?;
            let binding = Binding {
                quantifier: *quantifier,
                variables,
                formula: inside,
                headers,
            };
            let closed = quantified(planner, binding, place, &mut inner)?;
            free.add_all(inner)?;
            Ok(closed)
        }
        Formula::Marked(_, inside) => {
            let marked = planned(planner, headers, inside, free)?;
            Ok(marked)
        }
    }
}
