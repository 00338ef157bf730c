//! Products of a chain, from the left.

ghost use Rattle.std.specs.Prelude.{◌<◌, length, IfOk};
ghost use Rattle.term_plans.specs.Makings.{plan_at};
ghost use Rattle.term_plans.specs.Planning.{Does};
ghost use Rattle.formula_plan.specs.FormulaPlanning.{AreOperandsWithin, IsPrefixWithin, operands_at, joined_prefix, chained_made};

use digit_tuple::faults::OutOfMemory;
use formula_parse::tree::Connective;
use term_plans::{Making, Planner};

/// What an operand makes, or what a chain makes so far, and the connective after it.
#[derive(Clone, Copy)]
pub(crate) struct Prefix {
    pub place: usize,
    pub connective: Connective,
}

/// An operand after what came before it.
fn joined(
    planner: &mut Planner,
    prefix: Option<Prefix>,
    operand: usize,
) -> Result<usize, OutOfMemory>
    requires prefix { IsPrefixWithin planner.old.plans prefix }
    requires operand { operand < length planner.old.plans }
    ensures { IfOk result (λ place. Does planner.old planner.new place (joined_prefix planner.old.plans prefix (plan_at planner.old.plans operand) planner.old.next)) }
{
    match prefix {
        None => Ok(operand),
        Some(prefix) => planner.make(Making::Joined(prefix.connective, prefix.place, operand)),
    }
}

/// The products of all operands of a chain, the last one given apart.
pub(crate) fn chained(
    planner: &mut Planner,
    operands: &[Prefix],
    last: usize,
) -> Result<usize, OutOfMemory>
    requires operands { AreOperandsWithin planner.old.plans operands.now }
    requires last { last < length planner.old.plans }
    ensures { IfOk result (λ place. Does planner.old planner.new place (chained_made planner.old.next (operands_at planner.old.plans operands.now) (plan_at planner.old.plans last))) }
{
    let mut prefix = None;
    for operand in operands {
        let place = joined(planner, prefix, operand.place)?;
        prefix = Some(Prefix {
            place,
            connective: operand.connective,
        });
    }
    let place = joined(planner, prefix, last)?;
    Ok(place)
}
