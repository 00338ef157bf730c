//! Plans of terms.

ghost use Rattle.std.specs.Prelude.{◌≡◌, ℕ, List, map, None, IfOk};
ghost use Rattle.std.specs.Option.{option_map};
ghost use Rattle.formula_parse.specs.Tokens.{Name as Named};
ghost use Rattle.formula_parse.specs.Views.{term_view, factor_view, factors_view, sign_view};
ghost use Rattle.term_plans.specs.TermPlans.{begun, factor_plans, sum_relation, term_plan};
ghost use Rattle.term_plans.specs.Makings.{track_view};
ghost use Rattle.term_plans.specs.Planning.{Does, DoesTerm, IsWithin, base_made, placed_at};
ghost use Rattle.term_plans.specs.TermPlanning.{scaling_in, scaling_view, Begins, IsOther, IsSumWithin, sum_of, term_of};

use crate::multiples::{Scaling, numeral, scaled_by_all};
use crate::planner::{Placed, Planner};
use crate::track::Track;
use digit_tuple::faults::OutOfMemory;
use digit_tuple::name::Name;
use formula_parse::tree::{Factor, Sign, Term};
use std::alloc::Global;

/// A sum so far, and the sign after it.
#[derive(Drop)]
pub(crate) struct Before {
    pub sum: Placed,
    pub sign: Sign,
}

/// The scaling that a factor is, if it is a numeral or a divisor.
#[tactic(auto, using(formula_parse::proofs::ViewSteps::view_times, formula_parse::proofs::ViewSteps::view_divided, formula_parse::proofs::ViewSteps::view_numeral, formula_parse::proofs::ViewSteps::view_variable, formula_parse::proofs::ViewSteps::view_product, formula_parse::proofs::ViewSteps::view_sum))]
fn scaling_of(factor: &Factor) -> Option<Scaling>
    ensures { scaling_in (factor_view factor.now) ≡ option_map scaling_view result }
{
    match factor {
        Factor::Divided(divisor) => Some(Scaling::Over(*divisor)),
        Factor::Times(Term::Numeral(number)) => Some(Scaling::Times(*number)),
        Factor::Times(Term::Variable(_)) => None,
        Factor::Times(Term::Product(_)) => None,
        Factor::Times(Term::Sum(..)) => None,
    }
}

/// The index of the factor that is neither a numeral nor a divisor; of the last one, where there are several.
pub fn other_factor(factors: &[Factor]) -> Option<usize>
    ensures { IsOther factors.now result }
{
    let mut other = None;
    for (i, factor) in factors.iter().enumerate() {
        if scaling_of(factor).is_none() {
            other = Some(i);
        }
    }
    other
}

/// The numerals and divisors among the factors, in their order.
fn scalings(alloc: Global, factors: &[Factor]) -> Result<Vec<Scaling>, OutOfMemory>
    ensures { IfOk result (λ found. (s : Named) → (factor_plans s (factors_view factors.now)).scalings ≡ map scaling_view found.items) }
{
    let mut found = Vec::new(alloc);
    for factor in factors {
        if let Some(scaling) = scaling_of(factor) {
            found.push(scaling)?;
        }
    }
    Ok(found)
}

/// The numeral that a product without another factor begins with, and what scales it: its first numeral, or 1.
fn first_numeral(scalings: &[Scaling]) -> (u64, &[Scaling])
    ensures { Begins scalings.now result.0 result.1.now }
{
    let Some((first, rest)) = scalings.split_first() else {
        return (1, scalings);
    };
    match first {
        Scaling::Times(number) => (*number, rest),
        Scaling::Over(_) => (1, scalings),
    }
}

/// A product without another factor: it begins with its first numeral, or with 1.
fn numeral_product(
    planner: &mut Planner,
    system: &Name,
    scalings: &[Scaling],
) -> Result<Placed, OutOfMemory>
    ensures { IfOk result (λ placed. DoesTerm planner.old planner.new placed (begun system.now None (map scaling_view scalings.now) planner.old.next)) }
{
    let (first, rest) = first_numeral(scalings);
    let value = numeral(planner, system, first)?;
    scaled_by_all(planner, system, value, rest)
}

/// Two tracks and the track of their sum, or of their difference.
fn sum_base(
    planner: &mut Planner,
    system: &Name,
    before: &Before,
    value: &Track,
    sum: &Track,
) -> Result<usize, OutOfMemory>
    ensures { IfOk result (λ place. Does planner.old planner.new place (base_made (sum_relation system.now (sign_view before.now.sign) (track_view before.now.sum.track) (track_view value.now) (track_view sum.now)) planner.old.next)) }
{
    match before.sign {
        Sign::Plus => planner.added(system, &before.sum.track, value, sum),
        Sign::Minus => planner.added(system, value, sum, &before.sum.track),
    }
}

/// A value after what came before it: their sum or difference, on a fresh track.
fn added(
    planner: &mut Planner,
    system: &Name,
    before: Option<Before>,
    value: Placed,
) -> Result<Placed, OutOfMemory>
    requires before { IsSumWithin planner.old.plans before }
    requires value { IsWithin planner.old.plans value.relation }
    ensures { IfOk result (λ placed. DoesTerm planner.old planner.new placed (sum_of system.now planner.old.plans before (placed_at planner.old.plans value) planner.old.next)) }
{
    let Some(before) = before else {
        return Ok(value);
    };
    let track = Track::Fresh(planner.fresh()?);
    let base = sum_base(planner, system, &before, &value.track, &track)?;
    let half = planner.close(&before.sum, base)?;
    let closed = planner.close(&value, half)?;
    Ok(Placed {
        track,
        relation: Some(closed),
    })
}

/// The plan of the term that a factor multiplies by; of a divisor that of its numeral.
#[tactic(auto, using(formula_parse::proofs::ViewSteps::view_times, formula_parse::proofs::ViewSteps::view_divided))]
#[cycle(terms)]
fn term_of_factor(
    planner: &mut Planner,
    system: &Name,
    factor: &Factor,
) -> Result<Placed, OutOfMemory>
    ensures { IfOk result (λ placed. DoesTerm planner.old planner.new placed (term_plan system.now (term_of (factor_view factor.now)) planner.old.next)) }
{
    match factor {
        Factor::Times(inside) => term(planner, system, inside),
        Factor::Divided(divisor) => numeral(planner, system, *divisor),
    }
}

/// The plan of a term: where its value is. Calls go no deeper than the nesting of the term.
#[cycle(terms)]
pub fn term(planner: &mut Planner, system: &Name, whole: &Term) -> Result<Placed, OutOfMemory>
    ensures { IfOk result (λ placed. DoesTerm planner.old planner.new placed (term_plan system.now (term_view whole.now) planner.old.next)) }
{
    match whole {
        Term::Variable(name) => {
            let name = name.copy(planner.alloc)?;
            Ok(Placed {
                track: Track::Own(name),
                relation: None,
            })
        }
        Term::Numeral(number) => numeral(planner, system, *number),
        Term::Product(factors) => {
            let found = scalings(planner.alloc, factors)?;
            match other_factor(factors) {
                Some(i) => {
                    let first = term_of_factor(planner, system, &factors[i])?;
                    scaled_by_all(planner, system, first, &found)
                }
                None => numeral_product(planner, system, &found),
            }
        }
        Term::Sum(addends, last) => {
            let mut before = None;
            for addend in addends {
                let value = term(planner, system, &addend.term)?;
                let sum = added(planner, system, before, value)?;
                before = Some(Before {
                    sum,
                    sign: addend.sign,
                });
            }
            let value = term(planner, system, last)?;
            added(planner, system, before, value)
        }
    }
}
