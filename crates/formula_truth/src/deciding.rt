//! Formulas whose quantifiers range over the numbers below a bound, decided by trying these.

ghost use Rattle.std.specs.Prelude.{◌↔◌, IsTrue, IfOk};
ghost use Rattle.formula_parse.specs.Views.{formula_view, quantifier_view};
ghost use Rattle.formula_truth.specs.Truth.{Holds};
ghost use Rattle.formula_truth.specs.Given.{assigned};
ghost use Rattle.formula_truth.specs.Bounded.{nothing, bounded, each_below, AfterChain};

use crate::facts::{fact_holds, joins};
use crate::fault::Undecided;
use crate::given::{Given, with_number};
use digit_tuple::name::Name;
use formula_parse::tree::{Connective, Formula, Quantifier};
use std::alloc::Global;

/// How many levels of formulas and quantified variables may be gone down.
const MOST_LEVELS: u32 = 1_000;

/// The truth of a chain so far, and the connective after it.
#[derive(Clone, Copy)]
pub(crate) struct Prefix {
    pub holds: bool,
    pub connective: Connective,
}

/// Numbers are tried for a list of variables; the rest of them is what is quantified over next.
#[derive(Clone, Copy)]
struct Trial<'a> {
    quantifier: Quantifier,
    names: &'a [Name],
    formula: &'a Formula,
}

/// Whether a formula without words and calls is true for the numbers that are given, its quantifiers
/// ranging over the numbers below a bound. A call and an atom with a word count as false. A variable
/// that is given no number has 0. Slow: each list of numbers below the bound is tried.
///
/// # Errors
/// `Large` where a sum or a product passes 64 bits, `Endless` where the quantifier `I` is met, `Deep` past 1,000
/// levels; no contract says so.
pub fn holds_below(
    alloc: Global,
    formula: &Formula,
    given: &[Given],
    bound: u64,
) -> Result<bool, Undecided>
    ensures { IfOk result (λ holds. IsTrue holds ↔ Holds nothing (bounded bound (formula_view formula.now)) (assigned given.now)) }
{
    holds(alloc, formula, given, bound, MOST_LEVELS)
}

/// The truth after what came before it in a chain.
fn after(prefix: Option<Prefix>, holds: bool) -> bool
    ensures { IsTrue result ↔ AfterChain prefix (IsTrue holds) }
{
    match prefix {
        None => holds,
        Some(prefix) => joins(prefix.connective, prefix.holds, holds),
    }
}

#[cycle(deciding)]
fn holds(
    alloc: Global,
    formula: &Formula,
    given: &[Given],
    bound: u64,
    levels: u32,
) -> Result<bool, Undecided>
    ensures { IfOk result (λ holds. IsTrue holds ↔ Holds nothing (bounded bound (formula_view formula.now)) (assigned given.now)) }
{
    if levels == 0 {
        return Err(Undecided::Deep);
    }
    match formula {
        Formula::Atom(atom) => fact_holds(&atom.fact, given, levels),
        Formula::Negated(inside) => {
            let is = holds(alloc, inside, given, bound, levels - 1)?;
            Ok(!is)
        }
        Formula::Chain(operands, last) => {
            let mut prefix = None;
            for operand in operands {
                let is = holds(alloc, &operand.formula, given, bound, levels - 1)?;
                prefix = Some(Prefix {
                    holds: after(prefix, is),
                    connective: operand.connective,
                });
            }
            let is = holds(alloc, last, given, bound, levels - 1)?;
            Ok(after(prefix, is))
        }
        Formula::Quantified(quantifier, names, inside) => {
            let trial = Trial {
                quantifier: *quantifier,
                names,
                formula: inside,
            };
            tried(alloc, trial, given, bound, levels - 1)
        }
        Formula::Marked(_, inside) => holds(alloc, inside, given, bound, levels - 1),
    }
}

#[cycle(deciding)]
fn tried(
    alloc: Global,
    trial: Trial<'_>,
    given: &[Given],
    bound: u64,
    levels: u32,
) -> Result<bool, Undecided>
    ensures { IfOk result (λ holds. IsTrue holds ↔ Holds nothing (each_below (quantifier_view trial.entry.quantifier) trial.entry.names.now bound (bounded bound (formula_view trial.entry.formula.now))) (assigned given.now)) }
{
    if levels == 0 {
        return Err(Undecided::Deep);
    }
    let Some((name, rest)) = trial.names.split_first() else {
        return holds(alloc, trial.formula, given, bound, levels - 1);
    };
    let inside = Trial {
        names: rest,
        ..trial
    };
    let wanted = match trial.quantifier {
        Quantifier::Exists => true,
        Quantifier::ForAll => false,
        Quantifier::Infinite => return Err(Undecided::Endless),
    };
    for number in 0..bound {
        let more = with_number(alloc, given, name, number)?;
        let is = tried(alloc, inside, &more, bound, levels - 1)?;
        if is == wanted {
            return Ok(wanted);
        }
    }
    Ok(!wanted)
}
