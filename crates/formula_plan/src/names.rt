//! The free variables of atoms: those whose own tracks are among the tracks of the plan.

ghost use Rattle.std.specs.Prelude.{◌++◌, IfOk};
ghost use Rattle.formula_parse.specs.Views.{term_view, terms_view, factor_view, fact_view};
ghost use Rattle.formula_plan.specs.OwnNames.{own_names, own_among, own_there, HaveSame};
ghost use Rattle.term_plans.specs.TermPlanning.{term_of};

use crate::free_names::FreeNames;
use digit_tuple::faults::OutOfMemory;
use formula_parse::tree::{Fact, Factor, Term};
use term_plans::other_factor;

/// Adds the variables of the term that a factor multiplies by.
#[tactic(auto, using(formula_parse::proofs::ViewSteps::view_times, formula_parse::proofs::ViewSteps::view_divided))]
#[cycle(names)]
fn add_factor(free: &mut FreeNames, factor: &Factor) -> Result<(), OutOfMemory>
    ensures { IfOk result (λ _. HaveSame free.new (free.old ++ own_names (term_of (factor_view factor.now)))) }
{
    match factor {
        Factor::Times(inside) => add_term(free, inside),
        Factor::Divided(_) => Ok(()),
    }
}

/// Adds the variables of a term.
#[cycle(names)]
fn add_term(free: &mut FreeNames, term: &Term) -> Result<(), OutOfMemory>
    ensures { IfOk result (λ _. HaveSame free.new (free.old ++ own_names (term_view term.now))) }
{
    match term {
        Term::Variable(name) => free.add(name),
        Term::Numeral(_) => Ok(()),
        Term::Product(factors) => match other_factor(factors) {
            Some(i) => add_factor(free, &factors[i]),
            None => Ok(()),
        },
        Term::Sum(addends, last) => {
            for addend in addends {
                add_term(free, &addend.term)?;
            }
            add_term(free, last)
        }
    }
}

/// Adds the variables of several terms.
fn add_terms(free: &mut FreeNames, terms: &[Term]) -> Result<(), OutOfMemory>
    ensures { IfOk result (λ _. HaveSame free.new (free.old ++ own_among (terms_view terms.now))) }
{
    for term in terms {
        add_term(free, term)?;
    }
    Ok(())
}

/// Adds the variables of what an atom says.
pub(crate) fn add_fact(free: &mut FreeNames, fact: &Fact) -> Result<(), OutOfMemory>
    ensures { IfOk result (λ _. HaveSame free.new (free.old ++ own_there (fact_view fact.now))) }
{
    match fact {
        Fact::Compare(first, _, second) => {
            add_term(free, first)?;
            add_term(free, second)
        }
        Fact::Words(first, _, second) => {
            add_terms(free, &first.places)?;
            add_terms(free, &second.places)
        }
        Fact::WordLetter(index, _, _) => add_terms(free, &index.places),
        Fact::LetterWord(_, _, index) => add_terms(free, &index.places),
        Fact::Call(_, terms) => add_terms(free, terms),
    }
}
