//! How trees are made of their parts. Parentheses leave no mark, and a list of one is its item.

ghost use Rattle.std.specs.Prelude.{◌≡◌, IfOk};
ghost use Rattle.formula_parse.specs.Trees as trees;
ghost use Rattle.formula_parse.specs.Building as building;
ghost use Rattle.formula_parse.specs.Made.{trees as making};
ghost use Rattle.formula_parse.specs.Views.{term_view, terms_view, factor_view, factors_view, addends_view, formula_view, operands_view, names_view, sign_view, connective_view, quantifier_view, fact_view};
ghost use Rattle.formula_parse.specs.StateViews.{binding_view, tildes_view};

use crate::state::{Before, Binding, Scope};
use crate::tree::{
    Addend, Atom, Connective, Fact, Factor, Formula, Index, Operand, Quantifier, Sign, Term,
};
use digit_tuple::faults::OutOfMemory;
use digit_tuple::name::Name;
use std::alloc::Global;

/// The product of some factors and a last one, which is a term.
#[tactic(auto, using(crate::proofs::MakingSteps::multiplied_none, crate::proofs::MakingSteps::multiplied_more))]
fn times(mut factors: Vec<Factor>, last: Term) -> Result<Term, OutOfMemory>
    ensures { IfOk result (λ t. term_view t ≡ building.multiplied (trees.factors (factors_view factors.items) (trees.times (term_view last)))) }
{
    if factors.is_empty() {
        return Ok(last);
    }
    factors.push(Factor::Times(last))?;
    Ok(Term::Product(factors))
}

/// The product of some factors and a last divisor.
#[tactic(auto, using(crate::proofs::MakingSteps::multiplied_divided))]
fn divided(mut factors: Vec<Factor>, last: u64) -> Result<Term, OutOfMemory>
    ensures { IfOk result (λ t. term_view t ≡ building.multiplied (trees.factors (factors_view factors.items) (trees.divided last))) }
{
    factors.push(Factor::Divided(last))?;
    Ok(Term::Product(factors))
}

/// The product of some factors and the last.
#[tactic(auto, using(crate::proofs::ViewSteps::view_times, crate::proofs::ViewSteps::view_divided))]
pub fn multiplied(factors: Vec<Factor>, last: Factor) -> Result<Term, OutOfMemory>
    ensures { IfOk result (λ t. term_view t ≡ building.multiplied (trees.factors (factors_view factors.items) (factor_view last))) }
{
    match last {
        Factor::Times(term) => times(factors, term),
        Factor::Divided(divisor) => divided(factors, divisor),
    }
}

/// The factors with one more.
#[tactic(auto, using(crate::proofs::MakingSteps::factors_more))]
pub fn with_factor(mut factors: Vec<Factor>, factor: Factor) -> Result<Vec<Factor>, OutOfMemory>
    ensures { IfOk result (λ v. factors_view v.items ≡ trees.factors (factors_view factors.items) (factor_view factor)) }
{
    factors.push(factor)?;
    Ok(factors)
}

/// The sum of some addends and the last.
#[tactic(auto, using(crate::proofs::MakingSteps::summed_none, crate::proofs::MakingSteps::summed_more))]
pub fn summed(alloc: Global, addends: Vec<Addend>, last: Term) -> Result<Term, OutOfMemory>
    ensures { IfOk result (λ t. term_view t ≡ building.summed (addends_view addends.items) (term_view last)) }
{
    if addends.is_empty() {
        return Ok(last);
    }
    Ok(Term::Sum(addends, Box::new(alloc, last)?))
}

/// The addends with one more.
pub fn with_addend(
    mut addends: Vec<Addend>,
    term: Term,
    sign: Sign,
) -> Result<Vec<Addend>, OutOfMemory>
    ensures { IfOk result (λ v. addends_view v.items ≡ trees.addends (addends_view addends.items) (term_view term) (sign_view sign)) }
{
    addends.push(Addend { term, sign })?;
    Ok(addends)
}

/// The chain of some operands and the last.
#[tactic(auto, using(crate::proofs::MakingSteps::chained_none, crate::proofs::MakingSteps::chained_more))]
pub fn chained(alloc: Global, operands: Vec<Operand>, last: Formula) -> Result<Formula, OutOfMemory>
    ensures { IfOk result (λ f. formula_view f ≡ building.chained (operands_view operands.items) (formula_view last)) }
{
    if operands.is_empty() {
        return Ok(last);
    }
    Ok(Formula::Chain(operands, Box::new(alloc, last)?))
}

/// The operands with one more.
pub fn with_operand(
    mut operands: Vec<Operand>,
    formula: Formula,
    connective: Connective,
) -> Result<Vec<Operand>, OutOfMemory>
    ensures { IfOk result (λ v. operands_view v.items ≡ trees.operands (operands_view operands.items) (formula_view formula) (connective_view connective)) }
{
    operands.push(Operand {
        formula,
        connective,
    })?;
    Ok(operands)
}

/// A formula after some marks.
#[tactic(auto, using(crate::proofs::MakingSteps::marks_none, crate::proofs::MakingSteps::marks_more))]
pub fn under_marks(
    alloc: Global,
    marks: Vec<Name>,
    formula: Formula,
) -> Result<Formula, OutOfMemory>
    ensures { IfOk result (λ f. formula_view f ≡ building.under_marks (names_view marks.items) (formula_view formula)) }
{
    if marks.is_empty() {
        return Ok(formula);
    }
    Ok(Formula::Marked(marks, Box::new(alloc, formula)?))
}

/// The negation of a formula.
#[tactic(auto, using(crate::proofs::ViewSteps::view_negated))]
pub fn negated(alloc: Global, formula: Formula) -> Result<Formula, OutOfMemory>
    ensures { IfOk result (λ f. formula_view f ≡ trees.negated (formula_view formula)) }
{
    Ok(Formula::Negated(Box::new(alloc, formula)?))
}

/// A formula after some `~`, the last first, each with the marks before it.
pub fn under_tildes(
    alloc: Global,
    mut tildes: Vec<Vec<Name>>,
    formula: Formula,
) -> Result<Formula, OutOfMemory>
    ensures { IfOk result (λ f. formula_view f ≡ building.under_tildes (tildes_view tildes.items) (formula_view formula)) }
{
    match tildes.pop() {
        None => Ok(formula),
        Some(marks) => {
            let negated = negated(alloc, formula)?;
            let marked = under_marks(alloc, marks, negated)?;
            under_tildes(alloc, tildes, marked)
        }
    }
}

/// A fact in a system.
#[tactic(auto, using(crate::proofs::ViewSteps::view_atom))]
pub fn atom(alloc: Global, system: &Name, fact: Fact) -> Result<Formula, OutOfMemory>
    ensures { IfOk result (λ f. formula_view f ≡ building.in_system system.now (fact_view fact)) }
{
    let Ok(system) = system.copy(alloc) else {
        drop(fact);
        return Err(OutOfMemory);
    };
    Ok(Formula::Atom(Atom { system, fact }))
}

/// The names with one more.
pub fn with_name(mut names: Vec<Name>, name: Name) -> Result<Vec<Name>, OutOfMemory>
    ensures { IfOk result (λ v. names_view v.items ≡ trees.names (names_view names.items) name) }
{
    names.push(name)?;
    Ok(names)
}

impl Binding {
    fn quantifier(&self) -> Quantifier
        ensures { quantifier_view result ≡ building.quantifier_of (binding_view self.now) }
    {
        match self {
            Binding::Exists(_) => Quantifier::Exists,
            Binding::ForAll(_) => Quantifier::ForAll,
            Binding::Infinite => Quantifier::Infinite,
        }
    }

    /// The variables before the last.
    fn names(self, alloc: Global) -> Vec<Name>
        ensures { names_view result.items ≡ building.names_of (binding_view self) }
    {
        match self {
            Binding::Exists(names) => names,
            Binding::ForAll(names) => names,
            Binding::Infinite => Vec::new(alloc),
        }
    }
}

/// A quantifier's formula.
#[tactic(auto, using(crate::proofs::ViewSteps::view_quantified))]
fn under_quantifier(alloc: Global, scope: Scope, formula: Formula) -> Result<Formula, OutOfMemory>
    ensures { IfOk result (λ f. formula_view f ≡ trees.quantified (building.quantifier_of (binding_view scope.binding))
        (trees.names (building.names_of (binding_view scope.binding)) scope.last) (formula_view formula)) }
{
    let inner = Box::new(alloc, formula)?;
    let Scope { binding, last } = scope;
    let quantifier = binding.quantifier();
    let names = with_name(binding.names(alloc), last)?;
    Ok(Formula::Quantified(quantifier, names, inner))
}

/// A quantifier's formula, with the marks and `~` before it.
pub fn quantified(
    alloc: Global,
    before: Before,
    scope: Scope,
    formula: Formula,
) -> Result<Formula, OutOfMemory>
    ensures { IfOk result (λ f. formula_view f ≡ making.quantified
        (tildes_view before.tildes.items) (names_view before.marks.items)
        (binding_view scope.binding) scope.last (formula_view formula)) }
{
    let quantified = under_quantifier(alloc, scope, formula)?;
    let marked = under_marks(alloc, before.marks, quantified)?;
    let whole = under_tildes(alloc, before.tildes, marked)?;
    Ok(whole)
}

/// A word at some positions and a last one.
pub fn index(word: Name, mut places: Vec<Term>, last: Term) -> Result<Index, OutOfMemory>
    ensures word { IfOk result (λ x. x.word ≡ word) }
    ensures places { IfOk result (λ x. terms_view x.places.items ≡ trees.terms (terms_view places.items) (term_view last)) }
{
    places.push(last)?;
    Ok(Index { word, places })
}
