//! Plans of what atoms say.

ghost use Rattle.std.specs.Prelude.{◌≡◌, IfOk};
ghost use Rattle.formula_parse.specs.Views.{terms_view, index_view, relation_view, fact_view};
ghost use Rattle.formula_plan.specs.FactPlans.{letter_plan, mirrored as mirrored_relation, words_plan, fact_plan};
ghost use Rattle.term_plans.specs.Planning.{Does, DoesTerms};
ghost use Rattle.formula_plan.specs.FactPlanning.{headers_of, call_plan, index_plans};

use crate::comparisons::terms_compared;
use digit_tuple::faults::OutOfMemory;
use digit_tuple::name::Name;
use formula_parse::tree::{Fact, Index, Relation, Term};
use formula_resolve::Headers;
use term_plans::arguments::arguments;
use term_plans::{Placed, Planner, Reading};

/// The values of a word's indices.
fn indices(
    planner: &mut Planner,
    headers: &Headers,
    index: &Index,
) -> Result<Vec<Placed>, OutOfMemory>
    ensures { IfOk result (λ placed. DoesTerms planner.old planner.new placed.items (index_plans (headers_of headers.now) (index_view index.now) planner.old.next)) }
{
    let systems = headers.word_tracks(&index.word);
    let placed = arguments(planner, systems, &index.places)?;
    Ok(placed)
}

/// What an automaton says of terms.
fn called(
    planner: &mut Planner,
    headers: &Headers,
    name: &Name,
    terms: &[Term],
) -> Result<usize, OutOfMemory>
    ensures { IfOk result (λ place. Does planner.old planner.new place (call_plan (headers_of headers.now) name.now (terms_view terms.now) planner.old.next)) }
{
    let systems = headers.automaton_tracks(name);
    let placed = arguments(planner, systems, terms)?;
    let base = planner.called(name, &placed)?;
    let closed = planner.close_all(&placed, base)?;
    Ok(closed)
}

/// The letter of a word at indices, compared with a letter.
fn lettered(
    planner: &mut Planner,
    headers: &Headers,
    index: &Index,
    relation: Relation,
    letter: i32,
) -> Result<usize, OutOfMemory>
    ensures { IfOk result (λ place. Does planner.old planner.new place (letter_plan (headers_of headers.now) (index_view index.now) (relation_view relation) letter planner.old.next)) }
{
    let placed = indices(planner, headers, index)?;
    let reading = Reading {
        word: &index.word,
        places: &placed,
    };
    let base = planner.lettered(reading, relation, letter)?;
    let closed = planner.close_all(&placed, base)?;
    Ok(closed)
}

/// The letters of two words, compared: the step of their product comes after the steps of all indices.
fn paired(
    planner: &mut Planner,
    headers: &Headers,
    first: &Index,
    relation: Relation,
    second: &Index,
) -> Result<usize, OutOfMemory>
    ensures { IfOk result (λ place. Does planner.old planner.new place (words_plan (headers_of headers.now) (index_view first.now) (relation_view relation) (index_view second.now) planner.old.next)) }
{
    let left = indices(planner, headers, first)?;
    let right = indices(planner, headers, second)?;
    let one = Reading {
        word: &first.word,
        places: &left,
    };
    let other = Reading {
        word: &second.word,
        places: &right,
    };
    let base = planner.paired(one, relation, other)?;
    let half = planner.close_all(&left, base)?;
    let closed = planner.close_all(&right, half)?;
    Ok(closed)
}

/// The relation with its sides exchanged.
fn mirrored(relation: Relation) -> Relation
    ensures { relation_view result ≡ mirrored_relation (relation_view relation) }
{
    match relation {
        Relation::Equal => Relation::Equal,
        Relation::Unequal => Relation::Unequal,
        Relation::Less => Relation::Greater,
        Relation::Greater => Relation::Less,
        Relation::AtMost => Relation::AtLeast,
        Relation::AtLeast => Relation::AtMost,
    }
}

/// The plan of what an atom of a system says.
pub(crate) fn stated(
    planner: &mut Planner,
    headers: &Headers,
    system: &Name,
    fact: &Fact,
) -> Result<usize, OutOfMemory>
    ensures { IfOk result (λ place. Does planner.old planner.new place (fact_plan (headers_of headers.now) system.now (fact_view fact.now) planner.old.next)) }
{
    match fact {
        Fact::Compare(first, relation, second) => {
            terms_compared(planner, system, first, *relation, second)
        }
        Fact::Words(first, relation, second) => paired(planner, headers, first, *relation, second),
        Fact::WordLetter(index, relation, letter) => {
            lettered(planner, headers, index, *relation, *letter)
        }
        Fact::LetterWord(letter, relation, index) => {
            lettered(planner, headers, index, mirrored(*relation), *letter)
        }
        Fact::Call(name, terms) => called(planner, headers, name, terms),
    }
}
