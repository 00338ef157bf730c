//! The occurrences of variables in what an atom says.

ghost use Rattle.std.specs.Prelude.{◌≡◌, ◌++◌, OnOk};
ghost use Rattle.formula_parse.specs.Views.{term_view, factor_view, terms_view, atom_view};
ghost use Rattle.formula_resolve.specs.Headers.{word_tracks};
ghost use Rattle.formula_resolve.specs.Occurrences.{term_occurrences, factor_of, place_occurrences, track_occurrences, fact_occurrences};
ghost use Rattle.formula_resolve.specs.Scopes.{binders_of};

use crate::headers::Headers;
use crate::scope::Scope;
use digit_tuple::faults::OutOfMemory;
use digit_tuple::name::Name;
use formula_parse::tree::{Atom, Fact, Factor, Index, Term};
use std::alloc::Global;

/// An occurrence of a variable: its name, the number of the quantifier that binds it or 0, and the
/// system at its place.
#[derive(Drop)]
pub struct Occurrence {
    pub name: Name,
    pub binder: u64,
    pub system: Name,
}

/// Adds the occurrences in an atom.
pub(crate) fn add_atom(
    alloc: Global,
    atom: &Atom,
    headers: &Headers,
    scope: &Scope,
    found: &mut Vec<Occurrence>,
) -> Result<(), OutOfMemory>
    ensures { OnOk result (found.new.items ≡ found.old.items ++ fact_occurrences headers.now (binders_of scope.now) (atom_view atom.now).system (atom_view atom.now).fact) }
{
    match &atom.fact {
        Fact::Compare(first, _, second) => {
            add_term(alloc, first, &atom.system, scope, found)?;
            add_term(alloc, second, &atom.system, scope, found)
        }
        Fact::Words(first, _, second) => {
            add_index(alloc, first, headers, scope, found)?;
            add_index(alloc, second, headers, scope, found)
        }
        Fact::WordLetter(index, _, _) => add_index(alloc, index, headers, scope, found),
        Fact::LetterWord(_, _, index) => add_index(alloc, index, headers, scope, found),
        Fact::Call(name, arguments) => {
            add_places(
                alloc,
                arguments,
                headers.automaton_tracks(name),
                scope,
                found,
            )
        }
    }
}

/// Adds the occurrences in the places of a word, each over the system of its track.
fn add_index(
    alloc: Global,
    index: &Index,
    headers: &Headers,
    scope: &Scope,
    found: &mut Vec<Occurrence>,
) -> Result<(), OutOfMemory>
    ensures { OnOk result (found.new.items ≡ found.old.items ++ place_occurrences (word_tracks headers.now index.now.word) (binders_of scope.now) (terms_view index.now.places.items)) }
{
    let tracks = headers.word_tracks(&index.word);
    add_places(alloc, &index.places, tracks, scope, found)
}

/// Adds the occurrences in arguments or indices, each over the system of its track.
fn add_places(
    alloc: Global,
    places: &[Term],
    tracks: &[Name],
    scope: &Scope,
    found: &mut Vec<Occurrence>,
) -> Result<(), OutOfMemory>
    ensures { OnOk result (found.new.items ≡ found.old.items ++ place_occurrences tracks.now (binders_of scope.now) (terms_view places.now)) }
{
    for (place, term) in places.iter().enumerate() {
        if place < tracks.len() {
            add_term(alloc, term, &tracks[place], scope, found)?;
        }
    }
    Ok(())
}

/// Adds the occurrences in a factor over a system.
#[tactic(auto, using(formula_parse::proofs::ViewSteps::view_times, formula_parse::proofs::ViewSteps::view_divided))]
#[cycle(occurring)]
fn add_factor(
    alloc: Global,
    factor: &Factor,
    system: &Name,
    scope: &Scope,
    found: &mut Vec<Occurrence>,
) -> Result<(), OutOfMemory>
    ensures { OnOk result (found.new.items ≡ found.old.items ++ factor_of system.now (binders_of scope.now) (factor_view factor.now)) }
{
    match factor {
        Factor::Times(term) => {
            add_term(alloc, term, system, scope, found)?;
            Ok(())
        }
        Factor::Divided(_) => Ok(()),
    }
}

/// Adds the occurrences in a term over a system.
#[cycle(occurring)]
fn add_term(
    alloc: Global,
    term: &Term,
    system: &Name,
    scope: &Scope,
    found: &mut Vec<Occurrence>,
) -> Result<(), OutOfMemory>
    ensures { OnOk result (found.new.items ≡ found.old.items ++ term_occurrences system.now (binders_of scope.now) (term_view term.now)) }
{
    match term {
        Term::Variable(name) => {
            found.push(Occurrence {
                name: name.copy(alloc)?,
                binder: scope.binder(name),
                system: system.copy(alloc)?,
            })?;
            Ok(())
        }
        Term::Numeral(_) => Ok(()),
        Term::Product(factors) => {
            for factor in factors {
                add_factor(alloc, factor, system, scope, found)?;
            }
            Ok(())
        }
        Term::Sum(addends, last) => {
            for addend in addends {
                add_term(alloc, &addend.term, system, scope, found)?;
            }
            add_term(alloc, last, system, scope, found)
        }
    }
}
