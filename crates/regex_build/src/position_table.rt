//! The automaton of an expression's letters.

ghost use Rattle.std.specs.Prelude.{◌≡◌, IfOk};
ghost use Rattle.digit_tuple.specs.Automaton.{IsBranchTable, letters_of};
ghost use Rattle.digit_tuple.specs.Letters.{IsAlphabet};
ghost use Rattle.digit_tuple.specs.Sets.{sizes_of};
ghost use Rattle.digit_tuple.specs.Tuples.{IsLetterOf};
ghost use Rattle.regex_build.specs.Positions.{IsPositionTable, AcceptsTheMatches, PositionsAcceptMatches, OnePositionTable};

use crate::codes::ranges_of;
use crate::next_places::next_places;
use crate::regex::Regex;
use crate::rows::states_of;
use digit_tuple::alphabet::Alphabet;
use digit_tuple::faults::OutOfMemory;
use digit_tuple::letter_set::LetterSet;
use digit_tuple::nfa::Nfa;
use std::alloc::Global;

/// The automaton of the expression's letters: state 0 is initial, and state i comes after the i-th letter of the
/// expression, where a `.` is a letter that may be any of the alphabet. From each state each letter that can come next
/// leads to that letter's state. The transitions of all states are made, so the automaton is as large as its table.
///
/// An expression of 2^32 - 1 letters or more has more states than their numbers can count. It is
/// answered by out of memory.
pub fn positions(alloc: Global, regex: &Regex) -> Result<Nfa, OutOfMemory>
    requires { IsAlphabet (sizes_of regex.now.sets) }
    ensures sizes { IfOk result (λ nfa. nfa.sizes ≡ sizes_of regex.now.sets) }
    ensures rows { IfOk result (λ nfa. IsBranchTable (letters_of nfa) nfa.states) }
    ensures table { IfOk result (IsPositionTable (IsLetterOf regex.now.sets) regex.now.tree) }
    ensures language { IfOk result (AcceptsTheMatches regex.now.sets regex.now.tree) }
{
    let sets = regex.sets().as_slice();
    let symbols = regex.symbols();
    let alphabet = alphabet_of(alloc, sets)?;
    let places = next_places(alloc, symbols)?;
    let ranges = ranges_of(alloc, &alphabet, sets, symbols)?;
    let states = states_of(alloc, &places, &ranges)?;
    Nfa::from_states(alloc, alphabet, states)
}

// The alphabet of the sets, which are few enough and small enough.
fn alphabet_of(alloc: Global, sets: &[LetterSet]) -> Result<Alphabet, OutOfMemory>
    requires { IsAlphabet (sizes_of sets.now) }
    ensures { IfOk result (λ alphabet. alphabet ≡ sizes_of sets.now) }
{
    let mut sizes = Vec::new(alloc);
    for set in sets {
        sizes.push(set.len())?;
    }
    Alphabet::fitting(alloc, &sizes)
}

/// The table of an expression's letters accepts the words that the expression matches, and no others.
pub fn positions_accept_the_matches()
    ensures { PositionsAcceptMatches }
{}

/// An expression has one table of its letters.
pub fn one_position_table()
    ensures { OnePositionTable }
{}
