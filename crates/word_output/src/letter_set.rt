//! The positions whose letters compare with a given one.

ghost use Rattle.std.specs.Prelude.{◌≡◌, ◌↔◌, ◌<◌, ℕ, List, length, slice_index_or, false, IfOk, IsTrue};
ghost use Rattle.digit_tuple.specs.Deterministic.{states_of};
ghost use Rattle.word_output.specs.LetterSets.{ComparesLetters, HasComparedLetter, IsLetterSet};

use crate::letter_function::LetterFunction;
use digit_tuple::dfa::Dfa;
use digit_tuple::faults::OutOfMemory;
use minimise::canonical::canonical;
use num_system::comparison::Comparison;
use std::alloc::Global;

/// The canonical automaton of the words that have a letter which compares so with the given one, with the word's letter
/// on the left. It makes no step; the cost is that of minimising a table of the same transitions.
pub fn letter_set(
    alloc: Global,
    function: &LetterFunction,
    comparison: Comparison,
    letter: i32,
) -> Result<Dfa, OutOfMemory>
    ensures { IfOk result (IsLetterSet comparison letter function.now) }
{
    let flags = compared(alloc, function, comparison, letter)?;
    let table = function.dfa().copy(alloc)?.with_accepting(&flags);
    canonical(alloc, &table)
}

// For each state whether it has a letter that compares so with the given one.
fn compared(
    alloc: Global,
    function: &LetterFunction,
    comparison: Comparison,
    letter: i32,
) -> Result<Vec<bool>, OutOfMemory>
    ensures count { IfOk result (λ flags. length flags.items ≡ states_of function.now.automaton) }
    ensures flags { IfOk result (λ flags. (q : ℕ) → q < states_of function.now.automaton → IsTrue (slice_index_or flags.items q false) ↔ HasComparedLetter comparison letter function.now q) }
{
    let states = function.dfa().states();
    let mut flags = Vec::with_capacity(alloc, states as usize)?;
    for state in 0..states {
        flags.push(has_compared(function, state, comparison, letter))?;
    }
    Ok(flags)
}

// Whether a state has a letter that compares so with the given one.
fn has_compared(function: &LetterFunction, state: u32, comparison: Comparison, letter: i32) -> bool
    ensures { IsTrue result ↔ HasComparedLetter comparison letter function.now state }
{
    match function.letter_of(state) {
        Some(own) => compares(comparison, own, letter),
        None => false,
    }
}

/// Whether two letters compare so.
pub fn compares(comparison: Comparison, first: i32, second: i32) -> bool
    ensures { IsTrue result ↔ ComparesLetters comparison first second }
{
    match comparison {
        Comparison::Equal => first == second,
        Comparison::Unequal => first != second,
        Comparison::Less => first < second,
        Comparison::Greater => first > second,
        Comparison::AtMost => first <= second,
        Comparison::AtLeast => first >= second,
    }
}
