//! Whether a language has an end.

ghost use Rattle.std.specs.Prelude.{◌≡◌, ◌<◌, ◌↔◌, ℕ, IsTrue, IfOk};
ghost use Rattle.digit_tuple.specs.Deterministic.{states_of};
ghost use Rattle.minimise.specs.Canonical.{IsCanonical};
ghost use Rattle.endless.specs.LanguageLaws.{KeepsZeros, IsEndless, language_in};
ghost use Rattle.endless.specs.Links.{IsEnd, IsEndState};

use crate::sorting::has_round;
use digit_tuple::dfa::Dfa;
use digit_tuple::direction::Direction;
use digit_tuple::faults::OutOfMemory;
use digit_tuple::transitions::Transition;
use std::alloc::Global;

/// Whether there are longer words than any in the language of a canonical automaton, without leading zeros, where
/// leading zeros keep its words. Words are read in the direction. The time follows the number of transitions.
pub fn is_endless(alloc: Global, language: &Dfa, direction: Direction) -> Result<bool, OutOfMemory>
    requires canonical { IsCanonical language.now }
    requires zeros { KeepsZeros (language_in direction language.now) }
    ensures { IfOk result (λ is. IsTrue is ↔ IsEndless (language_in direction language.now)) }
{
    match direction {
        Direction::Msd => has_round_first(alloc, language),
        Direction::Lsd => has_round_last(alloc, language),
    }
}

// The same where the most significant digit comes first: the zeros of the initial state are left out.
fn has_round_first(alloc: Global, language: &Dfa) -> Result<bool, OutOfMemory>
    requires canonical { IsCanonical language.now }
    requires zeros { KeepsZeros (language_in Direction.Msd language.now) }
    ensures { IfOk result (λ is. IsTrue is ↔ IsEndless (language_in Direction.Msd language.now)) }
{
    has_round(alloc, language, 0)
}

// The same where it comes last: the zeros after whole words are left out.
fn has_round_last(alloc: Global, language: &Dfa) -> Result<bool, OutOfMemory>
    requires canonical { IsCanonical language.now }
    requires zeros { KeepsZeros (language_in Direction.Lsd language.now) }
    ensures { IfOk result (λ is. IsTrue is ↔ IsEndless (language_in Direction.Lsd language.now)) }
{
    let end = end_state(alloc, language)?;
    has_round(alloc, language, end)
}

// The state from which only words of zeros are accepted, or the number of states where there is none.
fn end_state(alloc: Global, language: &Dfa) -> Result<u32, OutOfMemory>
    requires canonical { IsCanonical language.now }
    ensures { IfOk result (λ end. IsEndState language.now end) }
{
    let states = language.states();
    let mut row = Vec::new(alloc);
    for state in 0..states {
        if is_end(language, state, &mut row)? {
            return Ok(state);
        }
    }
    Ok(states)
}

// Whether only words of zeros are accepted from the state. The row may hold anything.
fn is_end(language: &Dfa, state: u32, row: &mut Vec<Transition>) -> Result<bool, OutOfMemory>
    requires within { state < states_of language.now }
    ensures { IfOk result (λ is. IsTrue is ↔ IsEnd language.now state) }
{
    language.transitions_into(state, row)?;
    if row.len() != 1 {
        return Ok(false);
    }
    if !language.accepting(state) {
        return Ok(false);
    }
    Ok(language.step(state, 0) == Some(state))
}
