//! The rows of the automaton of an expression's letters.

ghost use Rattle.std.specs.Prelude.{◌≡◌, ℕ, ◌+◌, ◌<◌, ◌≤◌, ◌⊎◌, ◌↔◌, length, All, AllPairs, Contains, IfOk, OnOk};
ghost use Rattle.digit_tuple.specs.Automaton.{IsBefore};
ghost use Rattle.regex_build.specs.Codes.{IsInRange};
ghost use Rattle.regex_build.specs.Fragments.{rows_in, Follows};
ghost use Rattle.regex_build.specs.Rows.{IsTransitionTo, AreStates};

use crate::codes::LetterRange;
use crate::next_places::NextPlaces;
use digit_tuple::faults::OutOfMemory;
use digit_tuple::transitions::{NfaState, Transition};
use std::alloc::Global;

// Adds a transition to the place for each of its letters.
fn push_transitions(
    transitions: &mut Vec<Transition>,
    range: LetterRange,
    place: u32,
) -> Result<(), OutOfMemory>
    ensures { OnOk result ((x : Transition) → Contains transitions.new.items x ↔ (Contains transitions.old.items x ⊎ ((x.target ≡ place) × IsInRange range x.letter))) }
{
    for letter in range.first..range.end {
        transitions.push(Transition {
            letter,
            target: place,
        })?;
    }
    Ok(())
}

// The transitions to these places, in order, none twice.
fn transitions_to(
    alloc: Global,
    next: &[u32],
    ranges: &[LetterRange],
) -> Result<Vec<Transition>, OutOfMemory>
    requires { (place : ℕ) → Contains next.now place → (0 < place) × (place ≤ length ranges.now) }
    ensures ascending { IfOk result (λ transitions. AllPairs IsBefore transitions.items) }
    ensures transitions { IfOk result (λ transitions. (x : Transition) → Contains transitions.items x ↔ IsTransitionTo ranges.now next.now x) }
{
    let mut transitions = Vec::new(alloc);
    for place in next {
        push_transitions(&mut transitions, ranges[*place as usize - 1], *place)?;
    }
    transitions.sort()?;
    transitions.dedup();
    Ok(transitions)
}

/// The states of the automaton of these places, one after another from the first on.
pub fn states_of(
    alloc: Global,
    places: &NextPlaces,
    ranges: &[LetterRange],
) -> Result<Vec<NfaState>, OutOfMemory>
    requires count { length places.now.ends.items ≡ length places.now.next.items }
    requires places { (q place : ℕ) → Follows (rows_in places.now.next.items) q place → (0 < place) × (place ≤ length ranges.now) }
    ensures count { IfOk result (λ states. length states.items ≡ length places.now.next.items) }
    ensures states { IfOk result (λ states. AreStates places.now ranges.now states.items) }
{
    let mut states = Vec::new(alloc);
    for (state, next) in places.next.iter().enumerate() {
        states.push(NfaState {
            accepting: places.ends[state],
            transitions: transitions_to(alloc, next, ranges)?,
        })?;
    }
    Ok(states)
}
