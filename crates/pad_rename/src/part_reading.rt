//! Automata that read the parts of letters.

ghost use Rattle.std.specs.Prelude.{◌≡◌, ◌++◌, ℕ, ◌<◌, List, length, map, IfOk, OnOk};
ghost use Rattle.std.specs.List.{All, AllPairs};
ghost use Rattle.digit_tuple.specs.Deterministic.{IsByEarlier, IsTable, accepts_of, letters_of, states_of};
ghost use Rattle.digit_tuple.specs.DfaRows.{state_in, states_in};
ghost use Rattle.digit_tuple.specs.Letters.{product, IsWord};
ghost use Rattle.digit_tuple.specs.Parts.{picked, part, parts_of_letters};
ghost use Rattle.digit_tuple.specs.Reversed.{transition_to};
ghost use Rattle.pad_rename.specs.PartReading.{AreTransitionsByParts, AreReading, IsReading};

use digit_tuple::alphabet::Alphabet;
use digit_tuple::dfa::{Dfa, DfaState};
use digit_tuple::faults::OutOfMemory;
use digit_tuple::transitions::Transition;
use std::alloc::Global;
use track_parts::track_parts::TrackParts;

/// The automaton that accepts a word of the alphabet if and only if `dfa` accepts its part on the tracks at these
/// places, counted from 0, one for each track of `dfa` and of its size. A place may be there more than once.
pub fn read_parts(
    alloc: Global,
    dfa: &Dfa,
    alphabet: Alphabet,
    places: &[u32],
) -> Result<Dfa, OutOfMemory>
    requires places { All (λ place. place < length alphabet) places.now }
    requires sizes { picked places.now alphabet ≡ dfa.now.sizes }
    ensures sizes { IfOk result (λ reader. reader.sizes ≡ alphabet) }
    ensures language { IfOk result (λ reader. (w : List ℕ) → IsWord (product alphabet) w
        → accepts_of reader w ≡ accepts_of dfa.now (part alphabet places.now w)) }
{
    let states = states_by_parts(alloc, dfa, &alphabet, places)?;
    Dfa::from_states(alloc, alphabet, states)
}

// The states of the automaton that reads the parts on the tracks at these places.
fn states_by_parts(
    alloc: Global,
    dfa: &Dfa,
    alphabet: &Alphabet,
    places: &[u32],
) -> Result<Vec<DfaState>, OutOfMemory>
    requires places { All (λ place. place < length alphabet.now) places.now }
    requires sizes { picked places.now alphabet.now ≡ dfa.now.sizes }
    ensures reading { IfOk result (λ states. AreReading dfa.now (parts_of_letters alphabet.now places.now) (states_of dfa.now) (states_in states.items)) }
    ensures table { IsTable (letters_of dfa.now) dfa.now.states }
{
    let mut parts = TrackParts::new(alloc, alphabet, places, dfa.alphabet())?;
    parts.list_within(alloc, dfa.transitions())?;
    states_reading(alloc, dfa, &parts)
}

// The states of the automaton, each with the transitions by the letters of which these parts lead on.
fn states_reading(
    alloc: Global,
    dfa: &Dfa,
    parts: &TrackParts,
) -> Result<Vec<DfaState>, OutOfMemory>
    ensures { IfOk result (λ states. AreReading dfa.now parts.now (states_of dfa.now) (states_in states.items)) }
{
    let count = dfa.states();
    let mut states = Vec::with_capacity(alloc, count as usize)?;
    let mut row = Vec::new(alloc);
    for state in 0..count {
        states.push(state_reading(alloc, dfa, state, parts, &mut row)?)?;
    }
    Ok(states)
}

// The state whose transitions are by the letters of which these parts lead on. The row is written over.
fn state_reading(
    alloc: Global,
    dfa: &Dfa,
    state: u32,
    parts: &TrackParts,
    row: &mut Vec<Transition>,
) -> Result<DfaState, OutOfMemory>
    requires { state < states_of dfa.now }
    ensures { IfOk result (λ made. IsReading dfa.now state parts.now (state_in made)) }
{
    dfa.transitions_into(state, row)?;
    Ok(DfaState {
        accepting: dfa.accepting(state),
        transitions: transitions_by_parts(alloc, row, parts)?,
    })
}

// The transitions by the letters whose parts the row has a transition by, in order.
fn transitions_by_parts(
    alloc: Global,
    row: &[Transition],
    parts: &TrackParts,
) -> Result<Vec<Transition>, OutOfMemory>
    requires { AllPairs IsByEarlier row.now }
    ensures { IfOk result (λ transitions. AreTransitionsByParts parts.now row.now transitions.items) }
{
    let mut transitions = Vec::new(alloc);
    let mut letters = Vec::new(alloc);
    for transition in row {
        letters.clear();
        parts.add_letters(transition.letter, &mut letters)?;
        add_transitions(&letters, transition.target, &mut transitions)?;
    }
    transitions.sort_unstable_by_key(|transition| transition.letter);
    Ok(transitions)
}

// Adds a transition by each of the letters to the target.
fn add_transitions(
    letters: &[u32],
    target: u32,
    transitions: &mut Vec<Transition>,
) -> Result<(), OutOfMemory>
    ensures { OnOk result (transitions.new.items ≡ transitions.old.items ++ map (λ letter. transition_to letter target) letters.now) }
{
    for letter in letters {
        transitions.push(Transition {
            letter: *letter,
            target,
        })?;
    }
    Ok(())
}
