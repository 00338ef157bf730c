//! Automata read on some of their tracks.

ghost use Rattle.std.specs.Prelude.{◌≡◌, ◌==◌, ◌<◌, ◌↔◌, ℕ, List, true, length, map, IfOk};
ghost use Rattle.std.specs.List.{All};
ghost use Rattle.digit_tuple.specs.Automaton as branching;
ghost use Rattle.digit_tuple.specs.Automaton.{IsBranchTable};
ghost use Rattle.digit_tuple.specs.Deterministic.{accepting_of, letters_of, states_of};
ghost use Rattle.digit_tuple.specs.Letters.{product};
ghost use Rattle.digit_tuple.specs.Parts.{parts_of_letters, picked};
ghost use Rattle.pad_rename.specs.ZeroClosure.{flag_at};
ghost use Rattle.project_close.specs.Image.{AreFirst, AreFlagsAt, AreRelabelled, IsEnd, IsImage, IsImageOn, ReadsProjection};

use digit_tuple::accepting_states::{accepting_flags, accepting_states};
use digit_tuple::alphabet::Alphabet;
use digit_tuple::dfa::Dfa;
use digit_tuple::direction::Direction;
use digit_tuple::faults::OutOfMemory;
use digit_tuple::nfa::Nfa;
use digit_tuple::reversed::reversed;
use digit_tuple::transitions::{NfaState, Transition};
use pad_rename::zero_closure::{reached, zero_closure};
use std::alloc::Global;
use track_parts::track_parts::TrackParts;

/// An automaton read on some of its tracks, and the states at which reading begins.
#[derive(Drop)]
pub struct Reading {
    pub image: Nfa,
    pub first: Vec<u32>,
}

/// The automaton read on the tracks at some places, counted from 0: each letter is its part there, a
/// letter of `alphabet`. With the most significant digit first, reading begins after any number of
/// zeros; else a word may end wherever zeros lead on to a state that accepts.
pub fn reading_on(
    alloc: Global,
    d: &Dfa,
    places: &[u32],
    alphabet: &Alphabet,
    direction: Direction,
) -> Result<Reading, OutOfMemory>
    requires places { All (λ place. place < length d.now.sizes) places.now }
    requires alphabet { alphabet.now ≡ picked places.now d.now.sizes }
    ensures { IfOk result (λ reading. ReadsProjection d.now places.now direction reading.image reading.first.items) }
{
    let image = image_on(alloc, d, places, alphabet, direction)?;
    let first = initial_states(alloc, &image, direction)?;
    Ok(Reading { image, first })
}

// The automaton read on the tracks at some places, without where reading begins.
fn image_on(
    alloc: Global,
    d: &Dfa,
    places: &[u32],
    alphabet: &Alphabet,
    direction: Direction,
) -> Result<Nfa, OutOfMemory>
    requires places { All (λ place. place < length d.now.sizes) places.now }
    requires alphabet { alphabet.now ≡ picked places.now d.now.sizes }
    ensures { IfOk result (IsImageOn d.now places.now direction) }
{
    let parts = TrackParts::new(alloc, d.alphabet(), places, alphabet)?;
    let ends = ends(alloc, d, &parts, direction)?;
    image(alloc, d, &ends, &parts, alphabet)
}

// The automaton with its part, a letter of `alphabet`, in place of each letter. A letter may then lead
// to several states. The flagged states accept.
fn image(
    alloc: Global,
    d: &Dfa,
    accepting: &[bool],
    parts: &TrackParts,
    alphabet: &Alphabet,
) -> Result<Nfa, OutOfMemory>
    requires accepting { length accepting.now ≡ states_of d.now }
    requires parts { length parts.now ≡ letters_of d.now }
    requires letters { All (λ part. part < product alphabet.now) parts.now }
    ensures image { IfOk result (IsImage d.now accepting.now parts.now alphabet.now) }
    ensures table { IfOk result (λ nfa. IsBranchTable (branching.letters_of nfa) nfa.states) }
{
    let states = d.states();
    let mut rows = Vec::with_capacity(alloc, states as usize)?;
    let mut row = Vec::new(alloc);
    for state in 0..states {
        d.transitions_into(state, &mut row)?;
        rows.push(NfaState {
            accepting: accepting[state as usize],
            transitions: relabelled(alloc, &row, parts)?,
        })?;
    }
    Nfa::from_states(alloc, alphabet.copy(alloc)?, rows)
}

// The transitions with other letters in place of theirs, in order.
fn relabelled(
    alloc: Global,
    transitions: &[Transition],
    parts: &TrackParts,
) -> Result<Vec<Transition>, OutOfMemory>
    requires { All (λ transition. transition.letter < length parts.now) transitions.now }
    ensures { IfOk result (λ new. AreRelabelled parts.now transitions.now new.items) }
{
    let mut new = Vec::with_capacity(alloc, transitions.len())?;
    for transition in transitions {
        new.push(Transition {
            letter: parts.part(transition.letter),
            target: transition.target,
        })?;
    }
    new.sort()?;
    new.dedup();
    Ok(new)
}

// For each state whether a word may end there: whether it accepts, or with the least significant
// digit first, whether a word leads from it to a state that accepts whose part is zeros alone.
// `parts` is the part of each letter.
fn ends(
    alloc: Global,
    d: &Dfa,
    parts: &TrackParts,
    direction: Direction,
) -> Result<Vec<bool>, OutOfMemory>
    ensures size { IfOk result (λ flags. length flags.items ≡ states_of d.now) }
    ensures ends { (places : List ℕ) → parts.now ≡ parts_of_letters d.now.sizes places
        → IfOk result (λ flags. (q : ℕ) → (flag_at flags.items q ≡ true) ↔ IsEnd direction d.now places q) }
{
    match direction {
        Direction::Msd => accepting_flags(alloc, d),
        Direction::Lsd => {
            let turned = reversed(alloc, d)?;
            let zero = zero_flags(alloc, parts)?;
            let last = accepting_states(alloc, d)?;
            reached(alloc, &turned, &zero, &last)
        }
    }
}

// For each letter whether its part is 0.
fn zero_flags(alloc: Global, parts: &TrackParts) -> Result<Vec<bool>, OutOfMemory>
    ensures { IfOk result (λ flags. flags.items ≡ map (λ part. part == 0) parts.now) }
{
    let mut zeros = Vec::new(alloc);
    parts.add_letters(0, &mut zeros)?;
    flags_at(alloc, parts.letters(), &zeros)
}

// So many flags, of which those at these places are set.
fn flags_at(alloc: Global, count: u32, places: &[u32]) -> Result<Vec<bool>, OutOfMemory>
    requires { All (λ place. place < count) places.now }
    ensures { IfOk result (λ flags. AreFlagsAt count flags.items places.now (length places.now)) }
{
    let mut flags = vec![in alloc; false; count as usize]?;
    for place in places {
        flags[*place as usize] = true;
    }
    Ok(flags)
}

// The states at which reading begins: with the most significant digit first those that some number
// of zero letters leads to, in order, else the initial one.
fn initial_states(alloc: Global, nfa: &Nfa, direction: Direction) -> Result<Vec<u32>, OutOfMemory>
    ensures { IfOk result (λ first. AreFirst direction nfa.now first.items) }
{
    match direction {
        Direction::Msd => zero_closure(alloc, nfa),
        Direction::Lsd => Ok(vec![in alloc; 0]?),
    }
}
