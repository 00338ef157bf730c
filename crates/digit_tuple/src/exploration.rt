//! The exploration.

ghost use Rattle.std.specs.Prelude.{◌≡◌, ℕ, ◌+◌, ◌<◌, ◌≤◌, List, [], ◌∷◌, length, map, if◌then◌else◌, IfOk, OnOk, None, Some};
ghost use Rattle.std.specs.List.{All};
ghost use Rattle.std.specs.Result.{IsErrOf};
ghost use Rattle.digit_tuple.specs.Deterministic.{IsTable, accepts_of, states_of, letters_of};
ghost use Rattle.digit_tuple.specs.FirstWords.{IsNumberedByFirsts};
ghost use Rattle.digit_tuple.specs.Letters.{product, IsWord};
ghost use Rattle.digit_tuple.specs.Width.{HasApart, HasWidth};
ghost use Rattle.digit_tuple.specs.KeyHashes.{hash_of};
ghost use Rattle.digit_tuple.specs.Keys.{AreKeyTransitions, LeadAlike, key_accepts};
ghost use Rattle.digit_tuple.specs.Explored.{AreNumbered, NumbersSome, IsExplored, key_at};
ghost use Rattle.digit_tuple.specs.Exploring.{IsExploring};

use crate::alphabet::Alphabet;
use crate::dfa::Dfa;
use crate::faults::{OpFault, OutOfMemory};
use crate::growing_dfa::GrowingDfa;
use crate::key_graph::KeyGraph;
use crate::key_transitions::KeyTransitions;
use crate::limit::Limit;
use crate::numbering::{Lookup, Numbering};
use crate::stepped::Stepped;
use crate::transitions::Transition;
use std::alloc::Global;

// For at most how many transitions of a state there is memory at first.
const FIRST_TRANSITIONS: usize = 64;

// What is read of one key at a time, in buffers that are used again: the key transitions from it, the lookups of the
// keys that they lead to, and the transitions that they become.
#[derive(Drop)]
struct Buffers {
    key_transitions: KeyTransitions,
    lookups: Vec<Lookup>,
    transitions: Vec<Transition>,
}

impl Buffers {
    // Empty buffers, for transitions by so many letters.
    fn new(alloc: Global, letters: usize) -> Result<Self, OutOfMemory> {
        let room = letters.min(FIRST_TRANSITIONS);
        Ok(Buffers {
            key_transitions: KeyTransitions::new(alloc),
            lookups: Vec::with_capacity(alloc, room)?,
            transitions: Vec::with_capacity(alloc, room)?,
        })
    }
}

/// What an exploration made: the automaton, and the keys of its states, in their order.
#[derive(Drop)]
pub struct Explored {
    pub dfa: Dfa,
    pub keys: Numbering,
}

/// The automaton whose states are the keys that words lead to, from the first key on, numbered in the order of the
/// first words that lead to them, shorter words first. A letter that leads to no key has no transition. The width is
/// the number of kinds of words, where two are alike that lead to one key, or both to none: so it is the number of
/// states, and one more where some word leads to no key. `States` comes if and only if the width passes the limit, and
/// `Letters` never.
pub fn explore<G: KeyGraph>(
    alloc: Global,
    graph: &G,
    alphabet: Alphabet,
    limit: Limit<'_>,
) -> Result<Stepped<Dfa>, OpFault>
    requires graph { G.is_graph graph.now }
    requires letters { G.letters graph.now ≡ product alphabet }
    ensures sizes { IfOk result (λ stepped. stepped.result.sizes ≡ alphabet) }
    ensures table { IfOk result (λ stepped. IsTable (letters_of stepped.result) stepped.result.states) }
    ensures explored { IfOk result (λ stepped. (keys : List (List ℕ))
        × IsExplored (G.letters graph.now) (G.start graph.now) (G.after graph.now) (G.accepts graph.now) keys stepped.result
        × All (G.is_key graph.now) keys) }
    ensures numbered { IfOk result (λ stepped. (firsts : List (List ℕ)) × IsNumberedByFirsts stepped.result firsts) }
    ensures language { IfOk result (λ stepped. (word : List ℕ) → IsWord (G.letters graph.now) word
        → accepts_of stepped.result word ≡ key_accepts (G.after graph.now) (G.accepts graph.now) (G.start graph.now) word) }
    ensures width { IfOk result (λ stepped.
        HasWidth (LeadAlike (G.after graph.now) (G.start graph.now)) (G.letters graph.now) stepped.width) }
    ensures size { IfOk result (λ stepped. states_of stepped.result ≤ stepped.width) }
    ensures within { IfOk result (λ stepped. stepped.width ≤ limit.entry.most) }
    ensures states { IsErrOf result OpFault.States
        → HasApart (LeadAlike (G.after graph.now) (G.start graph.now)) (G.letters graph.now) (limit.entry.most + 1) }
    ensures no_letters { ¬ IsErrOf result OpFault.Letters }
{
    let Stepped { result, width } = explore_keys(alloc, graph, alphabet, limit)?;
    Ok(Stepped {
        result: result.dfa,
        width,
    })
}

/// The automaton of `explore` with the keys of its states, for what a construction says of a key but
/// whether it accepts. Its width and its refusals are those of `explore`.
pub fn explore_keys<G: KeyGraph>(
    alloc: Global,
    graph: &G,
    alphabet: Alphabet,
    limit: Limit<'_>,
) -> Result<Stepped<Explored>, OpFault>
    requires graph { G.is_graph graph.now }
    requires letters { G.letters graph.now ≡ product alphabet }
    ensures sizes { IfOk result (λ stepped. stepped.result.dfa.sizes ≡ alphabet) }
    ensures table { IfOk result (λ stepped. IsTable (letters_of stepped.result.dfa) stepped.result.dfa.states) }
    ensures explored { IfOk result (λ stepped. IsExplored (G.letters graph.now) (G.start graph.now) (G.after graph.now) (G.accepts graph.now) stepped.result.keys stepped.result.dfa) }
    ensures keys { IfOk result (λ stepped. All (G.is_key graph.now) stepped.result.keys) }
    ensures numbered { IfOk result (λ stepped. (firsts : List (List ℕ)) × IsNumberedByFirsts stepped.result.dfa firsts) }
    ensures language { IfOk result (λ stepped. (word : List ℕ) → IsWord (G.letters graph.now) word
        → accepts_of stepped.result.dfa word ≡ key_accepts (G.after graph.now) (G.accepts graph.now) (G.start graph.now) word) }
    ensures width { IfOk result (λ stepped.
        HasWidth (LeadAlike (G.after graph.now) (G.start graph.now)) (G.letters graph.now) stepped.width) }
    ensures size { IfOk result (λ stepped. states_of stepped.result.dfa ≤ stepped.width) }
    ensures within { IfOk result (λ stepped. stepped.width ≤ limit.entry.most) }
    ensures states { IsErrOf result OpFault.States
        → HasApart (LeadAlike (G.after graph.now) (G.start graph.now)) (G.letters graph.now) (limit.entry.most + 1) }
    ensures no_letters { ¬ IsErrOf result OpFault.Letters }
{
    let mut keys = first_keys(alloc, graph)?;
    if limit.most == 0 {
        return Err(OpFault::States);
    }
    let letters = alphabet.letters() as usize;
    let mut states = GrowingDfa::new(alloc, alphabet)?;
    let gap = add_states(alloc, graph, limit, letters, &mut keys, &mut states)?;
    let width = keys.len() as u32 + u32::from(gap);
    let dfa = states.finish();
    Ok(Stepped {
        result: Explored { dfa, keys },
        width,
    })
}

// The key that the empty word leads to, numbered.
fn first_keys<G: KeyGraph>(alloc: Global, graph: &G) -> Result<Numbering, OutOfMemory>
    requires { G.is_graph graph.now }
    ensures { IfOk result (λ keys. keys ≡ G.start graph.now ∷ []) }
{
    let mut keys = Numbering::new(alloc);
    keys.number_of(&graph.first_key(alloc)?)?;
    Ok(keys)
}

// Adds the states of the keys, from the first one on, as they come, and returns whether a letter leads from a key to none.
// `States` comes where the width passes the limit.
fn add_states<G: KeyGraph>(
    alloc: Global,
    graph: &G,
    limit: Limit<'_>,
    letters: usize,
    keys: &mut Numbering,
    states: &mut GrowingDfa,
) -> Result<bool, OpFault>
    requires graph { G.is_graph graph.now }
    requires some { 0 < limit.most }
    requires letters { letters ≡ G.letters graph.now }
    requires alphabet { letters_of states.old ≡ G.letters graph.now }
    requires keys { keys.old ≡ G.start graph.now ∷ [] }
    requires states { states.old.states ≡ [] }
    ensures sizes { OnOk result (states.new.sizes ≡ states.old.sizes) }
    ensures exploring { IfOk result (λ gap. IsExploring (G.letters graph.now) (G.start graph.now) (G.after graph.now) (G.accepts graph.now) keys.new states.new.states gap) }
    ensures done { OnOk result (length states.new.states ≡ length keys.new) }
    ensures keys { OnOk result (All (G.is_key graph.now) keys.new) }
    ensures within { IfOk result (λ gap. length keys.new + (if gap then 1 else 0) ≤ limit.entry.most) }
    ensures states { IsErrOf result OpFault.States
        → HasApart (LeadAlike (G.after graph.now) (G.start graph.now)) (G.letters graph.now) (limit.entry.most + 1) }
    ensures no_letters { ¬ IsErrOf result OpFault.Letters }
{
    let mut buffers = Buffers::new(alloc, letters)?;
    let mut gap = false;
    'explore: while states.len() < keys.len() {
        show_count(limit, keys);
        let accepting = graph.is_accepting(keys.key(states.len()));
        number_targets(alloc, graph, limit, states.len(), keys, &mut buffers)?;
        if buffers.transitions.len() < letters {
            gap = true;
        }
        states.add_state(accepting, &buffers.transitions)?;
        if gap && keys.len() == limit.most as usize {
            return Err(OpFault::States);
        }
    }
    Ok(gap)
}

// Says how many states there are so far.
fn show_count(limit: Limit<'_>, keys: &Numbering) {
    limit.states(keys.len());
}

// Writes the key transitions from a key, and the transitions that they become as the keys that they lead to are numbered
// in turn, in place of what the buffers held. `States` comes where the keys are too many.
fn number_targets<G: KeyGraph>(
    alloc: Global,
    graph: &G,
    limit: Limit<'_>,
    number: usize,
    keys: &mut Numbering,
    buffers: &mut Buffers,
) -> Result<(), OpFault>
    requires graph { G.is_graph graph.now }
    requires number { number < length keys.old }
    requires key { G.is_key graph.now (key_at keys.old number) }
    requires few { length keys.old ≤ limit.most }
    ensures key_transitions { OnOk result (AreKeyTransitions (G.letters graph.now) (G.after graph.now (key_at keys.old number)) buffers.new.key_transitions) }
    ensures transitions { OnOk result (AreNumbered buffers.new.key_transitions buffers.new.transitions.items keys.old keys.new) }
    ensures few { OnOk result (length keys.new ≤ limit.entry.most) }
    ensures states { IsErrOf result OpFault.States
        → AreKeyTransitions (G.letters graph.now) (G.after graph.now (key_at keys.old number)) buffers.new.key_transitions
        × NumbersSome buffers.new.key_transitions keys.old keys.new (limit.entry.most + 1) }
    ensures letters { ¬ IsErrOf result OpFault.Letters }
{
    buffers.key_transitions.clear();
    graph.transitions(alloc, keys.key(number), &mut buffers.key_transitions)?;
    number_transitions(
        keys,
        &buffers.key_transitions,
        limit,
        &mut buffers.lookups,
        &mut buffers.transitions,
    )
}

// Writes the transitions that the key transitions become in place of what the buffer held, as the keys that they lead
// to are numbered in turn. All are looked up before the first is numbered, so that the reads of their slots do not wait
// for one another. `States` comes where the keys are too many.
fn number_transitions(
    keys: &mut Numbering,
    key_transitions: &KeyTransitions,
    limit: Limit<'_>,
    lookups: &mut Vec<Lookup>,
    transitions: &mut Vec<Transition>,
) -> Result<(), OpFault>
    requires { length keys.old ≤ limit.most }
    ensures transitions { OnOk result (AreNumbered key_transitions.now transitions.new.items keys.old keys.new) }
    ensures few { OnOk result (length keys.new ≤ limit.entry.most) }
    ensures states { IsErrOf result OpFault.States → NumbersSome key_transitions.now keys.old keys.new (limit.entry.most + 1) }
    ensures letters { ¬ IsErrOf result OpFault.Letters }
{
    look_up_keys(keys, key_transitions, lookups)?;
    transitions.clear();
    for place in 0..key_transitions.len() {
        let target = keys.number_by(key_transitions.key(place), lookups[place])?;
        if keys.len() > limit.most as usize {
            return Err(OpFault::States);
        }
        transitions.push(Transition {
            letter: key_transitions.letter(place),
            target: target as u32,
        })?;
    }
    Ok(())
}

// Writes the lookups of the keys that the key transitions lead to in place of what the buffer held.
fn look_up_keys(
    keys: &Numbering,
    key_transitions: &KeyTransitions,
    lookups: &mut Vec<Lookup>,
) -> Result<(), OutOfMemory>
    ensures { OnOk result (map (λ lookup. lookup.hash) lookups.new.items ≡ map (λ transition. hash_of transition.key) key_transitions.now) }
{
    lookups.clear();
    for place in 0..key_transitions.len() {
        lookups.push(keys.look_up(key_transitions.key(place)))?;
    }
    Ok(())
}
