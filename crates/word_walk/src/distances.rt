//! How many letters a shortest accepted word has, from each state.

ghost use Rattle.std.specs.Prelude.{◌≡◌, ℕ, ◌<◌, length, slice_index_or, true, IfOk, IfSome, OnOk};
ghost use Rattle.std.specs.List.{All};
ghost use Rattle.digit_tuple.specs.Deterministic.{Automaton, states_of};
ghost use Rattle.word_walk.specs.Distances.{AreDistances, fits, leads_below};
ghost use Rattle.word_walk.specs.Levels.{lives};

use digit_tuple::accepting_states::accepting_states;
use digit_tuple::dfa::Dfa;
use digit_tuple::faults::OutOfMemory;
use digit_tuple::reversed::reversed;
use digit_tuple::transitions::Transition;
use std::alloc::Global;
use std::marker::Model;

// The number where no accepted word was found.
const FAR: u32 = u32::MAX;

/// For each state of an automaton the least length of a word that is accepted from it.
#[derive(Drop)]
pub(crate) struct Distances {
    distances: Vec<u32>,
}

impl Model for Distances {
    ghost use Rattle.std.specs.Prelude.{List, ℕ};

    ghost Value = { List ℕ };

    ghost view = { λ found. found.distances.items };
}

impl Distances {
    /// The distances, found by a search backwards from the accepting states, breadth first. Its time and memory follow
    /// the transitions. That the search finds them is not proved: what it found is compared with all transitions, and
    /// forgotten if it doesn't fit.
    pub(crate) fn new(alloc: Global, d: &Dfa) -> Result<Self, OutOfMemory>
        ensures { IfOk result (AreDistances d.now) }
    {
        let distances = found(alloc, d)?;
        if are_distances(alloc, d, &distances)? {
            return Ok(Distances { distances });
        }
        Ok(Distances {
            distances: Vec::new(alloc),
        })
    }

    /// Whether a word of the length is accepted from the state, if the distance decides it: it doesn't of longer words.
    pub(crate) fn decides(&self, size: usize, state: u32) -> Option<bool>
        ensures { IfSome result (λ is. (d : Automaton) → AreDistances d self.now → is ≡ lives d size state) }
    {
        let distance = *self.distances.get(state as usize)?;
        if size < distance as usize {
            Some(false)
        } else if size == distance as usize && distance < FAR {
            Some(true)
        } else {
            None
        }
    }
}

// What the search finds.
fn found(alloc: Global, d: &Dfa) -> Result<Vec<u32>, OutOfMemory>
    ensures { IfOk result (λ distances. length distances.items ≡ states_of d.now) }
{
    let backwards = reversed(alloc, d)?;
    let mut distances = first_found(alloc, d)?;
    let mut queue = accepting_states(alloc, d)?;
    for at in 0..d.states() as usize {
        if at >= queue.len() {
            return Ok(distances);
        }
        let state = queue[at];
        let beyond = distances[state as usize].saturating_add(1);
        reach(
            &mut distances,
            &mut queue,
            backwards.transitions(state),
            beyond,
        )?;
    }
    Ok(distances)
}

// 0 for each state that accepts.
fn first_found(alloc: Global, d: &Dfa) -> Result<Vec<u32>, OutOfMemory>
    ensures { IfOk result (λ distances. length distances.items ≡ states_of d.now) }
{
    let states = d.states();
    let mut distances = Vec::with_capacity(alloc, states as usize)?;
    for state in 0..states {
        distances.push(if d.accepting(state) { 0 } else { FAR })?;
    }
    Ok(distances)
}

// Puts the states that were not found yet at a distance, and into the queue.
fn reach(
    distances: &mut Vec<u32>,
    queue: &mut Vec<u32>,
    sources: &[Transition],
    distance: u32,
) -> Result<(), OutOfMemory>
    requires sources { All (λ transition. transition.target < length distances.old.items) sources.now }
    requires queue { All (λ state. state < length distances.old.items) queue.old.items }
    ensures width { OnOk result (length distances.new.items ≡ length distances.old.items) }
    ensures queue { OnOk result (All (λ state. state < length distances.old.items) queue.new.items) }
{
    for transition in sources {
        put(distances, queue, transition.target, distance)?;
    }
    Ok(())
}

// The same of one state.
fn put(
    distances: &mut Vec<u32>,
    queue: &mut Vec<u32>,
    state: u32,
    distance: u32,
) -> Result<(), OutOfMemory>
    requires state { state < length distances.old.items }
    requires queue { All (λ state. state < length distances.old.items) queue.old.items }
    ensures width { OnOk result (length distances.new.items ≡ length distances.old.items) }
    ensures queue { OnOk result (All (λ state. state < length distances.old.items) queue.new.items) }
{
    if distances[state as usize] == FAR {
        distances[state as usize] = distance;
        queue.push(state)?;
    }
    Ok(())
}

// Whether the numbers are the distances: whether each fits those of the targets of its state's transitions.
fn are_distances(alloc: Global, d: &Dfa, distances: &[u32]) -> Result<bool, OutOfMemory>
    requires { length distances.now ≡ states_of d.now }
    ensures { IfOk result (λ are. are ≡ true → AreDistances d.now distances.now) }
{
    let states = d.states();
    let mut row = Vec::new(alloc);
    for state in 0..states {
        d.transitions_into(state, &mut row)?;
        let distance = distances[state as usize];
        if !fits(distances, d.accepting(state), &row, distance) {
            return Ok(false);
        }
    }
    Ok(true)
}

// Whether the number fits: 0 is that of accepting states alone, and others are one more than the least of the targets.
fn fits(distances: &[u32], accepting: bool, row: &[Transition], distance: u32) -> bool
    requires { All (λ transition. transition.target < length distances.now) row.now }
    ensures { result ≡ fits distances.now accepting row.now distance }
{
    if distance == 0 {
        return accepting;
    }
    !accepting
        && !leads_below(distances, row, distance - 1)
        && (distance == FAR || leads_below(distances, row, distance))
}

// Whether some transition leads to a state with a lesser number.
fn leads_below(distances: &[u32], row: &[Transition], bound: u32) -> bool
    requires { All (λ transition. transition.target < length distances.now) row.now }
    ensures { result ≡ leads_below distances.now row.now bound }
{
    for transition in row {
        if distances[transition.target as usize] < bound {
            return true;
        }
    }
    false
}
