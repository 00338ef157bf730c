//! States put in order by the links between them (Arthur Kahn, "Topological sorting of large networks"): a state comes
//! where links lead to it from earlier ones alone. What is left over has a cycle.

ghost use Rattle.std.specs.Prelude.{◌≡◌, ◌+◌, ◌*◌, ◌<◌, ◌≤◌, ◌^◌, ◌==◌, ℕ, length, slice_index_or, true, false, IfOk, OnOk};
ghost use Rattle.std.specs.List.{All};
ghost use Rattle.digit_tuple.specs.Deterministic.{states_of};
ghost use Rattle.endless.specs.Links.{HasPlaces, HasRound};
ghost use Rattle.endless.specs.Counts.{AreIncoming, AreFree, AreAdded, AreReleased, IsOneLess, IsSorted, Grows, counted, is_kept as keeps};

use digit_tuple::dfa::Dfa;
use digit_tuple::faults::OutOfMemory;
use digit_tuple::transitions::Transition;
use std::alloc::Global;

/// Whether links lead round. The zero of one state is no link; there may be no such state. The time follows the number
/// of transitions.
pub fn has_round(alloc: Global, language: &Dfa, without: u32) -> Result<bool, OutOfMemory>
    ensures round { IfOk result (λ is. is ≡ true → HasRound language.now without) }
    ensures places { IfOk result (λ is. is ≡ false → HasPlaces language.now without) }
{
    let pending = sorted(alloc, language, without)?;
    for state in 0..pending.len() {
        if pending[state] > 0 {
            return Ok(true);
        }
    }
    Ok(false)
}

// How many links lead to each state from states that are left over.
fn sorted(alloc: Global, language: &Dfa, without: u32) -> Result<Vec<u64>, OutOfMemory>
    ensures { IfOk result (λ pending. IsSorted language.now without pending.items) }
{
    let _states = language.states();
    let mut pending = incoming(alloc, language, without)?;
    let mut order = free_states(alloc, &pending)?;
    let mut row = Vec::new(alloc);
    for place in 0..language.states() as usize {
        if place < order.len() {
            let state = order[place];
            language.transitions_into(state, &mut row)?;
            release(&mut pending, &mut order, &row, state == without)?;
        }
    }
    Ok(pending)
}

// How many links lead to each state.
fn incoming(alloc: Global, language: &Dfa, without: u32) -> Result<Vec<u64>, OutOfMemory>
    ensures { IfOk result (λ pending. AreIncoming language.now without pending.items (states_of language.now)) }
{
    let states = language.states();
    let _letters = language.alphabet().letters();
    let mut pending = vec![in alloc; 0; states as usize]?;
    let mut row = Vec::new(alloc);
    for state in 0..states {
        language.transitions_into(state, &mut row)?;
        add_links(&mut pending, &row, state == without);
    }
    Ok(pending)
}

// Counts one link more to the target of each transition, but for zeros where they are left out.
fn add_links(pending: &mut Vec<u64>, transitions: &[Transition], without_zero: bool)
    requires targets { All (λ transition. transition.target < length pending.old.items) transitions.now }
    requires room { All (λ count. count + length transitions.now < 2 ^ 64) pending.old.items }
    ensures { AreAdded without_zero transitions.now pending.old.items pending.new.items }
{
    for transition in transitions {
        if is_kept(transition, without_zero) {
            pending[transition.target as usize] += 1;
        }
    }
}

// The states to which no link leads.
fn free_states(alloc: Global, pending: &[u64]) -> Result<Vec<u32>, OutOfMemory>
    requires { length pending.now < 2 ^ 32 }
    ensures { IfOk result (λ order. AreFree pending.now order.items (length pending.now)) }
{
    let mut order = Vec::new(alloc);
    for state in 0..pending.len() {
        if pending[state] == 0 {
            order.push(state as u32)?;
        }
    }
    Ok(order)
}

// Lets the links of a state's transitions go, and puts the states into the order to which none leads then.
fn release(
    pending: &mut Vec<u64>,
    order: &mut Vec<u32>,
    transitions: &[Transition],
    without_zero: bool,
) -> Result<(), OutOfMemory>
    requires free { AreFree pending.old.items order.old.items (length pending.old.items) }
    requires targets { All (λ transition. transition.target < length pending.old.items) transitions.now }
    requires enough { (q : ℕ) → q < length pending.old.items → counted without_zero transitions.now q ≤ slice_index_or pending.old.items q 0 }
    ensures released { OnOk result (AreReleased without_zero transitions.now pending.old.items pending.new.items) }
    ensures free { OnOk result (AreFree pending.new.items order.new.items (length pending.new.items)) }
    ensures grows { OnOk result (Grows order.old.items order.new.items) }
{
    for transition in transitions {
        if is_kept(transition, without_zero) {
            release_link(pending, order, transition.target)?;
        }
    }
    Ok(())
}

// Lets one link to the state go, and puts the state into the order where it was the last.
fn release_link(
    pending: &mut Vec<u64>,
    order: &mut Vec<u32>,
    target: u32,
) -> Result<(), OutOfMemory>
    requires free { AreFree pending.old.items order.old.items (length pending.old.items) }
    requires within { target < length pending.old.items }
    requires some { 0 < slice_index_or pending.old.items target 0 }
    ensures less { OnOk result (IsOneLess pending.old.items pending.new.items target) }
    ensures free { OnOk result (AreFree pending.new.items order.new.items (length pending.new.items)) }
    ensures grows { OnOk result (Grows order.old.items order.new.items) }
{
    let count = pending[target as usize] - 1;
    pending[target as usize] = count;
    if count == 0 {
        order.push(target)?;
    }
    Ok(())
}

// Whether the transition is not by 0, where such transitions are left out.
fn is_kept(transition: &Transition, without_zero: bool) -> bool
    ensures { result ≡ keeps without_zero transition.now }
{
    !(without_zero && transition.letter == 0)
}
