//! The states of an automaton, linked to another state: what leads to an accepting state leads there too.

ghost use Rattle.std.specs.Prelude.{◌≡◌, ◌<◌, IfOk, Some};
ghost use Rattle.std.specs.List.{All, AllPairs};
ghost use Rattle.digit_tuple.specs.Deterministic.{IsTable, letters_of, states_of, transitions_of};
ghost use Rattle.digit_tuple.specs.Rows.{branches_in};
ghost use Rattle.lang_ops.specs.LinkedRows.{AreLinked, AreLinkedRows};

use digit_tuple::dfa::Dfa;
use digit_tuple::faults::OutOfMemory;
use digit_tuple::transitions::{NfaState, Transition};
use std::alloc::Global;

/// A state for each of the automaton, with its transitions, linked to a state if one is given. With `ends` the
/// accepting ones accept, else none does.
pub fn linked_rows(
    alloc: Global,
    d: &Dfa,
    link: Option<u32>,
    ends: bool,
) -> Result<Vec<NfaState>, OutOfMemory>
    ensures rows { IfOk result (λ rows. AreLinkedRows d.now link ends (branches_in rows.items) (states_of d.now)) }
    ensures table { IsTable (letters_of d.now) d.now.states }
{
    let states = d.states();
    let mut rows = Vec::with_capacity(alloc, states as usize)?;
    for state in 0..states {
        rows.push(NfaState {
            accepting: ends && d.accepting(state),
            transitions: linked_transitions(alloc, d, state, link)?,
        })?;
    }
    Ok(rows)
}

/// The transitions of a state, and with each that leads to an accepting state one by the same letter to the link, if
/// one is given; in order.
pub fn linked_transitions(
    alloc: Global,
    d: &Dfa,
    state: u32,
    link: Option<u32>,
) -> Result<Vec<Transition>, OutOfMemory>
    requires { state < states_of d.now }
    ensures { IfOk result (λ row. AreLinked d.now link (transitions_of d.now state) row.items) }
{
    let mut row = Vec::new(alloc);
    d.transitions_into(state, &mut row)?;
    match link {
        Some(target) => with_links(alloc, d, &row, target),
        None => Ok(row),
    }
}

// The transitions, and with each that leads to an accepting state one by the same letter to the link; in order.
fn with_links(
    alloc: Global,
    d: &Dfa,
    transitions: &[Transition],
    link: u32,
) -> Result<Vec<Transition>, OutOfMemory>
    requires { All (λ transition. transition.target < states_of d.now) transitions.now }
    ensures { IfOk result (λ new. AreLinked d.now (Some link) transitions.now new.items) }
{
    let mut new = Vec::with_capacity(alloc, transitions.len())?;
    for transition in transitions {
        new.push(*transition)?;
        if d.accepting(transition.target) {
            new.push(Transition {
                letter: transition.letter,
                target: link,
            })?;
        }
    }
    new.sort()?;
    new.dedup();
    Ok(new)
}
