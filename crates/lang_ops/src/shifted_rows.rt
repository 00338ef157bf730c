//! The states of an automaton after those of another.

ghost use Rattle.std.specs.Prelude.{◌≡◌, ◌<◌, ◌+◌, ◌^◌, ◌++◌, map, IfOk, OnOk};
ghost use Rattle.std.specs.List.{All};
ghost use Rattle.digit_tuple.specs.Deterministic.{IsTable, letters_of, states_of};
ghost use Rattle.digit_tuple.specs.Rows.{branches_in};
ghost use Rattle.lang_ops.specs.ShiftedRows.{shifted_state, shifted_transition};

use digit_tuple::dfa::Dfa;
use digit_tuple::faults::OutOfMemory;
use digit_tuple::transitions::{NfaState, Transition};
use std::alloc::Global;

/// Adds the states of the automaton, whose transitions lead as much further as there are states before them.
pub fn add_shifted(
    alloc: Global,
    d: &Dfa,
    before: u32,
    rows: &mut Vec<NfaState>,
) -> Result<(), OutOfMemory>
    requires { states_of d.now + before < 2 ^ 32 }
    ensures rows { OnOk result (branches_in rows.new.items ≡ branches_in rows.old.items ++ map (shifted_state before) d.now.states) }
    ensures table { IsTable (letters_of d.now) d.now.states }
{
    let states = d.states();
    let mut row = Vec::new(alloc);
    for state in 0..states {
        d.transitions_into(state, &mut row)?;
        rows.push(NfaState {
            accepting: d.accepting(state),
            transitions: shifted(alloc, &row, before)?,
        })?;
    }
    Ok(())
}

// The transitions, which lead so much further.
fn shifted(
    alloc: Global,
    transitions: &[Transition],
    before: u32,
) -> Result<Vec<Transition>, OutOfMemory>
    requires { All (λ transition. transition.target + before < 2 ^ 32) transitions.now }
    ensures { IfOk result (λ row. row.items ≡ map (shifted_transition before) transitions.now) }
{
    let mut row = Vec::with_capacity(alloc, transitions.len())?;
    for transition in transitions {
        row.push(Transition {
            letter: transition.letter,
            target: transition.target + before,
        })?;
    }
    Ok(row)
}
