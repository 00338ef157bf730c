//! Deterministic automata built state by state.

ghost use Rattle.std.specs.Prelude.{◌≡◌, ℕ, ◌<◌, ◌++◌, ◌∷◌, [], length, IfOk, OnOk, OnErr};
ghost use Rattle.std.specs.List.{All, AllPairs};
ghost use Rattle.digit_tuple.specs.Deterministic.{Automaton, IsPartTable, IsSet, IsByEarlier, IsTransitionSet, KeepsRow, states_of, letters_of, with_state};
ghost use Rattle.digit_tuple.specs.Letters.{product};

use crate::alphabet::Alphabet;
use crate::dense::place_in;
use crate::dfa::{Dfa, DfaState};
use crate::faults::OutOfMemory;
use crate::transitions::Transition;
use std::alloc::Global;
use std::marker::Model;

/// A deterministic automaton that is being built: its states so far, and where letters lead.
#[derive(Drop)]
pub struct DfaBuilder {
    alloc: Global,
    tracks: Alphabet,
    rows: Vec<DfaState>,
}

impl Model for DfaBuilder {
    ghost use Rattle.digit_tuple.specs.Deterministic.{Automaton, IsPartTable};
    ghost use Rattle.digit_tuple.specs.Letters.{product};
    ghost use Rattle.digit_tuple.specs.DfaRows.{states_in};

    ghost Value = { Automaton };

    ghost view = { λ b. record { sizes = b.tracks; states = states_in b.rows.items } };

    ghost invariant = { λ b. IsPartTable (product b.tracks) (states_in b.rows.items) };
}

impl DfaBuilder {
    /// No states yet.
    pub fn new(alloc: Global, alphabet: Alphabet) -> Result<Self, OutOfMemory>
        ensures { IfOk result (λ builder. builder ≡ record { sizes = alphabet; states = [] }) }
    {
        Ok(DfaBuilder {
            alloc,
            tracks: alphabet,
            rows: Vec::new(alloc),
        })
    }

    /// Adds a state from which no letter leads anywhere, and gives its number: how many there were.
    /// OutOfMemory comes too where there are 2^32 - 1 states. A refused call leaves the states.
    pub fn add_state(&mut self, accepting: bool) -> Result<u32, OutOfMemory>
        ensures number { IfOk result (λ state. state ≡ states_of self.old) }
        ensures state { OnOk result (self.new ≡ with_state self.old accepting) }
        ensures err { OnErr result (self.new ≡ self.old) }
    {
        let number = self.rows.len();
        if number >= u32::MAX as usize {
            return Err(OutOfMemory);
        }
        let transitions = Vec::new(self.alloc);
        self.rows.push(DfaState {
            accepting,
            transitions,
        })?;
        Ok(number as u32)
    }

    /// Lets the letter lead from the state to another, wherever it led before. A refused call leaves
    /// all as it was.
    pub fn set(&mut self, state: u32, letter: u32, to: u32) -> Result<(), OutOfMemory>
        requires state { state < states_of self.old }
        requires letter { letter < letters_of self.old }
        requires to { to < states_of self.old }
        ensures set { OnOk result (IsSet self.old self.new state letter to) }
        ensures err { OnErr result (self.new ≡ self.old) }
    {
        let row = &mut self.rows[state as usize];
        set_transition(&mut row.transitions, letter, to)
    }

    /// The automaton, whose initial state is the one that was added first.
    pub fn finish(self) -> Result<Dfa, OutOfMemory>
        requires { 0 < states_of self }
        ensures { IfOk result (λ dfa. dfa ≡ self) }
    {
        Dfa::from_states(self.alloc, self.tracks, self.rows)
    }
}

// Lets the transition by the letter lead to the target.
fn set_transition(
    transitions: &mut Vec<Transition>,
    letter: u32,
    target: u32,
) -> Result<(), OutOfMemory>
    requires { AllPairs IsByEarlier transitions.old.items }
    ensures row { KeepsRow transitions.old.items transitions.new.items letter target }
    ensures set { OnOk result (IsTransitionSet transitions.old.items transitions.new.items letter target) }
    ensures err { OnErr result (transitions.new.items ≡ transitions.old.items) }
{
    let place = place_in(transitions, letter);
    if place < transitions.len() && transitions[place].letter == letter {
        transitions[place].target = target;
    } else {
        transitions.insert(place, Transition { letter, target })?;
    }
    Ok(())
}
