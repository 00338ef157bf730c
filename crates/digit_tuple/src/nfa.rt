//! Nondeterministic automata.

ghost use Rattle.std.specs.Prelude.{◌≡◌, ℕ, ◌<◌, ◌↔◌, length, IfOk, IsSome, IfSome, IsTrue};
ghost use Rattle.std.specs.List.{All, AllPairs};
ghost use Rattle.digit_tuple.specs.Automaton.{Branching, Branch, IsBranchTable, IsRow, accepting_of, transitions_of, states_of, letters_of, IsBefore};
ghost use Rattle.digit_tuple.specs.Letters.{product, IsAlphabet};
ghost use Rattle.digit_tuple.specs.Rows.{branches_in};

use crate::alphabet::Alphabet;
use crate::faults::OutOfMemory;
use crate::transitions::{NfaState, Transition};
use std::alloc::Global;
use std::marker::Model;

/// A nondeterministic automaton, whose initial state is 0. There is a state, there are fewer than 2^32, and the
/// transitions of each are by letters of the alphabet, lead to states, and are in order.
#[derive(Drop)]
pub struct Nfa {
    tracks: Alphabet,
    rows: Vec<NfaState>,
}

impl Model for Nfa {
    ghost use Rattle.digit_tuple.specs.Automaton.{Branching, IsBranchTable};
    ghost use Rattle.digit_tuple.specs.Letters.{product};
    ghost use Rattle.digit_tuple.specs.Rows.{branches_in};

    ghost Value = { Branching };

    ghost view = { λ n. record { sizes = n.tracks; states = branches_in n.rows.items } };

    ghost invariant = { λ n. IsBranchTable (product n.tracks) (branches_in n.rows.items) };
}

impl Nfa {
    /// The automaton with these states.
    pub fn from_states(
        _alloc: Global,
        alphabet: Alphabet,
        states: Vec<NfaState>,
    ) -> Result<Self, OutOfMemory>
        requires { IsBranchTable (product alphabet) (branches_in states.items) }
        ensures { IfOk result (λ nfa. nfa ≡ record { sizes = alphabet; states = branches_in states.items }) }
    {
        Ok(Nfa {
            tracks: alphabet,
            rows: states,
        })
    }

    /// The automaton with these states, or None if they are no table: there is no state, or 2^32, or a state's
    /// transitions are by no letters of the alphabet, lead to no states or are out of order.
    pub fn try_from_states(
        alloc: Global,
        alphabet: Alphabet,
        states: Vec<NfaState>,
    ) -> Result<Option<Self>, OutOfMemory>
        ensures fits { IfOk result (λ made. IsSome made ↔ IsBranchTable (product alphabet) (branches_in states.items)) }
        ensures value { IfOk result (λ made. IfSome made (λ nfa. nfa ≡ record { sizes = alphabet; states = branches_in states.items })) }
    {
        if is_table(alphabet.letters(), &states) {
            Ok(Some(Nfa::from_states(alloc, alphabet, states)?))
        } else {
            Ok(None)
        }
    }

    /// How many states there are.
    pub fn states(&self) -> u32
        ensures value { result ≡ states_of self.now }
        ensures table { IsBranchTable (letters_of self.now) self.now.states }
    {
        self.rows.len() as u32
    }

    /// The alphabet of its letters.
    pub fn alphabet(&self) -> &Alphabet
        ensures sizes { result.now ≡ self.now.sizes }
        ensures table { IsBranchTable (letters_of self.now) self.now.states }
    {
        &self.tracks
    }

    /// Whether a state accepts.
    pub fn is_accepting(&self, state: u32) -> bool
        requires { state < states_of self.now }
        ensures accepting { result ≡ accepting_of self.now state }
        ensures table { IsBranchTable (letters_of self.now) self.now.states }
    {
        self.rows[state as usize].accepting
    }

    /// The transitions of a state, by letter, then by target.
    pub fn transitions(&self, state: u32) -> &[Transition]
        requires { state < states_of self.now }
        ensures transitions { result.now ≡ transitions_of self.now state }
        ensures row { IsRow (letters_of self.now) (states_of self.now) result.now }
        ensures table { IsBranchTable (letters_of self.now) self.now.states }
    {
        &self.rows[state as usize].transitions
    }
}

// Whether the states are a table over an alphabet with as many letters.
fn is_table(letters: u32, states: &[NfaState]) -> bool
    ensures { IsTrue result ↔ IsBranchTable letters (branches_in states.now) }
{
    if states.is_empty() || states.len() > u32::MAX as usize {
        return false;
    }
    let count = states.len() as u32;
    for state in states {
        if !is_row(letters, count, &state.transitions) {
            return false;
        }
    }
    true
}

// Whether the transitions may be those of a state.
fn is_row(letters: u32, states: u32, transitions: &[Transition]) -> bool
    ensures { IsTrue result ↔ IsRow letters states transitions.now }
{
    are_in_range(letters, states, transitions) && are_ascending(transitions)
}

// Whether the transitions are by letters of the alphabet and lead to states.
fn are_in_range(letters: u32, states: u32, transitions: &[Transition]) -> bool
    ensures { IsTrue result ↔ All (λ transition. (transition.letter < letters) × (transition.target < states)) transitions.now }
{
    for transition in transitions {
        if transition.letter >= letters || transition.target >= states {
            return false;
        }
    }
    true
}

// Whether each transition is before the next.
fn are_ascending(transitions: &[Transition]) -> bool
    ensures { IsTrue result ↔ AllPairs IsBefore transitions.now }
{
    for place in 1..transitions.len() {
        if !transitions[place - 1].is_before(&transitions[place]) {
            return false;
        }
    }
    true
}
