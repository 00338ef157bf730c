//! Dense tables: the transitions of each state in a list of its own, by letter.

ghost use Rattle.std.specs.Prelude.{◌≡◌, ℕ, ◌<◌, ◌≤◌, Bool, Option, length, IfSome};
ghost use Rattle.std.specs.List.{AllPairs, AllWithin};
ghost use Rattle.digit_tuple.specs.Deterministic.{Automaton, IsTable, IsRow, IsByEarlier, target_by, step_of, accepting_of, transitions_of, states_of, letters_of};
ghost use Rattle.digit_tuple.specs.Letters.{product};
ghost use Rattle.digit_tuple.specs.DfaRows.{states_in};

use crate::alphabet::Alphabet;
use crate::dfa::DfaState;
use crate::table::Table;
use crate::transitions::Transition;
use std::marker::Model;

/// A deterministic automaton whose states each keep a list of transitions. Its initial state is 0, and it is a table as
/// `Dfa` is one.
#[derive(Drop)]
pub struct Dense {
    tracks: Alphabet,
    rows: Vec<DfaState>,
}

impl Model for Dense {
    ghost use Rattle.digit_tuple.specs.Deterministic.{Automaton, IsTable};
    ghost use Rattle.digit_tuple.specs.Letters.{product};
    ghost use Rattle.digit_tuple.specs.DfaRows.{states_in};

    ghost Value = { Automaton };

    ghost view = { λ d. record { sizes = d.tracks; states = states_in d.rows.items } };

    ghost invariant = { λ d. IsTable (product d.tracks) (states_in d.rows.items) };
}

impl Dense {
    /// The automaton with these states.
    pub fn from_states(alphabet: Alphabet, states: Vec<DfaState>) -> Self
        requires { IsTable (product alphabet) (states_in states.items) }
        ensures { result ≡ record { sizes = alphabet; states = states_in states.items } }
    {
        Dense {
            tracks: alphabet,
            rows: states,
        }
    }

    /// The alphabet of its letters.
    pub fn alphabet(&self) -> &Alphabet
        ensures sizes { result.now ≡ self.now.sizes }
        ensures table { IsTable (letters_of self.now) self.now.states }
    {
        &self.tracks
    }

    /// The transitions of a state, by letter.
    pub fn transitions(&self, state: u32) -> &[Transition]
        requires { state < states_of self.now }
        ensures transitions { result.now ≡ transitions_of self.now state }
        ensures row { IsRow (letters_of self.now) (states_of self.now) result.now }
        ensures table { IsTable (letters_of self.now) self.now.states }
    {
        &self.rows[state as usize].transitions
    }
}

impl Table for Dense {
    ghost letter_count = { λ d. letters_of d };

    ghost state_count = { λ d. states_of d };

    ghost target = { λ d q letter. step_of d q letter };

    ghost accepts = { λ d q. accepting_of d q };

    fn letters(&self) -> u32 {
        self.tracks.letters()
    }

    fn states(&self) -> u32 {
        self.rows.len() as u32
    }

    fn step(&self, q: u32, letter: u32) -> Option<u32> {
        target_in(self.transitions(q), letter)
    }

    fn accepting(&self, q: u32) -> bool {
        self.rows[q as usize].accepting
    }
}

// Where the transition by the letter leads.
pub(crate) fn target_in(transitions: &[Transition], letter: u32) -> Option<u32>
    requires { AllPairs IsByEarlier transitions.now }
    ensures { result ≡ target_by transitions.now letter }
{
    let place = place_in(transitions, letter);
    if place < transitions.len() && transitions[place].letter == letter {
        Some(transitions[place].target)
    } else {
        None
    }
}

// The place of the transition by the letter, or where it would be.
pub(crate) fn place_in(transitions: &[Transition], letter: u32) -> usize
    requires { AllPairs IsByEarlier transitions.now }
    ensures within { result ≤ length transitions.now }
    ensures before { AllWithin (λ transition. transition.letter < letter) transitions.now 0 result }
    ensures after { AllWithin (λ transition. letter ≤ transition.letter) transitions.now result (length transitions.now) }
{
    let mut low = 0;
    let mut high = transitions.len();
    while low < high {
        let middle = low + (high - low) / 2;
        if transitions[middle].letter < letter {
            low = middle + 1;
        } else {
            high = middle;
        }
    }
    low
}
