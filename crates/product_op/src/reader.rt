//! Automata that read parts of letters.

ghost use Rattle.std.specs.Prelude.{◌≡◌, ◌<◌, ◌++◌, ◌↔◌, length, OnOk, IsTrue, slice_index};
ghost use Rattle.digit_tuple.specs.Deterministic.{IsTable, accepting_of, letters_of, states_of};
ghost use Rattle.residual_classes.specs.Classes.{next_of, first_of};
ghost use Rattle.product_op.specs.Readings.{reading_in};
ghost use Rattle.product_op.specs.LeadingLetters.{letters_on};

use digit_tuple::dfa::Dfa;
use digit_tuple::faults::OutOfMemory;
use digit_tuple::transitions::Transition;
use minimise::sink::{initial_state, is_accepting, next_state};
use track_parts::track_parts::TrackParts;

/// An automaton, and the part of each letter that it reads. The number past its states is its sink, where missing
/// transitions lead: the empty residual.
#[derive(Drop)]
pub struct Reader<'a> {
    pub dfa: &'a Dfa,
    pub parts: TrackParts,
}

impl Reader<'_> {
    /// The initial state, or the sink where no word is accepted.
    pub fn first(&self) -> u32
        ensures { result ≡ first_of self.now.dfa.now }
    {
        initial_state(self.dfa)
    }

    /// Where a letter leads from a state or the sink.
    pub fn next(&self, state: u32, letter: u32) -> u32
        requires { letter < length self.now.parts }
        ensures { result ≡ next_of self.now.dfa.now state (slice_index self.now.parts letter) }
    {
        next_state(self.dfa, state, self.parts.part(letter))
    }

    /// Whether a state accepts; the sink doesn't.
    pub fn accepts(&self, state: u32) -> bool
        ensures { result ≡ accepting_of self.now.dfa.now state }
    {
        is_accepting(self.dfa, state)
    }

    /// Whether a state is the sink.
    pub fn is_sink(&self, state: u32) -> bool
        ensures { IsTrue result ↔ (state ≡ states_of self.now.dfa.now) }
    {
        state == self.dfa.states()
    }

    /// Adds the letters by whose parts a transition leads on from a state, those of each part in order. The row is
    /// written over.
    pub fn add_letters(
        &self,
        state: u32,
        row: &mut Vec<Transition>,
        letters: &mut Vec<u32>,
    ) -> Result<(), OutOfMemory>
        ensures { OnOk result (letters.new.items ≡ letters.old.items ++ letters_on (reading_in self.now) state) }
    {
        if state >= self.dfa.states() {
            return Ok(());
        }
        self.dfa.transitions_into(state, row)?;
        for transition in row.iter() {
            self.parts.add_letters(transition.letter, letters)?;
        }
        Ok(())
    }
}
