//! Automatic words.

ghost use Rattle.std.specs.Prelude.{◌≡◌, map};
ghost use Rattle.std.specs.Rc.{rc_value};
ghost use Rattle.digit_tuple.specs.Deterministic.{run_of};
ghost use Rattle.word_output.specs.LetterFunctions.{letter_after};
ghost use Rattle.word_output.specs.Words.{IsWordValue};

use crate::letter_function::LetterFunction;
use digit_tuple::dfa::Dfa;
use num_system::system::System;
use std::marker::Model;
use std::rc::Rc;

/// An automatic word: letters at positions, which are tuples of numbers. Each track has a sealed system, and these have one
/// direction. All representations of a position have its letter, or none if it has none, and other words have none.
#[derive(Drop)]
pub struct Word {
    letter_function: LetterFunction,
    track_systems: Vec<Rc<System>>,
}

impl Model for Word {
    ghost use Rattle.std.specs.Prelude.{map};
    ghost use Rattle.std.specs.Rc.{rc_value};
    ghost use Rattle.word_output.specs.Words.{WordValue, IsWordValue};

    ghost Value = { WordValue };

    ghost view = { λ w. record { systems = map rc_value w.track_systems.items; function = w.letter_function } };

    ghost invariant = { λ w. IsWordValue (record { systems = map rc_value w.track_systems.items; function = w.letter_function }) };
}

impl Word {
    /// The word with these letters over these systems.
    pub fn from_parts(function: LetterFunction, systems: Vec<Rc<System>>) -> Self
        requires { IsWordValue (record { systems = map rc_value systems.items; function = function }) }
        ensures { result ≡ record { systems = map rc_value systems.items; function = function } }
    {
        Word {
            letter_function: function,
            track_systems: systems,
        }
    }

    /// The systems of the tracks, in their order.
    pub fn systems(&self) -> &[Rc<System>]
        ensures value { map rc_value result.now ≡ self.now.systems }
        ensures word { IsWordValue self.now }
    {
        &self.track_systems
    }

    /// The letters that positions have, in ascending order. It takes no memory.
    pub fn letters(&self) -> &[i32]
        ensures value { result.now ≡ self.now.function.letters }
        ensures word { IsWordValue self.now }
    {
        self.letter_function.letters()
    }

    /// The letter of a word over the tracks. It is None for a word over their digits that represents no position, or a position
    /// without a letter. It takes no memory; the time follows the word.
    pub fn value(&self, word: &[u32]) -> Option<i32>
        ensures value { result ≡ letter_after self.now.function word.now }
        ensures word { IsWordValue self.now }
    {
        let function = &self.letter_function;
        match state_after(function.dfa(), word) {
            Some(state) => function.letter_of(state),
            None => None,
        }
    }

    /// The letters of the words over the tracks.
    pub fn function(&self) -> &LetterFunction
        ensures value { result.now ≡ self.now.function }
        ensures word { IsWordValue self.now }
    {
        &self.letter_function
    }
}

// The state to which the word leads, or None where it leads nowhere.
fn state_after(table: &Dfa, word: &[u32]) -> Option<u32>
    ensures { result ≡ run_of table.now 0 word.now }
{
    let mut state = 0;
    let _states = table.states();
    for letter in word {
        match table.step(state, *letter) {
            Some(next) => state = next,
            None => return None,
        }
    }
    Some(state)
}
