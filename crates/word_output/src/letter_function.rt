//! Automata that give words letters.

ghost use Rattle.std.specs.Prelude.{◌≡◌, ◌≤◌, ℕ, List, length, IfOk};
ghost use Rattle.digit_tuple.specs.Deterministic.{states_of, letters_of};
ghost use Rattle.digit_tuple.specs.FirstWords.{IsNumberedByFirsts};
ghost use Rattle.digit_tuple.specs.Letters.{IsWord};
ghost use Rattle.residual_classes.specs.Classes.{class_of};
ghost use Rattle.word_output.specs.LetterFunctions.{IsLetterFunction, letter_after, letter_in, outputs_of};
ghost use Rattle.word_output.specs.StateLetters.{letter_led};

use crate::state_letters::{classes_of, distinct_letters};
use digit_tuple::dfa::Dfa;
use digit_tuple::faults::OutOfMemory;
use minimise::canonical_classes::canonical_classes;
use std::alloc::Global;
use std::marker::Model;

/// A function from words to letters, which some words may lack: the minimal automaton that determines it, with the
/// class of each state. A state of class 0 has no letter, and one of class 1 the first letter. The letters are in
/// ascending order, and each is that of some word.
#[derive(Drop)]
pub struct LetterFunction {
    table: Dfa,
    table_classes: Vec<u32>,
    table_letters: Vec<i32>,
}

impl Model for LetterFunction {
    ghost use Rattle.residual_classes.specs.Classes.{class_of};
    ghost use Rattle.word_output.specs.LetterFunctions.{LetterFunctionValue, IsLetterFunction};

    ghost Value = { LetterFunctionValue };

    ghost view = { λ f. record { automaton = f.table; classes = f.table_classes.items; letters = f.table_letters.items } };

    ghost invariant = { λ f. IsLetterFunction (record { automaton = f.table; classes = f.table_classes.items; letters = f.table_letters.items }) };
}

impl LetterFunction {
    /// The function that gives words the letters of the states that they lead to in a table. Some word leads to each
    /// state. Time and memory are those of minimising the table, but for sorting letters.
    pub fn of_states(
        alloc: Global,
        table: &Dfa,
        letters: &[Option<i32>],
    ) -> Result<Self, OutOfMemory>
        requires count { length letters.now ≡ states_of table.now }
        requires reached { (firsts : List (List ℕ)) × IsNumberedByFirsts table.now firsts }
        ensures function { IfOk result IsLetterFunction }
        ensures sizes { IfOk result (λ f. f.automaton.sizes ≡ table.now.sizes) }
        ensures size { IfOk result (λ f. states_of f.automaton ≤ states_of table.now) }
        ensures letters { IfOk result (λ f. (w : List ℕ) → IsWord (letters_of table.now) w → letter_after f w ≡ letter_led table.now letters.now w) }
    {
        let _states = table.states();
        let table_letters = distinct_letters(alloc, letters)?;
        let classes = classes_of(alloc, letters, &table_letters)?;
        let (table, table_classes) = canonical_classes(alloc, table, &classes)?;
        Ok(LetterFunction {
            table,
            table_classes,
            table_letters,
        })
    }

    /// The automaton; a state accepts where it has a letter.
    pub fn dfa(&self) -> &Dfa
        ensures value { result.now ≡ self.now.automaton }
        ensures function { IsLetterFunction self.now }
    {
        &self.table
    }

    /// The letter of a state, which a number past the states has none.
    pub fn letter_of(&self, state: u32) -> Option<i32>
        ensures { result ≡ letter_in self.now.letters (class_of self.now.classes state) }
    {
        match self.table_classes.get(state as usize) {
            Some(class) if *class > 0 => Some(self.table_letters[*class as usize - 1]),
            _ => None,
        }
    }

    /// The letter of each state, in their order; None is no letter. Out of memory gives nothing.
    pub fn outputs(&self, alloc: Global) -> Result<Vec<Option<i32>>, OutOfMemory>
        ensures outputs { IfOk result (λ outputs. outputs.items ≡ outputs_of self.now) }
        ensures count { length (outputs_of self.now) ≡ states_of self.now.automaton }
    {
        let mut outputs = Vec::with_capacity(alloc, self.table_classes.len())?;
        for class in &self.table_classes {
            outputs.push(letter_of_class(&self.table_letters, *class))?;
        }
        Ok(outputs)
    }

    /// The class of each state.
    pub fn classes(&self) -> &[u32]
        ensures value { result.now ≡ self.now.classes }
        ensures function { IsLetterFunction self.now }
    {
        &self.table_classes
    }

    /// The letters that words have, in ascending order. It takes no memory.
    pub fn letters(&self) -> &[i32]
        ensures value { result.now ≡ self.now.letters }
        ensures function { IsLetterFunction self.now }
    {
        &self.table_letters
    }
}

// The letter of a class; class 0 has none.
fn letter_of_class(letters: &[i32], class: u32) -> Option<i32>
    requires { class ≤ length letters.now }
    ensures { result ≡ letter_in letters.now class }
{
    if class == 0 {
        None
    } else {
        Some(letters[class as usize - 1])
    }
}
