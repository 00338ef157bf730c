//! The maps of blocks of letters.

ghost use Rattle.std.specs.Prelude.{◌≡◌, ◌+◌, ◌*◌, ◌/◌, ◌%◌, ◌<◌, ◌^◌, ◌++◌, length, slice_index, IfOk, OnOk};
ghost use Rattle.digit_tuple.specs.Deterministic.{letters_of, states_of};
ghost use Rattle.residual_classes.specs.Classes.{next_of};
ghost use Rattle.word_transduce.specs.BlockMaps.{IsBlockGraph, at_pairs, first_end, first_output, map_at, pairs_of};
ghost use Rattle.word_transduce.specs.BlockLengths.{ends_after, place_at};

use crate::output_numbers::output_number;
use digit_tuple::faults::OutOfMemory;
use std::alloc::Global;
use transducer_reading::Transducer;
use word_output::letter_function::LetterFunction;

/// The maps of blocks of letters, from pairs of a state of a letter function, whose letters after it are the block, and a
/// state of a transducer: the number of what is made at a position of the block, then the number of the state after the block.
/// Number 0 says that the run stops before. The block of one digit more is the blocks of its first digits one after
/// another, and the digit says in which of them the position is.
#[derive(Clone, Copy)]
pub struct BlockMaps<'a> {
    pub transducer: &'a Transducer,
    pub function: &'a LetterFunction,
    pub targets: &'a [u32],
}

impl BlockMaps<'_> {
    /// How many pairs there are.
    pub fn pairs(&self) -> usize
        requires { IsBlockGraph self.now.transducer.now self.now.function.now self.now.targets.now }
        ensures { result ≡ pairs_of self.now.transducer.now self.now.function.now }
    {
        self.function.dfa().states() as usize * self.transducer.states()
    }

    /// Adds the outputs of blocks of one letter.
    pub fn push_first_outputs(&self, key: &mut Vec<u32>) -> Result<(), OutOfMemory>
        requires { IsBlockGraph self.now.transducer.now self.now.function.now self.now.targets.now }
        ensures { OnOk result (key.new.items ≡ key.old.items ++ at_pairs self.now.transducer.now self.now.function.now (first_output self.now.transducer.now self.now.function.now)) }
    {
        for pair in 0..self.pairs() {
            key.push(self.first_output(pair))?;
        }
        Ok(())
    }

    // What is made of the one letter at a pair.
    fn first_output(&self, pair: usize) -> u32
        requires graph { IsBlockGraph self.now.transducer.now self.now.function.now self.now.targets.now }
        requires pair { pair < pairs_of self.now.transducer.now self.now.function.now }
        ensures { result ≡ first_output self.now.transducer.now self.now.function.now pair }
    {
        let states = self.transducer.states();
        let state = pair % states;
        let Some(letter) = self.function.letter_of((pair / states) as u32) else {
            return 0;
        };
        match self.transducer.step(state, letter) {
            Some((_, output)) => output_number(self.transducer.lines(), state, output),
            None => 0,
        }
    }

    /// The ends of blocks of one letter.
    pub fn first_ends(&self, alloc: Global) -> Result<Vec<u32>, OutOfMemory>
        requires { IsBlockGraph self.now.transducer.now self.now.function.now self.now.targets.now }
        ensures { IfOk result (λ ends. ends.items ≡ at_pairs self.now.transducer.now self.now.function.now (first_end self.now.transducer.now self.now.function.now)) }
    {
        let pairs = self.pairs();
        let mut ends = Vec::with_capacity(alloc, pairs)?;
        for pair in 0..pairs {
            ends.push(self.first_end(pair))?;
        }
        Ok(ends)
    }

    // Where the one letter leads at a pair.
    fn first_end(&self, pair: usize) -> u32
        requires graph { IsBlockGraph self.now.transducer.now self.now.function.now self.now.targets.now }
        requires pair { pair < pairs_of self.now.transducer.now self.now.function.now }
        ensures { result ≡ first_end self.now.transducer.now self.now.function.now pair }
    {
        let states = self.transducer.states();
        let Some(letter) = self.function.letter_of((pair / states) as u32) else {
            return 0;
        };
        match self.transducer.step(pair % states, letter) {
            Some((target, _)) => target as u32 + 1,
            None => 0,
        }
    }

    /// The ends of blocks of one digit more.
    pub fn ends_after(&self, alloc: Global, ends: &[u32]) -> Result<Vec<u32>, OutOfMemory>
        requires { IsBlockGraph self.now.transducer.now self.now.function.now self.now.targets.now }
        ensures { IfOk result (λ after. after.items ≡ ends_after self.now.transducer.now self.now.function.now ends.now) }
    {
        let mut states = self.first_states(alloc)?;
        for digit in 0..self.function.dfa().alphabet().letters() {
            self.advance(ends, digit, &mut states);
        }
        Ok(states)
    }

    /// Where runs begin.
    pub fn first_states(&self, alloc: Global) -> Result<Vec<u32>, OutOfMemory>
        requires { IsBlockGraph self.now.transducer.now self.now.function.now self.now.targets.now }
        ensures { IfOk result (λ states. states.items ≡ at_pairs self.now.transducer.now self.now.function.now (λ pair. pair % self.now.transducer.now.states + 1)) }
    {
        let count = self.transducer.states();
        let pairs = self.pairs();
        let mut states = Vec::with_capacity(alloc, pairs)?;
        for pair in 0..pairs {
            states.push((pair % count) as u32 + 1)?;
        }
        Ok(states)
    }

    /// Where the outputs in the block of a digit are among those of the blocks, of runs that begin it in these states.
    pub fn places(
        &self,
        alloc: Global,
        digit: u32,
        states: &[u32],
    ) -> Result<Vec<usize>, OutOfMemory>
        requires graph { IsBlockGraph self.now.transducer.now self.now.function.now self.now.targets.now }
        requires digit { digit < letters_of self.now.function.now.automaton }
        requires states { length states.now ≡ pairs_of self.now.transducer.now self.now.function.now }
        ensures { IfOk result (λ places. places.items ≡ at_pairs self.now.transducer.now self.now.function.now (λ pair. place_at (pairs_of self.now.transducer.now self.now.function.now) self.now.transducer.now.states (next_of self.now.function.now.automaton (pair / self.now.transducer.now.states) digit) (slice_index states.now pair))) }
    {
        let count = self.transducer.states();
        let pairs = self.pairs();
        let mut places = Vec::with_capacity(alloc, pairs)?;
        for pair in 0..pairs {
            let target = self.target(digit, pair / count);
            places.push(place_at(pairs, count, target, states[pair]))?;
        }
        Ok(places)
    }

    /// Lets runs go on over the block of a digit.
    pub fn advance(&self, ends: &[u32], digit: u32, states: &mut [u32])
        requires graph { IsBlockGraph self.now.transducer.now self.now.function.now self.now.targets.now }
        requires digit { digit < letters_of self.now.function.now.automaton }
        requires states { length states.old ≡ pairs_of self.now.transducer.now self.now.function.now }
        ensures { states.new ≡ at_pairs self.now.transducer.now self.now.function.now (λ pair. map_at ends.now self.now.transducer.now.states (next_of self.now.function.now.automaton (pair / self.now.transducer.now.states) digit) (slice_index states.old pair)) }
    {
        let count = self.transducer.states();
        for pair in 0..states.len() {
            let target = self.target(digit, pair / count);
            states[pair] = map_at(ends, count, target, states[pair]);
        }
    }

    // Where a digit leads from a state of the function.
    fn target(&self, digit: u32, state: usize) -> u32
        requires graph { IsBlockGraph self.now.transducer.now self.now.function.now self.now.targets.now }
        requires digit { digit < letters_of self.now.function.now.automaton }
        requires state { state < states_of self.now.function.now.automaton }
        ensures { result ≡ next_of self.now.function.now.automaton state digit }
    {
        self.targets[digit as usize * self.function.dfa().states() as usize + state]
    }
}

// What a map has at a state of the function and the state of a number.
fn map_at(numbers: &[u32], states: usize, q: u32, number: u32) -> u32
    requires { states < 2 ^ 32 }
    ensures { result ≡ map_at numbers.now states q number }
{
    if number == 0 {
        return 0;
    }
    match numbers.get(q as usize * states + (number as usize - 1)) {
        Some(found) => *found,
        None => 0,
    }
}

// Where a map has what it has at a state of the function and the state of a number, and past its end where the run has stopped.
fn place_at(past: usize, states: usize, q: u32, number: u32) -> usize
    requires { states < 2 ^ 32 }
    ensures { result ≡ place_at past states q number }
{
    if number == 0 {
        return past;
    }
    q as usize * states + (number as usize - 1)
}
