//! What the most significant digits of a word lead to.

ghost use Rattle.std.specs.Prelude.{◌≡◌, ℕ, ◌<◌, List, [], ◌∷◌, ◌++◌, length, reverse, false, IfOk, IfSome, slice_index_or};
ghost use Rattle.std.specs.Option.{option_map_or, option_and_then};
ghost use Rattle.digit_tuple.specs.Deterministic.{Automaton, IsTable, letters_of, states_of, step_of};
ghost use Rattle.digit_tuple.specs.declared.direction.Direction.{Direction};
ghost use Rattle.digit_tuple.specs.declared.direction.Direction.TheVariants.{Lsd};
ghost use Rattle.constants.specs.Continuations.{read, continuations};
ghost use Rattle.constants.specs.WordCounts.{capped, AreCounts};
ghost use Rattle.constants.specs.Prefixes.{IsPrefix, AreMarks, Fits};

use digit_tuple::accepting_states::accepting_flags;
use digit_tuple::dfa::Dfa;
use digit_tuple::direction::Direction;
use digit_tuple::faults::OutOfMemory;
use std::alloc::Global;

/// What the most significant digits of a word lead to in the automaton of a system's language.
#[derive(Drop)]
pub enum Prefix {
    /// Where they come first in a word: the state that they lead to, unless they lead nowhere.
    After(Option<u32>),
    /// Where they come last in a word: for each state, whether they lead from it to acceptance.
    Before(Vec<bool>),
}

impl Prefix {
    /// The prefix of no digit.
    pub fn first(alloc: Global, language: &Dfa, direction: Direction) -> Result<Prefix, OutOfMemory>
        ensures prefix { IfOk result (λ prefix. IsPrefix direction language.now [] prefix) }
        ensures fits { IfOk result (λ prefix. Fits (states_of language.now) prefix) }
    {
        match direction {
            Direction::Msd => Ok(Prefix::After(initial_state(language))),
            Direction::Lsd => Ok(Prefix::Before(accepting_flags(alloc, language)?)),
        }
    }

    /// The prefix of the digits and one more, less significant.
    pub fn after(&self, alloc: Global, language: &Dfa, digit: u32) -> Result<Prefix, OutOfMemory>
        requires { Fits (states_of language.now) self.now }
        ensures prefix { IfOk result (λ prefix. (direction : Direction) (w : List ℕ) → IsPrefix direction language.now w self.now
            → IsPrefix direction language.now (w ++ digit ∷ []) prefix) }
        ensures fits { IfOk result (λ prefix. Fits (states_of language.now) prefix) }
    {
        match self {
            Prefix::After(state) => Ok(Prefix::After(state_after(language, *state, digit))),
            Prefix::Before(marks) => Ok(Prefix::Before(marks_before(
                alloc, language, marks, digit,
            )?)),
        }
    }

    /// How many words of a length go on from the digits, by the counts for that length.
    pub fn count(&self, row: &[u128]) -> u128
        requires { Fits (length row.now) self.now }
        ensures { (direction : Direction) (a : Automaton) (w : List ℕ) (n : ℕ) → IsTable (letters_of a) a.states → IsPrefix direction a w self.now → AreCounts direction a n row.now
            → result ≡ capped (continuations (letters_of a) (read direction a) w n) }
    {
        match self {
            Prefix::After(state) => count_at(row, *state),
            Prefix::Before(marks) => sum_at(marks, row),
        }
    }
}

// The initial state.
fn initial_state(language: &Dfa) -> Option<u32>
    ensures state { result ≡ Some 0 }
    ensures in_range { 0 < states_of language.now }
{
    let _count = language.states();
    Some(0)
}

// The state that the digit leads to.
fn state_after(language: &Dfa, state: Option<u32>, digit: u32) -> Option<u32>
    requires { IfSome state (λ q. q < states_of language.now) }
    ensures state { result ≡ option_and_then (λ q. step_of language.now q digit) state }
    ensures in_range { IfSome result (λ q. q < states_of language.now) }
{
    match state {
        Some(state) => language.step(state, digit),
        None => None,
    }
}

// For each state, whether the digit leads from it to a mark.
fn marks_before(
    alloc: Global,
    language: &Dfa,
    marks: &[bool],
    digit: u32,
) -> Result<Vec<bool>, OutOfMemory>
    requires { length marks.now ≡ states_of language.now }
    ensures marks { IfOk result (λ before. (w : List ℕ) → AreMarks language.now w marks.now → AreMarks language.now (digit ∷ w) before.items) }
    ensures long { IfOk result (λ before. length before.items ≡ states_of language.now) }
{
    let mut before = Vec::new(alloc);
    for state in 0..language.states() {
        before.push(is_marked(marks, language.step(state, digit)))?;
    }
    Ok(before)
}

// Whether there is a state, and a mark at it.
fn is_marked(marks: &[bool], state: Option<u32>) -> bool
    requires { IfSome state (λ q. q < length marks.now) }
    ensures { result ≡ option_map_or (λ q. slice_index_or marks.now q false) state false }
{
    match state {
        Some(state) => marks[state as usize],
        None => false,
    }
}

// The count of the state, 0 where there is none.
fn count_at(row: &[u128], state: Option<u32>) -> u128
    requires { IfSome state (λ q. q < length row.now) }
    ensures { result ≡ option_map_or (λ q. slice_index_or row.now q 0) state 0 }
{
    match state {
        Some(state) => row[state as usize],
        None => 0,
    }
}

// The sum of the counts at the marks.
fn sum_at(marks: &[bool], row: &[u128]) -> u128
    requires { length marks.now ≡ length row.now }
    ensures { (a : Automaton) (w : List ℕ) (n : ℕ) → IsTable (letters_of a) a.states → AreMarks a (reverse w) marks.now → AreCounts Lsd a n row.now
        → result ≡ capped (continuations (letters_of a) (read Lsd a) w n) }
{
    let mut sum: u128 = 0;
    for (state, marked) in marks.iter().enumerate() {
        if *marked {
            sum = sum.saturating_add(row[state]);
        }
    }
    sum
}
