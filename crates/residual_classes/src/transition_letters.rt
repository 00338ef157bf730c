//! The letters of transitions in a flat table, which take no memory where each state has a transition by each letter.

ghost use Rattle.std.specs.Prelude.{◌≡◌, ◌<◌, ◌≤◌, ◌^◌, ◌++◌, [], None, Some, map, length, IfOk, IfSome, OnOk, IsTrue};
ghost use Rattle.std.specs.List.{All};
ghost use Rattle.residual_classes.specs.TransitionLetters.{letter_at, listed, with_letters};

use digit_tuple::faults::OutOfMemory;
use digit_tuple::transitions::Transition;
use std::alloc::Global;

/// The letters of transitions, state by state.
#[derive(Drop)]
pub enum TransitionLetters {
    /// Each state has a transition by each letter, so that the letter of a transition is its place among those of its
    /// state.
    Full,
    /// The letter of each transition, of which an alphabet has 65,536 at most.
    Listed(Vec<u16>),
}

impl TransitionLetters {
    /// No letters yet, and memory for so many, which `full` ones do not need.
    pub fn new(alloc: Global, full: bool, count: usize) -> Result<Self, OutOfMemory>
        ensures full { IfOk result (λ letters. listed letters ≡ None → IsTrue full) }
        ensures listed { IfOk result (λ letters. IfSome (listed letters) (λ list. list ≡ [])) }
    {
        if full {
            return Ok(TransitionLetters::Full);
        }
        Ok(TransitionLetters::Listed(Vec::with_capacity(alloc, count)?))
    }

    /// Adds the letters of the transitions of one more state.
    pub fn add(&mut self, row: &[Transition]) -> Result<(), OutOfMemory>
        requires { All (λ transition. transition.letter < 65536) row.now }
        ensures { OnOk result (listed self.new ≡ with_letters row.now (listed self.old)) }
    {
        match self {
            TransitionLetters::Full => Ok(()),
            TransitionLetters::Listed(letters) => add_letters(row, letters),
        }
    }

    /// The letter of the transition at a place, where the transitions of its state begin at `start`.
    pub fn letter(&self, start: usize, place: usize) -> u32
        requires start { start ≤ place }
        requires small { place < 2 ^ 32 }
        requires within { IfSome (listed self.now) (λ list. place < length list) }
        ensures { result ≡ letter_at (listed self.now) start place }
    {
        match self {
            TransitionLetters::Full => (place - start) as u32,
            TransitionLetters::Listed(letters) => u32::from(letters[place]),
        }
    }
}

// Adds the letters of transitions.
fn add_letters(row: &[Transition], letters: &mut Vec<u16>) -> Result<(), OutOfMemory>
    requires { All (λ transition. transition.letter < 65536) row.now }
    ensures { OnOk result (letters.new.items ≡ letters.old.items ++ map (λ transition. transition.letter) row.now) }
{
    for transition in row {
        letters.push(transition.letter as u16)?;
    }
    Ok(())
}
