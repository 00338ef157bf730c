//! Transducers.

ghost use Rattle.std.specs.Prelude.{◌≡◌, ◌≤◌, ◌==◌, length, slice_range};
ghost use Rattle.std.specs.List.{filter, find};
ghost use Rattle.std.specs.List.Sorted.{IsNonDecreasingBy};
ghost use Rattle.transducer_reading.specs.Transducers.{takes_by};

use digit_tuple::letter_set::LetterSet;
use std::marker::Model;

/// A line from a state by a letter, where None is `*`, to a state with an output. A state is given by its place among the states.
#[derive(Clone, Copy, PartialEq, Eq)]
pub struct TransducerLine {
    /// The state from which it leads.
    pub state: usize,
    /// The letter, or None for each letter of the set.
    pub letter: Option<i32>,
    /// The state to which it leads.
    pub target: usize,
    /// The output.
    pub output: i32,
}

/// A transducer: its set of letters, its states, of which the first is initial, and lines by which letters lead from states to
/// states with outputs. By a letter a state has at most one target and one output.
#[derive(Drop)]
pub struct Transducer {
    set: LetterSet,
    states: usize,
    lines: Vec<TransducerLine>,
}

impl Model for Transducer {
    ghost use Rattle.transducer_reading.specs.Transducers.{Transducer as TransducerValue, IsTransducer};

    ghost Value = { TransducerValue };

    ghost view = { λ t. record { set = t.set; states = t.states; lines = t.lines.items } };

    ghost invariant = { λ t. IsTransducer (record { set = t.set; states = t.states; lines = t.lines.items }) };
}

impl Transducer {
    ghost use Rattle.std.specs.Prelude.{◌≡◌, option_map};
    ghost use Rattle.transducer_reading.specs.Transducers.{IsTransducer, line_from as first_line, target_of, output_of};

    /// The transducer with this set, so many states and these lines.
    pub(crate) fn new(set: LetterSet, states: usize, lines: Vec<TransducerLine>) -> Self
        requires { IsTransducer (record { set = set; states = states; lines = lines.items }) }
        ensures { result ≡ record { set = set; states = states; lines = lines.items } }
    {
        Transducer { set, states, lines }
    }

    /// The letters that lines may have.
    pub fn set(&self) -> &LetterSet
        ensures { result.now ≡ self.now.set }
    {
        &self.set
    }

    /// How many states there are, at least one.
    pub fn states(&self) -> usize
        ensures value { result ≡ self.now.states }
        ensures transducer { IsTransducer self.now }
    {
        self.states
    }

    /// The lines, in the order of their states.
    pub fn lines(&self) -> &[TransducerLine]
        ensures lines { result.now ≡ self.now.lines }
        ensures transducer { IsTransducer self.now }
    {
        &self.lines
    }

    /// The state to which a letter leads from a state, and the output, or None where the state has no line for the letter. The time is that
    /// of a binary search among the lines and one in the set, and of a look at each line of the state.
    pub fn step(&self, state: usize, letter: i32) -> Option<(usize, i32)>
        ensures target { option_map (λ p. p.0) result ≡ target_of self.now state letter }
        ensures output { option_map (λ p. p.1) result ≡ output_of self.now state letter }
    {
        let line = self.line_from(state, letter)?;
        Some((line.target, line.output))
    }

    // The first line from a state by a letter.
    fn line_from(&self, state: usize, letter: i32) -> Option<TransducerLine>
        ensures { result ≡ first_line self.now state letter }
    {
        let member = self.set.place_of(letter).is_some();
        let lines = lines_from(&self.lines, state);
        first_with(lines, letter, member)
    }
}

// The lines from a state.
fn lines_from(lines: &[TransducerLine], state: usize) -> &[TransducerLine]
    requires { IsNonDecreasingBy (λ line. line.state) lines.now }
    ensures { result.now ≡ filter (λ line. line.state == state) lines.now }
{
    let (first, last) = places_from(lines, state);
    &lines[first..last]
}

// Where the lines from a state begin and end.
fn places_from(lines: &[TransducerLine], state: usize) -> (usize, usize)
    requires { IsNonDecreasingBy (λ line. line.state) lines.now }
    ensures order { result.0 ≤ result.1 }
    ensures within { result.1 ≤ length lines.now }
    ensures lines { slice_range lines.now result.0 result.1 ≡ filter (λ line. line.state == state) lines.now }
{
    let first = lines.partition_point(|line| line.state < state);
    let last = lines.partition_point(|line| line.state <= state);
    (first, last)
}

// The first line that takes a letter, of which it is known whether it is in the set.
fn first_with(lines: &[TransducerLine], letter: i32, member: bool) -> Option<TransducerLine>
    ensures { result ≡ find (λ line. takes_by member line.letter letter) lines.now }
{
    lines
        .iter()
        .copied()
        .find(|line| takes(line.letter, letter, member))
}

// Whether a line's letter takes a letter, of which it is known whether it is in the set.
fn takes(wanted: Option<i32>, letter: i32, member: bool) -> bool
    ensures { result ≡ takes_by member wanted letter }
{
    match wanted {
        None => member,
        Some(wanted) => wanted == letter,
    }
}
