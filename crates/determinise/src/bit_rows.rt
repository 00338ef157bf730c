//! The transitions of a nondeterministic automaton as rows of bits.

ghost use Rattle.std.specs.Prelude.{◌≡◌, ℕ, ◌+◌, ◌*◌, ◌/◌, ◌<◌, ◌≤◌, ◌^◌, [], length, IfOk, OnOk, IsTrue, map, filter};
ghost use Rattle.std.specs.Int.{bit_at};
ghost use Rattle.std.specs.List.{All, range_with_len};
ghost use Rattle.digit_tuple.specs.Automaton.{accepting_of, states_of, letters_of, IsBranchTable};
ghost use Rattle.determinise.specs.Bits.{HasMember, rows_in, AreRowsSet, AreGathered, AreUnited};
ghost use Rattle.determinise.specs.BitRows.{AreBitRows, HasFewWords, word_of, words_of};

use crate::bit_words::{BitWord, bits_of, set_row};
use digit_tuple::faults::OutOfMemory;
use digit_tuple::nfa::Nfa;
use digit_tuple::transitions::Transition;
use std::alloc::Global;

/// The most words that sets of states as bits, one for each letter, take together.
pub const MOST_WORDS: u32 = 32768;

/// The transitions of each state as a row of bits: for each letter in turn so many words, whose bits say which states
/// it leads to. Words without a bit are left out. Beside them the accepting states as bits.
#[derive(Drop)]
pub struct BitRows {
    pub letters: u32,
    pub width: u32,
    pub rows: Vec<Vec<BitWord>>,
    pub accepting: Vec<u32>,
}

impl BitRows {
    /// The transitions of an automaton.
    pub fn of(alloc: Global, nfa: &Nfa) -> Result<BitRows, OutOfMemory>
        requires { HasFewWords nfa.now }
        ensures { IfOk result (AreBitRows nfa.now) }
    {
        let letters = nfa.alphabet().letters();
        let width = words_for(nfa.states());
        let mut rows = Vec::with_capacity(alloc, nfa.states() as usize)?;
        for state in 0..nfa.states() {
            rows.push(row_of(alloc, nfa.transitions(state), width)?)?;
        }
        let accepting = bits_of(alloc, width as usize, &accepting_states(alloc, nfa)?)?;
        Ok(BitRows {
            letters,
            width,
            rows,
            accepting,
        })
    }
}

/// Whether a set of the automaton's states as bits takes few words, and sets for each letter together.
pub fn has_few_words(nfa: &Nfa) -> bool
    ensures few_words { IsTrue result → HasFewWords nfa.now }
    ensures table { IsBranchTable (letters_of nfa.now) nfa.now.states }
{
    let states = nfa.states();
    states <= 32 * MOST_WORDS && nfa.alphabet().letters() * words_for(states) <= MOST_WORDS
}

/// Whether there is a transition for each 128 words of sets as bits, one for each state and letter, so that walking
/// these words costs no more than the transitions do.
pub fn is_dense(nfa: &Nfa) -> bool
    requires { HasFewWords nfa.now }
{
    let states = nfa.states();
    let words = nfa.alphabet().letters() * words_for(states);
    has_transitions(nfa, states as usize * words as usize / 128)
}

// Whether there are so many transitions.
fn has_transitions(nfa: &Nfa, count: usize) -> bool {
    let mut left = count;
    for state in 0..nfa.states() {
        left = left.saturating_sub(nfa.transitions(state).len());
    }
    left == 0
}

// How many words the bits of so many states take.
fn words_for(states: u32) -> u32
    requires { states + 31 < 2 ^ 32 }
    ensures { result ≡ words_of states }
{
    (states + 31) / 32
}

// The transitions as a row of bits.
fn row_of(
    alloc: Global,
    transitions: &[Transition],
    width: u32,
) -> Result<Vec<BitWord>, OutOfMemory>
    requires { All (λ transition. transition.letter * width + transition.target / 32 < 2 ^ 32) transitions.now }
    ensures { IfOk result (λ row. row.items ≡ map (word_of width) transitions.now) }
{
    let mut row = Vec::new(alloc);
    for transition in transitions {
        row.push(BitWord {
            place: transition.letter * width + transition.target / 32,
            bits: 1 << (transition.target % 32),
        })?;
    }
    Ok(row)
}

// The accepting states, in order.
fn accepting_states(alloc: Global, nfa: &Nfa) -> Result<Vec<u32>, OutOfMemory>
    ensures { IfOk result (λ states. states.items ≡ filter (accepting_of nfa.now) (range_with_len 0 (states_of nfa.now))) }
{
    let mut states = Vec::new(alloc);
    for state in 0..nfa.states() {
        if nfa.is_accepting(state) {
            states.push(state)?;
        }
    }
    Ok(states)
}

/// Writes the bits of the rows of a set's members together, in so many words, to an empty list.
pub fn unite(
    rows: &[Vec<BitWord>],
    room: usize,
    set: &[u32],
    words: &mut Vec<u32>,
) -> Result<(), OutOfMemory>
    requires few { length set.now ≤ 16 }
    requires there { (q : ℕ) → HasMember set.now q → q < length rows.now }
    requires within { All (λ row. All (λ word. word.place < room) row.items) rows.now }
    requires empty { words.old.items ≡ [] }
    ensures length { OnOk result (length words.new.items ≡ room) }
    ensures bits { OnOk result (AreUnited (rows_in rows.now) set.now words.new.items) }
{
    words.resize(room, 0)?;
    for place in 0..set.len() {
        set_rows(words, rows, place * 32, set[place]);
    }
    Ok(())
}

/// How many words the rows of a list's members have.
pub fn row_words(rows: &[Vec<BitWord>], set: &[u32]) -> usize
    requires { All (λ q. q < length rows.now) set.now }
{
    let mut count: usize = 0;
    for state in set {
        count = count.saturating_add(rows[*state as usize].len());
    }
    count
}

/// Writes the bits of the rows of a list's members together, in so many words, to an empty list.
pub fn gather(
    rows: &[Vec<BitWord>],
    room: usize,
    set: &[u32],
    words: &mut Vec<u32>,
) -> Result<(), OutOfMemory>
    requires there { All (λ q. q < length rows.now) set.now }
    requires within { All (λ row. All (λ word. word.place < room) row.items) rows.now }
    requires empty { words.old.items ≡ [] }
    ensures length { OnOk result (length words.new.items ≡ room) }
    ensures bits { OnOk result (AreGathered (rows_in rows.now) set.now words.new.items) }
{
    words.resize(room, 0)?;
    for state in set {
        set_row(words, &rows[*state as usize]);
    }
    Ok(())
}

// Sets the bits of the rows whose numbers, from the first one on, are the bits of the members.
fn set_rows(words: &mut [u32], rows: &[Vec<BitWord>], first: usize, members: u32)
    requires there { (bit : ℕ) → bit_at members bit ≡ 1 → first + bit < length rows.now }
    requires within { All (λ row. All (λ word. word.place < length words.old) row.items) rows.now }
    ensures { AreRowsSet words.old (rows_in rows.now) first members words.new }
{
    let mut rest = members;
    while rest != 0 {
        let low = rest.trailing_zeros();
        set_row(words, &rows[first + low as usize]);
        rest &= rest - 1;
    }
}
