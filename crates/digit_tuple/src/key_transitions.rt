//! Transitions from a key, in one buffer.

ghost use Rattle.std.specs.Prelude.{◌≡◌, ◌==◌, ℕ, ◌*◌, ◌<◌, ◌++◌, ◌∷◌, [], List, length, map, not, OnOk, OnErr};
ghost use Rattle.std.specs.List.{list_any};
ghost use Rattle.digit_tuple.specs.Keys.{AreKeyTransitions, KeyTransition, transition_at, part_of, some_nonzero};
ghost use Rattle.digit_tuple.specs.KeySpans.{AreSpans, transitions_in};

use crate::blanks::Blanks;
use crate::faults::OutOfMemory;
use crate::transitions::Transition;
use std::alloc::Global;
use std::marker::Model;
use std::mem;

/// Transitions from a key, each a letter and the key that it leads to, in one buffer that is used again. Beside them
/// there is a spare buffer, in which numbers may be gathered before they are transitions, and lists of zeros, which a
/// step may use and give back.
#[derive(Drop)]
pub struct KeyTransitions {
    spans: Vec<KeySpan>,
    numbers: Vec<u32>,
    spare: Vec<u32>,
    blanks: Blanks,
}

// The letter of a transition, and where its key is among the numbers.
#[derive(Clone, Copy)]
struct KeySpan {
    letter: u32,
    start: usize,
    end: usize,
}

impl Model for KeyTransitions {
    ghost use Rattle.std.specs.Prelude.{List, length};
    ghost use Rattle.digit_tuple.specs.Keys.{KeyTransition};
    ghost use Rattle.digit_tuple.specs.KeySpans.{transitions_in, AreSpans};

    ghost Value = { List KeyTransition };

    ghost view = { λ e. transitions_in e.numbers.items e.spans.items };

    ghost invariant = { λ e. AreSpans (length e.numbers.items) e.spans.items };
}

impl KeyTransitions {
    /// No transitions.
    pub fn new(alloc: Global) -> Self
        ensures { result ≡ [] }
    {
        KeyTransitions {
            spans: Vec::new(alloc),
            numbers: Vec::new(alloc),
            spare: Vec::new(alloc),
            blanks: Blanks::new(alloc),
        }
    }

    /// How many transitions there are.
    pub fn len(&self) -> usize
        ensures { result ≡ length self.now }
    {
        self.spans.len()
    }

    /// The letter of the transition at a place.
    pub fn letter(&self, place: usize) -> u32
        requires { place < length self.now }
        ensures { result ≡ (transition_at self.now place).letter }
    {
        self.spans[place].letter
    }

    /// The key that the transition at a place leads to.
    pub fn key(&self, place: usize) -> &[u32]
        requires { place < length self.now }
        ensures { result.now ≡ (transition_at self.now place).key }
    {
        let span = self.spans[place];
        &self.numbers[span.start..span.end]
    }

    /// Takes all transitions away, and keeps their memory.
    pub fn clear(&mut self)
        ensures { self.new ≡ [] }
    {
        self.spans.clear();
        self.numbers.clear();
    }

    /// Takes the spare buffer out, as an empty list, which keeps the memory that a list given back had.
    pub fn take_spare(&mut self, alloc: Global) -> Vec<u32>
        ensures list { result.items ≡ [] }
        ensures transitions { self.new ≡ self.old }
    {
        let mut list = mem::replace(&mut self.spare, Vec::new(alloc));
        list.clear();
        list
    }

    /// Gives a list back, whose memory is the spare buffer from then on.
    pub fn give_spare(&mut self, list: Vec<u32>)
        ensures { self.new ≡ self.old }
    {
        self.spare = list;
    }

    /// Takes the lists of zeros out.
    pub fn take_blanks(&mut self, alloc: Global) -> Blanks
        ensures { self.new ≡ self.old }
    {
        mem::replace(&mut self.blanks, Blanks::new(alloc))
    }

    /// Gives lists of zeros back, for the next key.
    pub fn give_blanks(&mut self, blanks: Blanks)
        ensures { self.new ≡ self.old }
    {
        self.blanks = blanks;
    }

    /// Makes each letter in turn lead to its part of the numbers, which has so many, unless all of them are 0. The
    /// numbers are not copied, and the buffer that they replace is the spare one from then on. After a refused call
    /// some of the transitions are missing.
    pub fn lead_to_parts(
        &mut self,
        numbers: Vec<u32>,
        letters: u32,
        width: u32,
    ) -> Result<(), OutOfMemory>
        requires room { length numbers.items ≡ letters * width }
        requires empty { self.old ≡ [] }
        ensures { OnOk result (AreKeyTransitions letters (λ letter. some_nonzero (part_of numbers.items width letter)) self.new) }
    {
        self.spans.clear();
        self.spare = mem::replace(&mut self.numbers, numbers);
        add_parts(&mut self.spans, &self.numbers, letters, width)
    }

    /// Adds a transition. A refused call leaves the transitions.
    pub fn push(&mut self, letter: u32, key: &[u32]) -> Result<(), OutOfMemory>
        ensures ok { OnOk result (self.new ≡ self.old ++ (record { letter = letter; key = key.now }) ∷ []) }
        ensures err { OnErr result (self.new ≡ self.old) }
    {
        let start = self.numbers.len();
        self.numbers.extend_from_slice(key)?;
        let end = self.numbers.len();
        self.spans.push(KeySpan { letter, start, end })?;
        Ok(())
    }

    /// Adds a transition whose key is the targets of transitions. A refused call leaves the transitions.
    pub fn push_targets(
        &mut self,
        letter: u32,
        transitions: &[Transition],
    ) -> Result<(), OutOfMemory>
        ensures ok { OnOk result (self.new ≡ self.old ++ (record { letter = letter; key = map (λ transition. transition.target) transitions.now }) ∷ []) }
        ensures err { OnErr result (self.new ≡ self.old) }
    {
        let start = self.numbers.len();
        add_targets(&mut self.numbers, transitions)?;
        let end = self.numbers.len();
        self.spans.push(KeySpan { letter, start, end })?;
        Ok(())
    }
}

// Adds the targets of the transitions.
fn add_targets(numbers: &mut Vec<u32>, transitions: &[Transition]) -> Result<(), OutOfMemory>
    ensures ok { OnOk result (numbers.new.items ≡ numbers.old.items ++ map (λ transition. transition.target) transitions.now) }
    ensures kept { (more : List ℕ) × (numbers.new.items ≡ numbers.old.items ++ more) }
{
    for transition in transitions {
        numbers.push(transition.target)?;
    }
    Ok(())
}

// Adds for each letter in turn where its part of the numbers is, unless all of them are 0.
fn add_parts(
    spans: &mut Vec<KeySpan>,
    numbers: &[u32],
    letters: u32,
    width: u32,
) -> Result<(), OutOfMemory>
    requires room { length numbers.now ≡ letters * width }
    requires empty { spans.old.items ≡ [] }
    ensures within { AreSpans (length numbers.now) spans.new.items }
    ensures parts { OnOk result (AreKeyTransitions letters (λ letter. some_nonzero (part_of numbers.now width letter)) (transitions_in numbers.now spans.new.items)) }
{
    for letter in 0..letters {
        let start = letter as usize * width as usize;
        let end = start + width as usize;
        if has_nonzero(&numbers[start..end]) {
            spans.push(KeySpan { letter, start, end })?;
        }
    }
    Ok(())
}

// Whether a number is not 0.
fn has_nonzero(numbers: &[u32]) -> bool
    ensures { result ≡ list_any (λ number. not (number == 0)) numbers.now }
{
    numbers.iter().any(|number| *number != 0)
}
