//! Letters from the parts that two readers read of them.

ghost use Rattle.std.specs.Prelude.{◌≡◌, ◌↔◌, ◌<◌, ℕ, length, IfOk, IfSome, IsTrue, OnOk};
ghost use Rattle.std.specs.List.{All, Contains};
ghost use Rattle.digit_tuple.specs.Deterministic.{letters_of};
ghost use Rattle.product_op.specs.LetterJoins.{AddUp, HoldJoined, HoldSums, IsJoin};
ghost use Rattle.product_op.specs.DeadPairs.{ArePair};
ghost use Rattle.product_op.specs.Readings.{IsReading, reading_at, reading_in, readings_in};

use crate::op::Op;
use crate::reader::Reader;
use crate::reader_graph::FEW_LETTERS;
use digit_tuple::faults::OutOfMemory;
use digit_tuple::transitions::Transition;
use std::alloc::Global;

// The letters are gone through once if they are no more than so many times the transitions.
const PASS: u64 = 8;

/// For each part that one of two readers reads the least letter that has it, and that of its digits on the tracks of
/// both: two parts are those of a letter only if these are one, and the letter is the sum of the least letters less it.
#[derive(Drop)]
pub struct LetterJoin {
    pub first: Vec<LeastLetter>,
    pub second: Vec<LeastLetter>,
}

/// The least letter that has a part, and the least that has the part's digits on the tracks of both readers.
#[derive(Clone, Copy)]
pub struct LeastLetter {
    pub letter: u32,
    pub shared: u32,
}

/// The join of the readers of a connective that needs both, unless it takes much time beside their transitions, or
/// letters are no such sums.
pub fn pair_join(
    alloc: Global,
    readers: &[Reader<'_>],
    op: Op,
    letters: u32,
) -> Result<Option<LetterJoin>, OutOfMemory>
    requires pair { ArePair letters op (readings_in readers.now) }
    ensures { IfOk result (λ found. IfSome found (IsJoin letters (reading_at (readings_in readers.now) 0) (reading_at (readings_in readers.now) 1))) }
{
    let first = &readers[0];
    let second = &readers[1];
    let transitions = first.dfa.transitions().max(second.dfa.transitions());
    let is_dear = u64::from(letters) > transitions.saturating_mul(PASS);
    if letters <= FEW_LETTERS || is_dear || !op.needs_second() {
        return Ok(None);
    }
    letter_join(alloc, first, second, letters)
}

// The join of two readers, unless letters are no such sums. Time and memory follow the letters.
fn letter_join(
    alloc: Global,
    first: &Reader<'_>,
    second: &Reader<'_>,
    letters: u32,
) -> Result<Option<LetterJoin>, OutOfMemory>
    requires first { IsReading letters (reading_in first.now) }
    requires second { IsReading letters (reading_in second.now) }
    requires positive { 0 < letters }
    ensures { IfOk result (λ found. IfSome found (IsJoin letters (reading_in first.now) (reading_in second.now))) }
{
    let least_first = least_letters(alloc, first, letters)?;
    let least_second = least_letters(alloc, second, letters)?;
    let join = LetterJoin {
        first: with_shared(alloc, &least_first, second, &least_second)?,
        second: with_shared(alloc, &least_second, first, &least_first)?,
    };
    Ok(join.checked(first, second, letters))
}

// The least letter that has each part.
fn least_letters(alloc: Global, reader: &Reader<'_>, letters: u32) -> Result<Vec<u32>, OutOfMemory>
    requires reading { IsReading letters (reading_in reader.now) }
    requires positive { 0 < letters }
    ensures count { IfOk result (λ least. length least.items ≡ letters_of reader.now.dfa.now) }
    ensures letters { IfOk result (λ least. All (λ a. a < letters) least.items) }
{
    let mut least = vec![in alloc; 0; reader.dfa.alphabet().letters() as usize]?;
    for passed in 0..letters {
        let letter = letters - 1 - passed;
        least[reader.parts.part(letter) as usize] = letter;
    }
    Ok(least)
}

// With each letter the other reader's of its part.
fn with_shared(
    alloc: Global,
    own: &[u32],
    other: &Reader<'_>,
    others: &[u32],
) -> Result<Vec<LeastLetter>, OutOfMemory>
    requires reading { IsReading (length other.now.parts) (reading_in other.now) }
    requires letters { All (λ a. a < length other.now.parts) own.now }
    requires count { length others.now ≡ letters_of other.now.dfa.now }
    ensures { IfOk result (λ all. length all.items ≡ length own.now) }
{
    let mut all = Vec::with_capacity(alloc, own.len())?;
    for letter in own {
        let shared = others[other.parts.part(*letter) as usize];
        all.push(LeastLetter {
            letter: *letter,
            shared,
        })?;
    }
    Ok(all)
}

impl LetterJoin {
    // The join, if each letter is the sum that it is to be.
    fn checked(self, first: &Reader<'_>, second: &Reader<'_>, letters: u32) -> Option<Self>
        requires first { IsReading letters (reading_in first.now) }
        requires second { IsReading letters (reading_in second.now) }
        requires positive { 0 < letters }
        requires first_count { length self.first.items ≡ letters_of first.now.dfa.now }
        requires second_count { length self.second.items ≡ letters_of second.now.dfa.now }
        ensures { IfSome result (IsJoin letters (reading_in first.now) (reading_in second.now)) }
    {
        for letter in 0..letters {
            let one = self.first[first.parts.part(letter) as usize];
            let other = self.second[second.parts.part(letter) as usize];
            if !one.joins_to(other, letter) {
                return None;
            }
        }
        Some(self)
    }

    /// Adds the letters that join the letter of a transition of each of two rows.
    pub fn add_letters(
        &self,
        letters: u32,
        first: &[Transition],
        second: &[Transition],
        found: &mut Vec<u32>,
    ) -> Result<(), OutOfMemory>
        requires positive { 0 < letters }
        requires first { All (λ transition. transition.letter < length self.now.first.items) first.now }
        requires second { All (λ transition. transition.letter < length self.now.second.items) second.now }
        requires below { All (λ a. a < letters) found.old.items }
        ensures below { OnOk result (All (λ a. a < letters) found.new.items) }
        ensures joined { OnOk result (HoldJoined letters self.now first.now second.now (length first.now) found.new.items) }
    {
        for transition in first {
            self.add_joined(
                letters,
                self.first[transition.letter as usize],
                second,
                found,
            )?;
        }
        Ok(())
    }

    // Adds the letters that join a part of the first reader and the letter of a transition of the second.
    fn add_joined(
        &self,
        letters: u32,
        own: LeastLetter,
        second: &[Transition],
        found: &mut Vec<u32>,
    ) -> Result<(), OutOfMemory>
        requires positive { 0 < letters }
        requires second { All (λ transition. transition.letter < length self.now.second.items) second.now }
        requires below { All (λ a. a < letters) found.old.items }
        ensures below { OnOk result (All (λ a. a < letters) found.new.items) }
        ensures kept { OnOk result ((a : ℕ) → Contains found.old.items a → Contains found.new.items a) }
        ensures sums { OnOk result (HoldSums letters own self.now.second.items second.now (length second.now) found.new.items) }
    {
        for transition in second {
            let other = self.second[transition.letter as usize];
            if own.shared == other.shared {
                found.push(own.sum_with(other, letters))?;
            }
        }
        Ok(())
    }
}

impl LeastLetter {
    // Whether the letter is the sum of both less the shared one.
    fn joins_to(self, other: LeastLetter, letter: u32) -> bool
        ensures { IsTrue result ↔ AddUp self other letter }
    {
        self.shared == other.shared
            && u64::from(letter) + u64::from(self.shared)
                == u64::from(self.letter) + u64::from(other.letter)
    }

    // The sum of both less the shared one, which is below the number of letters.
    fn sum_with(self, other: LeastLetter, letters: u32) -> u32
        requires positive { 0 < letters }
        ensures below { result < letters }
        ensures sum { (a : ℕ) → a < letters → AddUp self other a → result ≡ a }
    {
        let sum = u64::from(self.letter) + u64::from(other.letter);
        sum.saturating_sub(u64::from(self.shared))
            .min(u64::from(letters - 1)) as u32
    }
}
