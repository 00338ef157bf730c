//! The word that represents a number, found by counting.
//!
//! A language of a system has as many words of a length, leading zeros among them, as it has words without leading zero
//! up to that length. So the word of a number is as long as the least length of which there are more words, and is at
//! the number's place among those of that length.

ghost use Rattle.std.specs.Prelude.{◌≡◌, ℕ, suc, ◌<◌, ◌≤◌, List, [], length, IfOk};
ghost use Rattle.std.specs.Result.{IsErrOf};
ghost use Rattle.digit_tuple.specs.Deterministic.{IsTable, letters_of, states_of};
ghost use Rattle.digit_tuple.specs.declared.direction.Direction.{Direction};
ghost use Rattle.numeration.specs.Systems.{System, IsSystem, IsRep};
ghost use Rattle.numeration.specs.Relations.{IsLanguageOf};
ghost use Rattle.constants.specs.Continuations.{read, continuations};
ghost use Rattle.constants.specs.WordCounts.{AreCounts, AreRows};
ghost use Rattle.constants.specs.Prefixes.{IsPrefix, Fits};
ghost use Rattle.constants.specs.Choices.{IsChoice};
ghost use Rattle.constants.specs.Places.{IsAtPlace};

use crate::prefix::Prefix;
use crate::word_counts::{first_row, next_row};
use digit_tuple::dfa::Dfa;
use digit_tuple::direction::Direction;
use digit_tuple::faults::{OpFault, OutOfMemory};
use std::alloc::Global;

/// The word that represents a number, for an automaton that accepts the valid words of a system: the valid word without
/// leading zero before which so many are, shorter words first; its most significant digit first, in either direction.
/// `States` comes if and only if that word is longer than `longest`, `Letters` never. Time grows with the word's length
/// times the states and the digits of the language, memory with its length times the states.
pub fn representation(
    alloc: Global,
    language: &Dfa,
    direction: Direction,
    number: u64,
    longest: u32,
) -> Result<Vec<u32>, OpFault>
    ensures word { IfOk result (λ word. (s : System) → IsSystem s → IsLanguageOf direction s language.now → IsRep s.digits s.test number word.items) }
    ensures within { IfOk result (λ word. length word.items ≤ longest) }
    ensures states { IsErrOf result OpFault.States → (s : System) → IsSystem s → IsLanguageOf direction s language.now
        → (word : List ℕ) × IsRep s.digits s.test number word × (longest < length word) }
    ensures no_letters { ¬ IsErrOf result OpFault.Letters }
{
    let rows = rows_past(alloc, language, direction, number, longest)?;
    Ok(word_at(alloc, language, direction, rows, number)?)
}

// The counts for each length below the least of which there are more words than the number.
fn rows_past(
    alloc: Global,
    language: &Dfa,
    direction: Direction,
    number: u64,
    longest: u32,
) -> Result<Vec<Vec<u128>>, OpFault>
    ensures counts { IfOk result (λ rows. AreRows direction language.now rows.items) }
    ensures past { IfOk result (λ rows. number < continuations (letters_of language.now) (read direction language.now) [] (length rows.items)) }
    ensures least { IfOk result (λ rows. (n : ℕ) → n < length rows.items → continuations (letters_of language.now) (read direction language.now) [] n ≤ number) }
    ensures within { IfOk result (λ rows. length rows.items ≤ longest) }
    ensures states { IsErrOf result OpFault.States → (n : ℕ) → n ≤ longest → continuations (letters_of language.now) (read direction language.now) [] n ≤ number }
    ensures no_letters { ¬ IsErrOf result OpFault.Letters }
{
    let prefix = Prefix::first(alloc, language, direction)?;
    let mut rows = Vec::new(alloc);
    let mut row = first_row(alloc, language, direction)?;
    while prefix.count(&row) <= u128::from(number) {
        if rows.len() >= longest as usize {
            return Err(OpFault::States);
        }
        let next = next_row(alloc, language, direction, &row)?;
        rows.push(row)?;
        row = next;
    }
    Ok(rows)
}

// The word of a length before which so many of that length are, by the counts for lesser lengths.
fn word_at(
    alloc: Global,
    language: &Dfa,
    direction: Direction,
    rows: Vec<Vec<u128>>,
    number: u64,
) -> Result<Vec<u32>, OutOfMemory>
    requires counts { AreRows direction language.now rows.items }
    requires past { number < continuations (letters_of language.now) (read direction language.now) [] (length rows.items) }
    ensures { IfOk result (λ word. IsAtPlace (letters_of language.now) (read direction language.now) (length rows.items) number word.items) }
{
    let mut prefix = Prefix::first(alloc, language, direction)?;
    let mut word = Vec::new(alloc);
    let mut rest = number;
    let mut lesser = rows;
    while let Some(row) = lesser.pop() {
        let choice = choose(alloc, language, &prefix, &row, rest)?;
        word.push(choice.digit)?;
        prefix = choice.prefix;
        rest = choice.rest;
    }
    Ok(word)
}

// A digit that was chosen, the prefix with it, and what is left of the number.
#[derive(Drop)]
struct Choice {
    digit: u32,
    prefix: Prefix,
    rest: u64,
}

// The digit by which the word goes on before which as many are of those that begin as it does.
fn choose(
    alloc: Global,
    language: &Dfa,
    prefix: &Prefix,
    row: &[u128],
    number: u64,
) -> Result<Choice, OutOfMemory>
    requires fits { Fits (states_of language.now) prefix.now }
    requires long { length row.now ≡ states_of language.now }
    requires some { (direction : Direction) × (w : List ℕ) × (n : ℕ) × IsPrefix direction language.now w prefix.now × AreCounts direction language.now n row.now
        × (number < continuations (letters_of language.now) (read direction language.now) w (suc n)) }
    ensures choice { IfOk result (λ choice. (direction : Direction) (w : List ℕ) (n : ℕ) → IsPrefix direction language.now w prefix.now → AreCounts direction language.now n row.now
        → IsChoice direction language.now w n number choice) }
    ensures fits { IfOk result (λ choice. Fits (states_of language.now) choice.prefix) }
{
    let mut rest = number;
    for digit in 0..language.alphabet().letters() {
        let next = prefix.after(alloc, language, digit)?;
        let count = next.count(row);
        if u128::from(rest) < count {
            return Ok(Choice {
                digit,
                prefix: next,
                rest,
            });
        }
        rest -= count as u64;
    }
    unreachable!()
}
