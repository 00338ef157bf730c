//! The letters of the states of an automaton.

ghost use Rattle.std.specs.Prelude.{◌≡◌, ◌<◌, ◌≤◌, ◌^◌, ℕ, ℤ, List, length, IfOk, Some};
ghost use Rattle.std.specs.List.{All, Contains};
ghost use Rattle.digit_tuple.specs.Sets.{IsAscending};
ghost use Rattle.residual_classes.specs.Classes.{class_of};
ghost use Rattle.word_output.specs.LetterFunctions.{letter_in};
ghost use Rattle.word_output.specs.StateLetters.{AreLettersOf, letter_at};

use digit_tuple::faults::OutOfMemory;
use std::alloc::Global;

/// The letters that states have, in ascending order, each once.
pub(crate) fn distinct_letters(
    alloc: Global,
    letters: &[Option<i32>],
) -> Result<Vec<i32>, OutOfMemory>
    ensures letters { IfOk result (λ found. AreLettersOf letters.now found.items) }
    ensures few { IfOk result (λ found. length found.items ≤ length letters.now) }
{
    let mut found = Vec::new(alloc);
    for state in letters {
        if let Some(letter) = state {
            found.push(*letter)?;
        }
    }
    found.sort_unstable();
    found.dedup();
    Ok(found)
}

/// The class of each state: one more than the position of its letter, and 0 where it has none.
pub(crate) fn classes_of(
    alloc: Global,
    letters: &[Option<i32>],
    found: &[i32],
) -> Result<Vec<u32>, OutOfMemory>
    requires letters { AreLettersOf letters.now found.now }
    requires few { length found.now < 2 ^ 32 }
    ensures count { IfOk result (λ classes. length classes.items ≡ length letters.now) }
    ensures within { IfOk result (λ classes. All (λ class. class ≤ length found.now) classes.items) }
    ensures classes { IfOk result (λ classes. (q : ℕ) → letter_in found.now (class_of classes.items q) ≡ letter_at letters.now q) }
{
    let mut classes = Vec::with_capacity(alloc, letters.len())?;
    for letter in letters {
        classes.push(class_in(found, *letter))?;
    }
    Ok(classes)
}

// The class of a letter.
fn class_in(found: &[i32], letter: Option<i32>) -> u32
    requires ascending { IsAscending found.now }
    requires few { length found.now < 2 ^ 32 }
    requires there { (b : ℤ) → letter ≡ Some b → Contains found.now b }
    ensures within { result ≤ length found.now }
    ensures class { letter_in found.now result ≡ letter }
{
    match letter {
        None => 0,
        Some(letter) => match found.binary_search(&letter) {
            Ok(place) => place as u32 + 1,
            Err(_) => 0,
        },
    }
}
