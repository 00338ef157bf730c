//! The results of the lines of one state. Whether a further line has another result by a letter of one of them is looked up by hash.

ghost use Rattle.std.specs.Prelude.{◌≡◌, ◌++◌, ◌∷◌, [], ℕ, List, false, Some, OnOk};
ghost use Rattle.std.specs.List.{list_any};
ghost use Rattle.transducer_reading.specs.LastResults.{AreResults, AreAgreed, clashes, differs_from as differs_from_result, result_in};

use crate::transducer::TransducerLine;
use digit_tuple::faults::OutOfMemory;
use indexmap::IndexMap;
use std::alloc::Global;

/// The results of lines of one state, each a target and an output.
#[derive(Drop)]
pub struct Results {
    /// The result of a line with `*`.
    pub star: Option<(usize, i32)>,
    /// The results of lines with letters, by these.
    pub by_letter: IndexMap<i32, (usize, i32)>,
}

impl Results {
    /// Those of no lines.
    pub fn new(alloc: Global) -> Results
        ensures { AreResults [] result }
    {
        Results {
            star: None,
            by_letter: IndexMap::new(alloc),
        }
    }

    /// Whether by some letter one of the lines, of which these are the results, has another result than a further line of the state. The
    /// time is that of a look-up by hash, and for the first `*` that of a look at each of the lines.
    pub fn clash(&self, lines: &[(u64, TransducerLine)], line: TransducerLine) -> bool
        requires results { AreResults lines.now self.now }
        requires agreed { AreAgreed lines.now }
        ensures { result ≡ list_any (clashes line) lines.now }
    {
        let result = (line.target, line.output);
        match line.letter {
            Some(letter) => {
                differs_from(result, self.star)
                    || differs_from(result, self.by_letter.get(&letter).copied())
            }
            None => {
                if self.star.is_some() {
                    differs_from(result, self.star)
                } else {
                    differs_from_any(result, lines)
                }
            }
        }
    }

    /// Adds the result of a line that clashes with none of the others.
    pub fn add(&mut self, line: TransducerLine) -> Result<(), OutOfMemory>
        ensures { OnOk result ((lines : List (ℕ × TransducerLine)) (at : ℕ) → AreResults lines self.old → list_any (clashes line) lines ≡ false → AreResults (lines ++ (at, line) ∷ []) self.new) }
    {
        let result = (line.target, line.output);
        match line.letter {
            None => self.star = Some(result),
            Some(letter) => {
                self.by_letter.insert(letter, result)?;
            }
        }
        Ok(())
    }
}

// Whether there is another result.
fn differs_from(made: (usize, i32), other: Option<(usize, i32)>) -> bool
    ensures { result ≡ differs_from_result made other }
{
    match other {
        None => false,
        Some(other) => made != other,
    }
}

// Whether one of the lines has another result.
fn differs_from_any(made: (usize, i32), lines: &[(u64, TransducerLine)]) -> bool
    ensures { result ≡ list_any (λ other. differs_from_result made (Some (result_in other.1))) lines.now }
{
    lines
        .iter()
        .any(|other| made != (other.1.target, other.1.output))
}
