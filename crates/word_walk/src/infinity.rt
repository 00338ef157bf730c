//! Whether infinitely many words are listed.

ghost use Rattle.std.specs.Prelude.{◌↔◌, IsTrue, IfOk};
ghost use Rattle.word_walk.specs.Infinity.{IsInfinite};
ghost use Rattle.word_walk.specs.Listed.{is_listed};

use crate::listed_words::listed_words;
use digit_tuple::dfa::Dfa;
use digit_tuple::direction::Direction;
use digit_tuple::faults::OutOfMemory;
use endless::sorting::has_round;
use std::alloc::Global;

/// Whether the automaton accepts infinitely many words, without those that begin (msd) or end (lsd) with the letter 0
/// where a direction is given. It takes the time that it takes to minimise the automaton. OutOfMemory comes too where
/// 2^32 - 1 states are not enough.
pub fn is_infinite(alloc: Global, d: &Dfa, skip: Option<Direction>) -> Result<bool, OutOfMemory>
    ensures { IfOk result (λ is. IsTrue is ↔ IsInfinite (is_listed d.now skip)) }
{
    let listing = listed_words(alloc, d, skip)?;
    has_round(alloc, &listing, listing.states())
}
