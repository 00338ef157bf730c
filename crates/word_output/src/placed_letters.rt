//! Letters read on tracks that have names.

ghost use Rattle.std.specs.Prelude.{◌≡◌, ℕ, List, length, IfOk};
ghost use Rattle.std.specs.List.{All, Contains};
ghost use Rattle.digit_tuple.specs.Letters.{product, IsWord};
ghost use Rattle.digit_tuple.specs.Names.{places_of};
ghost use Rattle.digit_tuple.specs.Parts.{picked};
ghost use Rattle.word_output.specs.LetterFunctions.{letter_after};
ghost use Rattle.word_output.specs.WordPairs.{letter_read};

use crate::head_letters::head_letters;
use crate::letter_function::LetterFunction;
use digit_tuple::alphabet::Alphabet;
use digit_tuple::exploration::Explored;
use digit_tuple::faults::OutOfMemory;
use digit_tuple::limit::Limit;
use digit_tuple::name::Name;
use digit_tuple::names::places_in;
use product_op::argument_readers::reader_on;
use product_op::tuples::explore_tuples;
use std::alloc::Global;

/// Letters of words, and a name for each track. Names may repeat.
#[derive(Clone, Copy)]
pub struct Placed<'a> {
    pub function: &'a LetterFunction,
    pub under: &'a [Name],
}

/// The letters that are read on tracks of these names, among which are those of the function's tracks:
/// each track of the function reads the track of its name, and has its number of digits.
pub(crate) fn letters_on(
    alloc: Global,
    placed: Placed<'_>,
    names: &[Name],
    tracks: &Alphabet,
) -> Result<LetterFunction, OutOfMemory>
    requires there { All (Contains names.now) placed.under.now }
    requires count { length names.now ≡ length tracks.now }
    requires sizes { picked (places_of names.now placed.under.now) tracks.now ≡ placed.function.now.automaton.sizes }
    ensures sizes { IfOk result (λ f. f.automaton.sizes ≡ tracks.now) }
    ensures letters { IfOk result (λ f. (w : List ℕ) → IsWord (product tracks.now) w
        → letter_after f w ≡ letter_read names.now tracks.now (record { function = placed.entry.function.now; under = placed.entry.under.now }) w) }
{
    let _tracks = tracks.tracks();
    let function = placed.function;
    let places = places_in(alloc, names, placed.under)?;
    let mut readers = Vec::new(alloc);
    readers.push(reader_on(alloc, tracks, &places, function.dfa())?)?;
    match explore_tuples(alloc, tracks.copy(alloc)?, &readers, Limit::none()) {
        Ok(stepped) => {
            let Explored { dfa, keys } = stepped.result;
            let letters = head_letters(alloc, function, &keys)?;
            LetterFunction::of_states(alloc, &dfa, &letters)
        }
        Err(_) => Err(OutOfMemory),
    }
}
