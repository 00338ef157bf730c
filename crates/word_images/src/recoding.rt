//! Words whose letters are those at one position of the images.

ghost use Rattle.std.specs.Prelude.{◌≡◌, IfOk, slice_get};
ghost use Rattle.std.specs.Option.{option_and_then};
ghost use Rattle.morph_words.specs.Images.{image};
ghost use Rattle.word_images.specs.Recoded.{IsRecoded};
ghost use Rattle.word_images.specs.RecodedLetters.{recoded_letters};

use digit_tuple::faults::OutOfMemory;
use morph_words::Morphism;
use num_system::tracks::shared;
use std::alloc::Global;
use word_output::letter_function::LetterFunction;
use word_output::word::Word;

/// The word that has at each position the letter at this position of the image of the word's letter there. Where the word has
/// no letter, or its letter has no image that is long enough, it has none. Time and memory follow the states of the word.
pub fn recoded(
    alloc: Global,
    morphism: &Morphism,
    place: usize,
    word: &Word,
) -> Result<Word, OutOfMemory>
    ensures { IfOk result (IsRecoded morphism.now word.now place) }
{
    let systems = shared(alloc, word.systems())?;
    let function = word.function();
    let letters = recoded_letters(alloc, morphism, place, function)?;
    let recoded = LetterFunction::of_states(alloc, function.dfa(), &letters)?;
    Ok(Word::from_parts(recoded, systems))
}

// The letter at this position of the image of each state's letter.
fn recoded_letters(
    alloc: Global,
    morphism: &Morphism,
    place: usize,
    function: &LetterFunction,
) -> Result<Vec<Option<i32>>, OutOfMemory>
    ensures { IfOk result (λ letters. letters.items ≡ recoded_letters morphism.now place function.now) }
{
    let states = function.dfa().states();
    let mut letters = Vec::with_capacity(alloc, states as usize)?;
    for state in 0..states {
        letters.push(recoded_letter(morphism, place, function.letter_of(state)))?;
    }
    Ok(letters)
}

// The letter at this position of the image of a letter.
fn recoded_letter(morphism: &Morphism, place: usize, letter: Option<i32>) -> Option<i32>
    ensures { result ≡ option_and_then (λ a. slice_get (image morphism.now a) place) letter }
{
    match morphism.image(letter?) {
        Some(image) => image.letters().get(place).copied(),
        None => None,
    }
}
