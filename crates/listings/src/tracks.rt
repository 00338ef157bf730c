//! Places on tracks.

ghost use Rattle.std.specs.Prelude.{◌≡◌, ◌↔◌, ◌<◌, length, IfOk, IsSome, IfSome, MatchOption};
ghost use Rattle.std.specs.List.{All};
ghost use Rattle.digit_tuple.specs.Letters.{product};
ghost use Rattle.digit_tuple.specs.Sets.{IsLetterSet, sizes_of};
ghost use Rattle.digit_tuple.specs.Tuples.{Codes, IsLetterOf};
ghost use Rattle.listings.specs.Tracks.{AreAt, HasDigits, IsOnTracks};

use digit_tuple::alphabet::Alphabet;
use digit_tuple::faults::OutOfMemory;
use digit_tuple::letter_set::LetterSet;
use digit_tuple::sets::Sets;
use place_text::{Letter, Place};
use std::alloc::Global;

/// The place as a word of letters of an automaton whose tracks have these sets as their digits. None comes if and only if a
/// letter of the place has another number of digits than there are tracks, or a digit that its track does not have.
///
/// It takes time in proportion to the digits of the place, times the logarithm of the size of their sets.
pub fn word_of(
    alloc: Global,
    alphabet: &Alphabet,
    sets: &Sets,
    place: &Place,
) -> Result<Option<Vec<u32>>, OutOfMemory>
    requires { alphabet.now ≡ sizes_of sets.now }
    ensures on_tracks { IfOk result (λ found. IsSome found ↔ IsOnTracks sets.now place.now) }
    ensures word { IfOk result (λ found. IfSome found (λ word. Codes sets.now place.now word.items)) }
{
    found_word(alloc, alphabet, sets.as_slice(), place.letters())
}

// The word of the letters, if each has the digits of a letter.
fn found_word(
    alloc: Global,
    alphabet: &Alphabet,
    sets: &[LetterSet],
    letters: &[Letter],
) -> Result<Option<Vec<u32>>, OutOfMemory>
    requires { alphabet.now ≡ sizes_of sets.now }
    ensures { IfOk result (λ found. MatchOption found (¬ IsOnTracks sets.now letters.now) (λ word. Codes sets.now letters.now word.items)) }
{
    let mut word = Vec::new(alloc);
    for letter in letters {
        match number_of(alloc, alphabet, sets, letter.digits())? {
            Some(number) => word.push(number)?,
            None => return Ok(None),
        }
    }
    Ok(Some(word))
}

// The number of the letter with these digits, if the tracks have them.
fn number_of(
    alloc: Global,
    alphabet: &Alphabet,
    sets: &[LetterSet],
    digits: &[i32],
) -> Result<Option<u32>, OutOfMemory>
    requires { alphabet.now ≡ sizes_of sets.now }
    ensures { IfOk result (λ found. MatchOption found (¬ HasDigits sets.now digits.now) (IsLetterOf sets.now digits.now)) }
{
    if sets.len() != digits.len() {
        return Ok(None);
    }
    match places_of(alloc, sets, digits)? {
        Some(places) => Ok(Some(alphabet.letter_of(&places))),
        None => Ok(None),
    }
}

// Where the digits are in the sets of their tracks, if each is there.
fn places_of(
    alloc: Global,
    sets: &[LetterSet],
    digits: &[i32],
) -> Result<Option<Vec<u32>>, OutOfMemory>
    requires { length sets.now ≡ length digits.now }
    ensures { IfOk result (λ found. MatchOption found (¬ HasDigits sets.now digits.now) (λ places. AreAt sets.now digits.now places.items)) }
{
    let mut places = Vec::new(alloc);
    for (track, set) in sets.iter().enumerate() {
        match set.place_of(digits[track]) {
            Some(place) => places.push(place)?,
            None => return Ok(None),
        }
    }
    Ok(Some(places))
}
