//! Places on tracks.

ghost use Rattle.std.specs.Prelude.{◌↔◌, IsTrue};
ghost use Rattle.listings.specs.Tracks.{HasDigits, IsOnTracks};
ghost use Rattle.table_listings.specs.Questions.{IsAskedOn};

use crate::question::Question;
use digit_tuple::letter_set::LetterSet;
use digit_tuple::sets::Sets;
use place_text::{Letter, Place};

/// Whether the place of a question, if there is one, is a word over the tracks.
pub fn is_asked_on(sets: &Sets, question: &Question) -> bool
    ensures { IsTrue result ↔ IsAskedOn sets.now question.now }
{
    match question {
        Question::Words(words) => match &words.place {
            Some(place) => is_on_tracks(sets, place),
            None => true,
        },
        Question::Infinity => true,
    }
}

/// Whether each letter of the place has a digit for each track, and each digit is one of its track. It takes time in proportion to the
/// digits of the place, times the logarithm of the size of their sets.
fn is_on_tracks(sets: &Sets, place: &Place) -> bool
    ensures { IsTrue result ↔ IsOnTracks sets.now place.now }
{
    are_on_tracks(sets.as_slice(), place.letters())
}

// Whether these letters are.
fn are_on_tracks(sets: &[LetterSet], letters: &[Letter]) -> bool
    ensures { IsTrue result ↔ IsOnTracks sets.now letters.now }
{
    for letter in letters {
        if !has_digits(sets, letter.digits()) {
            return false;
        }
    }
    true
}

// Whether the digits are those of a letter.
fn has_digits(sets: &[LetterSet], digits: &[i32]) -> bool
    ensures { IsTrue result ↔ HasDigits sets.now digits.now }
{
    if sets.len() != digits.len() {
        return false;
    }
    for (track, set) in sets.iter().enumerate() {
        match set.place_of(digits[track]) {
            Some(_) => {}
            None => return false,
        }
    }
    true
}
