//! Tuples, and the words of tuples that words of letters denote.

ghost use Rattle.std.specs.Prelude.{◌≡◌, ◌<◌, IfOk};
ghost use Rattle.digit_tuple.specs.Letters.{product, IsWord, AreDigits};
ghost use Rattle.digit_tuple.specs.Sets.{sizes_of, members_at};
ghost use Rattle.digit_tuple.specs.Tuples.{IsLetterOf, Codes};

use digit_tuple::alphabet::Alphabet;
use digit_tuple::faults::OutOfMemory;
use digit_tuple::letter_set::LetterSet;
use std::alloc::Global;
use std::marker::Model;

/// A tuple: a number for each track.
#[derive(Drop)]
pub struct Tuple {
    tracks: Vec<i32>,
}

impl Model for Tuple {
    ghost use Rattle.std.specs.Prelude.{ℤ, List};

    ghost Value = { List ℤ };

    ghost view = { λ t. t.tracks.items };
}

impl Tuple {
    /// The tuple of these numbers.
    pub fn new(members: Vec<i32>) -> Self
        ensures { result ≡ members.items }
    {
        Tuple { tracks: members }
    }

    /// The numbers, one for each track.
    pub fn members(&self) -> &[i32]
        ensures { result.now ≡ self.now }
    {
        &self.tracks
    }
}

/// The word of tuples of members of the sets that a word of letters denotes.
pub fn tuples_of(
    alloc: Global,
    alphabet: &Alphabet,
    sets: &[LetterSet],
    word: &[u32],
) -> Result<Vec<Tuple>, OutOfMemory>
    requires sizes { alphabet.now ≡ sizes_of sets.now }
    requires word { IsWord (product alphabet.now) word.now }
    ensures { IfOk result (λ tuples. Codes sets.now tuples.items word.now) }
{
    match word {
        [] => Ok(Vec::new(alloc)),
        [letter, rest @ ..] => {
            let mut tuples = tuples_of(alloc, alphabet, sets, rest)?;
            tuples.insert(0, tuple_of(alloc, alphabet, sets, *letter)?)?;
            Ok(tuples)
        }
    }
}

// The tuple that a letter denotes.
fn tuple_of(
    alloc: Global,
    alphabet: &Alphabet,
    sets: &[LetterSet],
    letter: u32,
) -> Result<Tuple, OutOfMemory>
    requires sizes { alphabet.now ≡ sizes_of sets.now }
    requires letter { letter < product alphabet.now }
    ensures { IfOk result (λ tuple. IsLetterOf sets.now tuple letter) }
{
    let mut digits = Vec::from_elem(alloc, 0, sets.len())?;
    alphabet.digits_of(letter, &mut digits);
    Ok(Tuple::new(members_in(alloc, sets, &digits)?))
}

// The members at these places, one of each set.
fn members_in(alloc: Global, sets: &[LetterSet], places: &[u32]) -> Result<Vec<i32>, OutOfMemory>
    requires { AreDigits (sizes_of sets.now) places.now }
    ensures { IfOk result (λ members. members.items ≡ members_at sets.now places.now) }
{
    match (sets, places) {
        ([set, sets @ ..], [place, places @ ..]) => {
            let mut members = members_in(alloc, sets, places)?;
            members.insert(0, set.members()[*place as usize])?;
            Ok(members)
        }
        _ => Ok(Vec::new(alloc)),
    }
}
