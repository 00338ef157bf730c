//! Alphabets, letters and the lines of steps.

ghost use Rattle.std.specs.Prelude.{◌≡◌, ◌∷◌, []};

use crate::given::{given, no_answer};
use crate::outcomes::{expect_text, expect_value, lines_of};
use digit_tuple::alphabet::Alphabet;
use digit_tuple::faults::OpFault;
use digit_tuple::kind::Kind;
use digit_tuple::steps::Steps;
use std::alloc::Global;
use std::process::Abort;
use track_parts::track_parts::TrackParts;

// The alphabet of two tracks of 2 and 3 digits, by way of a copy.
fn two_and_three(rt: &impl Abort, alloc: Global) -> Alphabet
    ensures { result ≡ 2 ∷ 3 ∷ [] }
{
    given(rt, given(rt, Alphabet::new(alloc, &[2, 3])).copy(alloc))
}

#[test]
fn letters_and_digits_are_inverse(rt: HostRuntime) {
    let alphabet = two_and_three(&rt, rt.alloc());
    expect_value(&rt, "tracks", &alphabet.tracks(), &2);
    expect_value(&rt, "a size", &alphabet.size(1), &3);
    expect_value(&rt, "a letter", &alphabet.letter_of(&[1, 2]), &5);
    let mut digits = [0, 0];
    alphabet.digits_of(4, &mut digits);
    expect_value(&rt, "digits", &digits, &[1, 1]);
}

// Sizes of tracks, and how many letters they have, if these are not too many.
static LETTERS: [(&str, &[u32], Option<u32>); 8] = [
    ("no track", &[], Some(1)),
    ("no digit", &[2, 0, 3], Some(0)),
    ("65,536 letters", &[256, 256], Some(65536)),
    ("one track too large", &[65537], None),
    ("two tracks too large", &[257, 256], None),
    ("sixteen tracks", &[1; 16], Some(1)),
    ("seventeen tracks", &[1; 17], None),
    ("large and none", &[4000000000, 4000000000, 0], Some(0)),
];

// How many letters tracks of these sizes have, if these are not too many.
fn letters_over(rt: &impl Abort, alloc: Global, sizes: &[u32]) -> Option<u32> {
    match Alphabet::new(alloc, sizes) {
        Ok(alphabet) => Some(alphabet.letters()),
        Err(OpFault::Letters) => None,
        Err(_) => no_answer(rt),
    }
}

#[test]
fn sixteen_tracks_and_65536_letters_are_the_most(rt: HostRuntime) {
    for (row, sizes, letters) in &LETTERS {
        let found = letters_over(&rt, rt.alloc(), sizes);
        expect_value(&rt, row, &found, letters);
    }
}

// The parts of all letters, in order.
fn all_parts(rt: &impl Abort, alloc: Global, parts: &TrackParts) -> Vec<u32> {
    let mut all = Vec::new(alloc);
    for letter in 0..parts.letters() {
        given(rt, all.push(parts.part(letter)));
    }
    all
}

// The letters of two tracks of 2 and 3 digits with the tracks exchanged.
fn turned(rt: &impl Abort, alloc: Global) -> Vec<u32> {
    let alphabet = given(rt, Alphabet::new(alloc, &[2, 3]));
    let turned = given(rt, Alphabet::new(alloc, &[3, 2]));
    let parts = given(rt, TrackParts::new(alloc, &alphabet, &[1, 0], &turned));
    all_parts(rt, alloc, &parts)
}

// The same on the second track alone.
fn second(rt: &impl Abort, alloc: Global) -> Vec<u32> {
    let alphabet = given(rt, Alphabet::new(alloc, &[2, 3]));
    let second = given(rt, Alphabet::new(alloc, &[3]));
    let parts = given(rt, TrackParts::new(alloc, &alphabet, &[1], &second));
    all_parts(rt, alloc, &parts)
}

#[test]
fn parts_are_taken_in_the_order_of_the_places(rt: HostRuntime) {
    let exchanged: &[u32] = &[0, 2, 4, 1, 3, 5];
    let found = turned(&rt, rt.alloc());
    expect_value(&rt, "exchanged", &found.as_slice(), &exchanged);
    let alone: &[u32] = &[0, 1, 2, 0, 1, 2];
    let found = second(&rt, rt.alloc());
    expect_value(&rt, "the second", &found.as_slice(), &alone);
}

#[test]
fn steps_are_kept_in_order(rt: HostRuntime) {
    let mut steps = Steps::new(rt.alloc(), 1000);
    given(&rt, steps.done(Kind::Product, 6, 4));
    given(&rt, steps.done(Kind::Project, 9, 2));
    expect_value(&rt, "the limit", &steps.limit(), &1000);
    expect_value(&rt, "the next step", &steps.next_number(), &3);
    let lines = lines_of(&rt, rt.alloc(), &steps);
    expect_text(&rt, "two steps", &lines, "product 6 4, project 9 2, ");
}
