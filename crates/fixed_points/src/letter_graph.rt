//! Letters with their images, as a graph of keys.

ghost use Rattle.std.specs.Prelude.{◌≡◌, ◌<◌, ◌^◌, pos, List, [], length, Some, OnOk, slice_index_or};
ghost use Rattle.digit_tuple.specs.Keys.{AreKeyTransitions};
ghost use Rattle.fixed_points.specs.LetterGraph.{IsLetterGraph, IsLetterKey, accepts_all, key_after, key_of, letter_of};
ghost use Rattle.fixed_points.specs.LetterGraphLaws.{after_is_letter_key, start_is_letter_key};

use digit_tuple::faults::OutOfMemory;
use digit_tuple::key_graph::KeyGraph;
use digit_tuple::key_transitions::KeyTransitions;
use morph_words::Morphism;
use std::alloc::Global;

/// The letters of a morphism all of whose images have the length of the base. A key is the bits of a letter,
/// and a digit leads to the letter at its position of the image.
#[derive(Clone, Copy)]
pub(crate) struct LetterGraph<'a> {
    pub(crate) morphism: &'a Morphism,
    pub(crate) base: u32,
}

impl KeyGraph for LetterGraph<'_> {
    ghost letters = { λ g. g.base };

    ghost is_graph = { λ g. IsLetterGraph g.morphism.now g.base };

    ghost is_key = { λ g. IsLetterKey g.morphism.now };

    ghost start = { λ _. key_of (pos 0) };

    ghost after = { λ g. key_after g.morphism.now };

    ghost accepts = { λ _. accepts_all };

    ghost start_is_key = { λ g graph. start_is_letter_key g.morphism.now g.base graph };

    ghost after_is_key = { λ g key digit graph is small. after_is_letter_key g.morphism.now g.base key digit graph is small };

    fn first_key(&self, alloc: Global) -> Result<Vec<u32>, OutOfMemory> {
        Ok(Vec::from_slice(alloc, &[0])?)
    }

    fn transitions(
        &self,
        _alloc: Global,
        key: &[u32],
        out: &mut KeyTransitions,
    ) -> Result<(), OutOfMemory> {
        match self.morphism.image(letter_of(key)) {
            Some(image) => push_letters(image.letters(), out),
            None => Ok(()),
        }
    }

    fn is_accepting(&self, _key: &[u32]) -> bool {
        true
    }
}

/// The letter of a key.
pub(crate) fn letter_of(key: &[u32]) -> i32
    requires { 0 < length key.now }
    ensures { result ≡ letter_of key.now }
{
    key[0].cast_signed()
}

// A transition by the position of each letter of a word, to that letter.
fn push_letters(word: &[i32], out: &mut KeyTransitions) -> Result<(), OutOfMemory>
    requires few { length word.now < 2 ^ 32 }
    requires empty { out.old ≡ [] }
    ensures { OnOk result (AreKeyTransitions (length word.now) (λ digit. Some (key_of (slice_index_or word.now digit (pos 0)))) out.new) }
{
    for digit in 0..word.len() {
        out.push(digit as u32, &[word[digit].cast_unsigned()])?;
    }
    Ok(())
}
