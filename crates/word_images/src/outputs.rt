//! The letters that are in images.

ghost use Rattle.std.specs.Prelude.{IfOk};
ghost use Rattle.word_images.specs.ImageWords.{AreOutputs};

use digit_tuple::faults::OutOfMemory;
use morph_words::Morphism;
use std::alloc::Global;
use word_output::word::Word;

/// The letters that are in the images of the letters of a word, in ascending order. Time and memory follow these
/// images, but for sorting.
pub fn output_letters(
    alloc: Global,
    morphism: &Morphism,
    word: &Word,
) -> Result<Vec<i32>, OutOfMemory>
    ensures { IfOk result (λ letters. AreOutputs morphism.now word.now letters.items) }
{
    let mut found = Vec::new(alloc);
    for letter in word.letters() {
        if let Some(image) = morphism.image(*letter) {
            found.extend_from_slice(image.letters())?;
        }
    }
    found.sort_unstable();
    found.dedup();
    Ok(found)
}
