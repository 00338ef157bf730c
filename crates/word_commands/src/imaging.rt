//! Images of words.

ghost use Rattle.std.specs.Prelude.{◌≡◌, ◌⊎◌, length, Ok, Err, IfErr, IfOk};
ghost use Rattle.digit_tuple.specs.declared.step_fault.StepFault.TheVariants.{Memory};
ghost use Rattle.num_system.specs.Tracks.{direction_of};
ghost use Rattle.formula_build.specs.Solutions.{direction_named};
ghost use Rattle.word_commands.specs.ImageSteps.{DoesImage, DoesMapped};
ghost use Rattle.word_images.specs.ImageWords.{IsImageWord, IsMapped};

use crate::image_fault::ImageFault;
use crate::letter_parts::{Formulas, letter_parts};
use crate::setting::Setting;
use combinations::combine::combine;
use combinations::combine_fault::CombineFault;
use digit_tuple::name::Name;
use digit_tuple::step_fault::StepFault;
use digit_tuple::steps::Steps;
use morph_words::{Morphism, image_length};
use std::alloc::Global;
use word_images::{missing_letter, output_letters};
use word_output::word::Word;

/// The image of a word of one track under a morphism, over the same system, by the next steps: k being the length of the
/// images, the letter at k*q + r is that at position r of the image of the word's letter at q, and there is none where the
/// word has none. The name is that of the system. All images have one length of 1 to 40, and each letter
/// of the word has one. Time and memory to prepare the steps follow the states of the word times the length; beside
/// that they are those of the steps.
///
/// The steps are, for each letter that is in an image of a letter of the word, in ascending order, those of the formula
/// that says of a number `n` that this letter is at `n`; and then one step `combine`.
///
/// # Errors
/// `Morphism` if and only if the images have not one length of 1 to 40, with the kind and its letter. Else `Missing` if
/// and only if a letter of the word has no image, with the least such letter. Then the steps are as before. Else `Step`
/// with `Letters` or `States` exactly at the first step that passes a limit, with its number; the steps before it are
/// done. If memory runs out, some of the steps may be done.
pub fn image(
    alloc: Global,
    morphism: &Morphism,
    word: &Word,
    system: &Name,
    steps: &mut Steps,
) -> Result<Word, ImageFault>
    requires track { length word.now.systems ≡ 1 }
    requires direction { direction_of word.now.systems ≡ direction_named system.now }
    ensures steps { DoesImage morphism.now word.now system.now steps.old result steps.new }
    ensures image { IfOk result (IsImageWord morphism.now word.now) }
{
    let length = image_length(morphism)?;
    if let Some(letter) = missing_letter(morphism, word) {
        return Err(ImageFault::Missing(letter));
    }
    Ok(mapped(alloc, morphism, word, Target { system, length }, steps)?)
}

// The system's name, and the length of the images.
#[derive(Clone, Copy)]
struct Target<'a> {
    system: &'a Name,
    length: usize,
}

// The image of a word whose letters have images of one length.
fn mapped(
    alloc: Global,
    morphism: &Morphism,
    word: &Word,
    target: Target<'_>,
    steps: &mut Steps,
) -> Result<Word, StepFault>
    requires mapped { IsMapped morphism.now word.now target.length }
    requires track { length word.now.systems ≡ 1 }
    requires direction { direction_of word.now.systems ≡ direction_named target.system.now }
    ensures done { IfOk result (λ image. DoesMapped morphism.now word.now target.entry.system.now steps.old (Ok image) steps.new) }
    ensures stopped { IfErr result (λ fault. (fault ≡ Memory) ⊎ DoesMapped morphism.now word.now target.entry.system.now steps.old (Err fault) steps.new) }
    ensures image { IfOk result (IsImageWord morphism.now word.now) }
{
    let Target { system, length } = target;
    let letters = output_letters(alloc, morphism, word)?;
    let setting = Setting::new(alloc, morphism, word, system, length)?;
    let formulas = Formulas {
        setting: &setting,
        system,
        length,
    };
    let parts = letter_parts(alloc, formulas, &letters, steps)?;
    match combine(alloc, &parts, word.systems(), None, steps) {
        Ok(image) => Ok(image),
        Err(CombineFault::Step(fault)) => Err(fault),
        Err(CombineFault::Shape(_, _)) => unreachable!(),
    }
}
