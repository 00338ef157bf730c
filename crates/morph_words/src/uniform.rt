//! The length of all images of a morphism.

ghost use Rattle.std.specs.Prelude.{◌≡◌, ℕ, length, IfErr, IfOk, MatchOption};
ghost use Rattle.morph_words.specs.Images.{image};
ghost use Rattle.morph_words.specs.Uniform.{HasLength, IsImageLength, IsLengthRefused, IsWithin};

use crate::morphism::Morphism;
use crate::morphism_kind::MorphismKind;

/// The least length of the images by which words are mapped.
const LEAST_LENGTH: usize = 1;

/// The greatest length of the images by which words are mapped.
const GREATEST_LENGTH: usize = 40;

/// Why words are not mapped by the morphism: None if and only if all images have one length of 1 to 40. It takes no
/// memory, and time in proportion to the number of rules.
pub fn image_kind(morphism: &Morphism) -> Option<MorphismKind>
    ensures { MatchOption result ((k : ℕ) × HasLength IsImageLength morphism.now k) (IsLengthRefused IsImageLength morphism.now) }
{
    match image_length(morphism) {
        Ok(_) => None,
        Err(kind) => Some(kind),
    }
}

/// The length of all images of a morphism by which words are mapped. It takes no memory, and time in proportion to
/// the number of rules.
///
/// # Errors
/// `NotUniform` where the images have not one length, and `Length` where that is not one of 1 to 40, as
/// `uniform_length` gives them.
pub fn image_length(morphism: &Morphism) -> Result<usize, MorphismKind>
    ensures length { IfOk result (HasLength IsImageLength morphism.now) }
    ensures kind { IfErr result (IsLengthRefused IsImageLength morphism.now) }
{
    uniform_length(morphism, LEAST_LENGTH, GREATEST_LENGTH)
}

/// The length of all images, where they have one and it lies from `least` to `greatest`. It takes no memory, and
/// time in proportion to the number of rules.
///
/// # Errors
/// `NotUniform` where the images have not one length, with the least letter whose image has another length than
/// that of the least letter; else `Length` where their length lies outside, with the least letter.
pub fn uniform_length(
    morphism: &Morphism,
    least: usize,
    greatest: usize,
) -> Result<usize, MorphismKind>
    ensures length { IfOk result (HasLength (IsWithin least greatest) morphism.now) }
    ensures kind { IfErr result (IsLengthRefused (IsWithin least greatest) morphism.now) }
{
    let first = morphism.least_letter();
    let length = length_of(morphism, first);
    if let Some(letter) = morphism.first_of_other_length(length) {
        return Err(MorphismKind::NotUniform(letter));
    }
    if length < least || greatest < length {
        return Err(MorphismKind::Length(first));
    }
    Ok(length)
}

// How long the image of a letter is; 0 where it has none.
fn length_of(morphism: &Morphism, letter: i32) -> usize
    ensures { result ≡ length (image morphism.now letter) }
{
    match morphism.image(letter) {
        Some(image) => image.letters().len(),
        None => 0,
    }
}
