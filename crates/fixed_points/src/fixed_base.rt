//! The base of a morphism's fixed point, or why there is none.

ghost use Rattle.std.specs.Prelude.{◌≡◌, ◌↔◌, ◌<◌, ◌≤ℤ◌, length, IfOk, IfErr, IsTrue};
ghost use Rattle.std.specs.Map.{keys_of};
ghost use Rattle.morph_words.specs.Rules.{IsMorphism};
ghost use Rattle.morph_words.specs.Images.{image};
ghost use Rattle.morph_words.specs.Uniform.{AreUniform, HasRule, IsLeast, IsLeastOf};
ghost use Rattle.fixed_points.specs.LeastLetters.{LacksAmong, lesser};
ghost use Rattle.morph_words.specs.MorphismKinds.{BeginsItself, HasFixedPoint, IsBase, IsLacking, IsRefusedAs};

use morph_words::{Morphism, MorphismKind, uniform_length};

/// The least length of images.
const LEAST_LENGTH: usize = 2;

/// The greatest length of images.
const GREATEST_LENGTH: usize = 40;

/// The length of all images, where the morphism has a fixed point from the letter 0; else the first kind of
/// refusal. The letters are those that have images, in ascending order. It takes no memory, and time in
/// proportion to the images but for a look-up of each of their letters.
pub(crate) fn fixed_base(morphism: &Morphism, letters: &[i32]) -> Result<u32, MorphismKind>
    requires { letters.now ≡ keys_of morphism.now }
    ensures base { IfOk result (λ k. HasFixedPoint morphism.now k) }
    ensures kind { IfErr result (λ kind. IsRefusedAs morphism.now kind) }
{
    let base = uniform_length(morphism, LEAST_LENGTH, GREATEST_LENGTH)?;
    if let Some(letter) = least_lacking(morphism, letters) {
        return Err(MorphismKind::NotClosed(letter));
    }
    if !begins_itself(morphism) {
        return Err(MorphismKind::NotFixed(0));
    }
    Ok(base as u32)
}

// The least letter that is in an image and has none.
fn least_lacking(morphism: &Morphism, letters: &[i32]) -> Option<i32>
    requires { letters.now ≡ keys_of morphism.now }
    ensures { IsLeastOf (IsLacking morphism.now) result }
{
    let _image = morphism.image(0);
    let mut found = None;
    for letter in letters {
        if let Some(image) = morphism.image(*letter) {
            found = lesser(found, least_lacking_of(morphism, image.letters()));
        }
    }
    found
}

// The least letter of a word that has no image.
fn least_lacking_of(morphism: &Morphism, word: &[i32]) -> Option<i32>
    ensures { IsLeastOf (LacksAmong morphism.now word.now (length word.now)) result }
{
    let mut found = None;
    for letter in word {
        if morphism.image(*letter).is_none() {
            found = lesser(found, Some(*letter));
        }
    }
    found
}

// The lesser of two letters that may be missing.
fn lesser(one: Option<i32>, other: Option<i32>) -> Option<i32>
    ensures { result ≡ lesser one other }
{
    match one {
        None => other,
        Some(first) => match other {
            Some(second) if second < first => other,
            _ => one,
        },
    }
}

// Whether the letter 0 has an image that begins with it.
fn begins_itself(morphism: &Morphism) -> bool
    ensures { IsTrue result ↔ BeginsItself morphism.now }
{
    match morphism.image(0) {
        Some(image) => matches!(image.letters(), [0, ..]),
        None => false,
    }
}
