//! The letters of a word that have no rule.

ghost use Rattle.morph_words.specs.Uniform.{IsLeastOf};
ghost use Rattle.word_images.specs.ImageWords.{IsMissing};

use morph_words::Morphism;
use word_output::word::Word;

/// The least letter that occurs in the word and has no image. Letters that do not occur are not asked. It takes no
/// memory, and a look-up for each letter that occurs.
pub fn missing_letter(morphism: &Morphism, word: &Word) -> Option<i32>
    ensures { IsLeastOf (IsMissing morphism.now word.now) result }
{
    for letter in word.letters() {
        if morphism.image(*letter).is_none() {
            return Some(*letter);
        }
    }
    None
}
