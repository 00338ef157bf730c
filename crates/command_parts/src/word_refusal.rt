//! What the letters and words that a command asks for are refused for.

use morph_words::MorphismKind;

/// Why the letters or the words that a command asks for are not made.
#[derive(Drop)]
pub enum WordRefusal {
    /// F22: no word is made of the morphism.
    Morphism(MorphismKind),
    /// F23: this letter of the word has no rule. It is the least such letter.
    LetterMissing(i32),
    /// F31: the lines of the words that a `test` lists have more than 16,777,216 bytes.
    TestLong,
}
