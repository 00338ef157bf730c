//! What images of automatic words are made of: the images of the letters of a word under a morphism all of whose
//! images have one length, one after another, are a word over the same system.
//!
//! For each position of the images there is a recoded word, whose letter at each number is that at this position of the
//! image. Where the word has no letter, the recoded word and the image have none. Each letter of the result has a formula over these words that is true at its positions.
#![tactic(auto)]

/// The letters of a word that have no rule.
mod missing;

/// The letters that are in images.
mod outputs;

/// Words whose letters are those at one position of the images.
mod recoding;

/// The formula of one letter.
pub mod image_formula;

/// Laws of images.
pub mod laws;

pub use missing::missing_letter;
pub use outputs::output_letters;
pub use recoding::recoded;
