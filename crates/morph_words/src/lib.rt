//! Morphisms of words: a word, its image, for each of some letters. Here are their rules as text, read with the first
//! fault, and printed by ascending letter; and the length of their images, where all have one.
//!
//! `Morphism::parse` gives the morphism of a text such as `0->01, 1->10` if and only if the grammar relates its rules
//! to the text (`specs/Grammar.antt`), else one fault and its byte (`one_answer`). No image is empty, and no letter has
//! two rules. The order of rules changes nothing (`order_is_free`). The text that `Morphism::print` gives derives from
//! the same morphism (`printed_derives`).
//!
//! A morphism need not be uniform, and letters of its images may lack a rule: `parse` accepts it, and who uses it asks.
//! `uniform_length` gives the length of all images, if the morphism is uniform and the length is within bounds, else
//! the first kind that applies, with its letter (`MorphismKind`). `image_length` and `image_kind` do so for the lengths
//! 1 to 40. The fixed point from the letter 0 (`specs/FixedPoint.antt`) and the letters of the image of an infinite
//! word (`specs/ImageLetters.antt`) are definitions here. `fixed_points` and `word_images` make automata of them.
//!
//! A text is read lexeme by lexeme, in time linear in its length but for a look-up and an insertion for each rule.
//! `uniform_length` takes no memory, and time in proportion to the number of rules. Not proved: time and memory.
#![tactic(auto)]

// the faults of rules
mod fault;
// words of letters
mod image;
// what the text of rules is made of
mod lexeme;
// the lexeme at a byte
mod lexing;
// reading rules lexeme by lexeme
mod stage;
// letters and rules as text
mod printing;
// morphisms, from rules and as rules
mod morphism;
// kinds of refusal of morphisms
mod morphism_kind;
// the length of all images
mod uniform;
// laws of rules
pub mod laws;

pub use fault::RulesFault;
pub use image::Image;
pub use morphism::Morphism;
pub use morphism_kind::MorphismKind;
pub use uniform::{image_kind, image_length, uniform_length};
