//! The commands that make words: `promote`, `image`, `combine`, `transduce` and `convert`.
//!
//! Each has its checks in order (`specs/PromoteOutcomes.antt`, `ImageOutcomes`, `CombineOutcomes`, `TransduceOutcomes`,
//! `ConvertOutcomes`), what its parts make (`specs/ImageMakes.antt` and so on), and a file of code of its own. The word that it
//! makes is said by a definition on words, not by its steps; the steps are said beside it, since a line shows each of them and a
//! limit may refuse it.
//!
//! `image`, `transduce` and `convert` make a word of one other word, which `old_word.rt` loads with its systems. An image is
//! made letter by letter: `imaging.rt` finds the letters of the result, `letter_parts.rt` makes the relation of each by a formula
//! over recoded words, which `setting.rt` names, and the step `combine` joins these. `base_system.rt` says over which base a word
//! is, for `transduce` and `convert`. `word_text.rt` makes the text of each word.
//!
//! A word may lack letters: then the new word lacks those that would be made of them, but for `combine`, which gives the letter 0
//! where no automaton accepts. A name that is listed twice is read once.
//!
//! A command takes the time and memory of its steps. Costs are not proved.
#![tactic(auto)]

/// The text of a word that a command makes.
pub mod word_text;

/// Words over one system that is a base.
pub mod base_system;

/// The command `promote`.
pub mod promote;

/// The command `combine`.
pub mod combine;

/// What the names of the formulas of letters mean.
pub mod setting;

/// The relations of letters, one after another.
pub mod letter_parts;

/// Why a word has no image.
pub mod image_fault;

/// Images of words.
pub mod imaging;

/// The command `image`.
pub mod image;

/// A word that a command names, of which it makes another word.
pub mod old_word;

/// Words under transducers.
pub mod transducing;

/// The command `transduce`.
pub mod transduce;

/// The command `convert`.
pub mod convert;
