//! The steps of language commands, over the tables of loaded files.
//!
//! Language commands are of automata over sets: `first_not_plain` and `first_unlike` look for the first table that is not over
//! sets, and for the first whose header is not that of the first table. `language_of` reads each table by a step, and does the
//! operation on the languages of listed names: from the left, one step for each further language (`specs/LanguageSteps.antt`).
//! `read_language` reads one table alone.
#![tactic(auto)]

/// Operations on languages.
mod op;

/// The headers of tables.
mod headers;

/// Languages read from tables.
mod reading;

/// Operations on languages under names.
mod operating;

/// The steps of a language command.
mod making;

/// Laws of the definitions.
mod laws;

pub use headers::{first_not_plain, first_sets, first_unlike};
pub use laws::languages_have_one_outcome;
pub use making::language_of;
pub use op::{LanguageOp, OneOp, PairOp};
pub use reading::read_language;
