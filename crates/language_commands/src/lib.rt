//! The commands that make automata of expressions and of other automata: `reg`, `union`, `intersect`, `concat`, `star` and
//! `reverse`.
//!
//! `specs/RegOutcomes.antt` and `specs/LanguageOutcomes.antt` have their checks in order, `reg.rt` and `language.rt` the code;
//! `track_systems.rt` says what the names of a head's systems mean.
#![tactic(auto)]

/// The tracks and the languages of the systems that a command names.
pub mod track_systems;

/// The command `reg`.
pub mod reg;

/// The commands that make languages of others.
pub mod language;
