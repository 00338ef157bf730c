//! The relations of plans: each is made of relations, words and systems under their names, or of relations made before it.
//!
//! `make_plans` makes the relations of a list of plans (`term_plans::PlanList`) over `number_relations`, one after
//! another (`Builds` in `specs/Building.antt`), of sealed systems and of the relations and words that a `Library` has
//! under their names. `Letters` and `States` come exactly at the first step that passes a limit. `plans_hold` says of
//! which numbers the relation of a plan holds, and `one_made` that it is determined.
//!
//! The fresh track k has the name k in decimal. No variable has it, since names of variables begin with a letter. A plan
//! that is no step is made only if a step or the last plan needs it (`src/needed.rt`). Each relation is kept until the
//! last one is made.
//!
//! A search in a `Library` takes time in proportion to its entries. Not proved: time and memory.
#![tactic(auto)]

/// Relations and words by their names.
mod library;

/// What names mean.
mod known;

/// The names of tracks.
mod track_names;

/// Which plans of a list are needed.
mod needed;

/// Relations made of words.
mod word_making;

/// One relation, made of earlier ones.
mod making;

/// Plans made, one after another.
mod plan_making;

/// Laws of what plans make.
mod laws;

pub use known::Known;
pub use laws::{one_made, plans_hold};
pub use library::Library;
pub use plan_making::make_plans;
