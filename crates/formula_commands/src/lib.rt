//! The commands `eval` and `def`: the macros of a text are expanded, its formula is parsed, the files and systems that it mentions
//! are read, and its relation is made step after step. A sentence has a verdict.
//!
//! `specs/FormulaOutcomes.antt` has their checks in order, `formula.rt` the code, and `formula_text.rt` the text that is stored.
#![tactic(auto)]

/// The text of what a formula makes.
pub mod formula_text;

/// The commands `eval` and `def`.
pub mod formula;
