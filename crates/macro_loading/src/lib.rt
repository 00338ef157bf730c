//! The expansion of a text by the macros that are in a store.
//!
//! `expanded` expands a text as `macro_expand` does, by the texts in the store's folder of macros, one for each name
//! (`specs/MacroFiles.antt`). What it reads is a macro of which a call is met. No macro is read twice: that is the code's way,
//! which no clause says.
#![tactic(auto)]

/// Why a text is not expanded.
mod fault;

/// The macros that are in a store, read as their names are met.
mod macro_files;

/// The expansion of a text.
mod expanding;

/// What holds of all expansions.
mod laws;

pub use expanding::expanded;
pub use fault::ExpansionFault;
pub use laws::expansions_by_files_have_one_answer;
