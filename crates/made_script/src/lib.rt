//! The generated script of a seed: four commands that are the same for all seeds, and 196 that are drawn.
#![tactic(auto)]

/// Numbers drawn one after another.
mod draws;

/// The text of a script.
mod script;

pub use script::generated_script;
