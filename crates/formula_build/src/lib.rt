//! Formulas decided by automata: the relation of a formula, made by the steps of its plan.
//!
//! `resolve` gives the free variables of a formula with their systems, and its plan, or the formula's one fault
//! (`formula_resolve::resolve`, `formula_plan::plan`). `build` makes the relations of the plan by `plan_relations`
//! (`BuildsFormula` in `specs/Solutions.antt`), of sealed systems and of the relations and words of a `Library`. The
//! result holds of the numbers for which the formula is true (`IsSolution` there). Its tracks are the free variables in
//! byte order, each over its system; a sentence has none. `Letters` and `States` come exactly at the first step that
//! passes a limit. `formulas_hold` says what the plan of a formula makes, and `one_building` that it is determined.
//!
//! This is Büchi's decision procedure, as in Bruyère, Hansel, Michaux and Villemaire, "Logic and p-recognizable sets of
//! integers": a connective becomes a product, a negation a complement, an existential quantifier a projection.
//!
//! `resolve` takes the time and memory of the two functions that it calls. Not proved: time and memory.
#![tactic(auto)]

/// Relations with their tracks in order.
mod ordering;

/// What the names of a formula are over.
mod names;

/// Formulas resolved.
mod resolving;

/// Formulas built.
mod building;

/// Laws of what the plans of formulas make.
mod laws;

pub use building::build;
pub use laws::{formulas_hold, one_building};
pub use names::Names;
pub use resolving::{Resolved, resolve};
