//! Plans as data: how each relation is made of others, and the plans of terms.
//!
//! A plan (`Plan` in `specs/Plans.antt`) is stored by its `Making` of earlier ones in a `PlanList`, and `specs/Means.antt`
//! says what it means, without any automaton. A `Planner` adds plans to such a list. `term` adds those of a term, and
//! `arguments` those of several terms: `term_plan` in `specs/TermPlans.antt`, `argument_plans` in
//! `specs/ArgumentPlans.antt`.
//!
//! The value of a term is on a track: a variable's own, or a fresh one, which is projected once the term's relation is
//! joined to the one that uses it. A multiple is made by doubling. `x-y=z` is made as `y+z=x`, so below zero there is
//! no `z`. Each term is planned by itself, so a term that occurs twice is made twice.
//!
//! A call that runs out of memory may leave some of its plans in the list.
//!
//! A plan takes time and memory in proportion to the length of its term. Calls go no deeper than the nesting of the
//! term, and 128 deep for the multiples of a number. Not proved: these costs.
#![tactic(auto)]

// the tracks of what is made
mod track;

// how one relation is made of others
mod making;

// plans in a list
mod list;

// plans made one after another, fresh tracks, and values closed
mod planner;

// plans that are made of no others
mod bases;

// numbers, their multiples and their quotients
mod multiples;

// terms
mod terms;

/// Plans of several terms: arguments, or indices.
pub mod arguments;

pub use bases::Reading;
pub use list::PlanList;
pub use making::Making;
pub use planner::{Placed, Planner};
pub use terms::{other_factor, term};
pub use track::Track;
