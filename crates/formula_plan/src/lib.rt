//! The steps by which a formula is decided, as data: a plan says how each relation is made of others.
//!
//! `plan` gives a list of plans (`term_plans::PlanList`), and the place of the one that the formula has. `specs/` has the
//! plan of a formula (`plan_of` in `specs/FormulaPlans.antt`). What is made at last holds of the numbers for which the
//! formula is true (`plans_mean`). This needs that the parts are decided, as they are by automata, and that products are
//! linear, as they are in each formula that is read (`trees_are_linear`).
//!
//! Terms have their plans by `term_plans`. A difference below zero has no value, and the atom is false. `A` is a
//! complement, projections and a complement. `I` says that there is no bound above which there is no such number. A
//! quantified variable that is not free in its formula is left out. An equation of a variable and another term takes no
//! comparison: the term's track gets the variable's name.
//!
//! `plan` takes time in proportion to the length of the formula times its nesting times the logarithm of the number of
//! its variables, and memory in proportion to the length times the nesting. Calls go no deeper than the nesting, and
//! 128 deep for the multiples of a number. Not proved: these costs. A plan need not be the shortest, and how many
//! states its steps make is not asked.
#![tactic(auto)]

// two terms compared
mod comparisons;

// what atoms say
mod facts;

// free variables as an ordered set
mod free_names;

// the free variables of atoms
mod names;

// the products of a chain
mod chains;

// quantified variables projected
mod quantifiers;

// formulas
mod formulas;

// the plan of a formula
mod planning;

/// Laws of plans.
pub mod laws;

pub use planning::{FormulaPlan, plan};
