//! Steps on canonical automata: each is done as the next one under a limit on its width, with its
//! line, or is refused with its number, and then the steps are as before.
#![tactic(auto)]

/// The step `read`.
pub mod read_step;

/// The step `reverse`.
pub mod reverse_step;

/// The step `pad`.
pub mod pad_step;

/// The step `valid`.
pub mod valid_step;

/// The step `product`.
pub mod join_step;

/// The step `complement`.
pub mod complement_step;

/// The step `project`.
pub mod project_step;

/// The step `order`.
pub mod order_step;

/// Automata whose tracks are named by their numbers.
pub mod numbered;

/// Laws of the definitions.
pub mod laws;
