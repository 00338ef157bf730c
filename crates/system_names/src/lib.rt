//! The names of numeration systems: the direction and the kind of a built-in one, by its name, and the names of those
//! that users define.
#![tactic(auto)]

// a base, or the Fibonacci system
mod system_kind;
// the system of a name
mod naming;
// the names of users' systems
mod users;
// a name determines its system
mod laws;

pub use laws::{
    names_determine_systems, user_names_are_not_built_in, user_names_determine_systems,
};
pub use naming::{BuiltIn, GREATEST_BASE, LEAST_BASE, built_in};
pub use system_kind::SystemKind;
pub use users::{LONGEST_PART, UserName, adder_name, user_name};
