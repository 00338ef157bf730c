//! Numeration systems of users: a system's files are read, admitted step by step, and sealed.
#![tactic(auto)]

/// Why there is no system of a name.
mod system_fault;

/// The files of a system, admitted.
mod admission;

/// The files of a system, as their texts are.
mod pair;

/// Systems that are kept, each beside its files.
mod kept;

/// The system of a name, read, admitted and sealed.
mod named_system;

/// The systems of users among some names.
mod user_systems;

/// Laws of the definitions.
mod laws;

pub use admission::admit_files;
pub use kept::KeptSystems;
pub use laws::{admissions_add_steps, admissions_have_one_outcome, admitted_systems_are_meant};
pub use named_system::admit_system;
pub use system_fault::SystemFault;
pub use user_systems::{UserSystems, names_once};
