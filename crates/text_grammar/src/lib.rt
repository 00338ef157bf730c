//! What the parsers of commands, expressions and files share: classes of bytes, the prefixes of a text that they make, numbers,
//! the form of systems' names, and (in `specs/`) what it means that a text first breaks a grammar at a place.
#![tactic(auto)]

// the classes of bytes
mod class;
// the longest prefix of a text that is of one class
mod prefix;
// the numbers that digits denote, with a sign or without
mod numbers;
// the form of systems' names
mod systems;

pub use class::Class;
pub use numbers::{
    are_digits, begins_with, is_number, number_len, number_of, short_number, unsigned, value_within,
};
pub use prefix::{all_in, begins_in, prefix_len};
pub use systems::{LONGEST_SYSTEM, all_alphanumeric, is_direction, is_system};
