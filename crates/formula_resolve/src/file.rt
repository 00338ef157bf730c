//! The files that a formula names.

use digit_tuple::name::Name;

/// A file that a formula names.
#[derive(Drop)]
pub enum File {
    /// The automaton of this name.
    Automaton(Name),
    /// The word of this name.
    Word(Name),
}
