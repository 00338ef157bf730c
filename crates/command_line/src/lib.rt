//! The words of the command line, read as the program's one `clap` command takes them.
#![tactic(auto)]

/// Numbers in decimal digits.
mod numbers;
/// What the words give.
mod options;
/// What the words name.
mod words;

pub use options::{Options, options_of};
pub use words::WordsFault;
