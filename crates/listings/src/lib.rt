//! The words that `test` lists, as text: a place in the list is found on tracks, and the words after it are printed, a
//! line for each.
//!
//! A word is written letter by letter, `[d1,..,dm]` with a digit for each track, and the empty word as `[]`, as a place is.
#![tactic(auto)]

// places on tracks
mod tracks;
// lines of words
mod word_line;
// faults of lines
mod line_fault;
// the lines of the next words of a walk
mod listed_lines;
// laws of the definitions
pub mod laws;

pub use line_fault::LineFault;
pub use listed_lines::{Bounds, next_lines};
pub use tracks::word_of;
pub use word_line::push_line;
