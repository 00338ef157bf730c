//! Files of transducers, read: the transducer of a text, or the line of its first fault.
//!
//! A file has one set of letters; then for each state its number, and lines that say to which state a letter of the set, or `*`, leads
//! from it, and with which output. Lines, comments, blanks, numbers and sets are as in the files of automata
//! (`specs/Entries.antt`, `specs/Reading.antt`). By a letter a state has at most one result (`specs/Transducers.antt`).
#![tactic(auto)]

// numbers read from a file
mod read_numbers;
// lines of a file, and their parts
mod read_lines;
// the line of the set
mod read_set;
// the lines below it
mod read_entry;
// transducers
mod transducer;
// results of the state that was listed last, by letters
mod results;
// what was read of a file so far
mod draft;
// a file, read
mod reading;
// laws of the definitions
mod laws;

pub use laws::transducer_files_give_transducers;
pub use reading::read_transducer;
pub use transducer::{Transducer, TransducerLine};
