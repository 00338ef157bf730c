//! Automaton files, read back: what a file lists, from its bytes, or the line of its first fault.
//!
//! There are three formats: `read_relation` reads the file of a relation, `read_word` that of an automatic word, and
//! `read_system` the language or the adder of a user's system. Each gives a `Listed`: the header, the output of each
//! state, and the transitions. The contracts are equations with functions on bytes: `relation_of`
//! (`specs/Reading.antt`), `word_of` (`WordFiles`), `language_of` and `adder_of` (`SystemFiles`). `Listed::nfa` makes
//! the nondeterministic automaton, and `Listed::table` the deterministic one of a word's file.
//!
//! The number of a state is only its name in the file: `Listed` has its index, and the state that is listed first is
//! initial. In a relation's file the output 0 rejects, and every other accepts; in a word's file `-` is no letter. `*`
//! is each digit of its track. A header has only the names of systems: `nfa` and `table` are given how many digits each
//! has, and ignore a line with a digit outside its track. `read_word` does not ignore such lines: it refuses a line by
//! which, with those before it, one tuple leads from its state to two states. Targets are looked up last: a target that
//! is no state is reported only where each line has the format. A file that ends too early has its fault in the line
//! after its last.
//!
//! The time is in proportion to the bytes, with a look-up by hash for each number of a state, and in a word's file also
//! for each set of tracks on which lines of the state have `*`. That of `nfa` and `table` is in proportion to the
//! transitions, but for sorting them. Not proved: time and memory.
#![tactic(auto)]

// why a file is not read
mod fault;
// numbers read from a file
mod read_numbers;
// lines of a file, and their parts
mod read_lines;
// names of systems in a header
mod system_name;
// what the first line says of the tracks
mod header;
// headers read from a file
mod read_header;
// the outputs that a format has
mod outputs;
// the lines below a header
mod read_entries;
// what a file lists
mod listed;
// targets of transitions, by their digits but for stars
mod star_table;
// the transitions of one state
mod transitions;
// readers of a file's lines
mod line_reader;
// what was read of a file so far
mod draft;
// what was read of a word's file so far
mod word_draft;
// the files of a user's system
mod system_part;
// what was read of such a file so far
mod headed_draft;
// a file, read
mod reading;
// the letters by which a line leads
mod line_letters;
// the branching automaton of what a file lists
mod branching;
// the deterministic automaton of a functional list
mod listed_table;
// laws of the definitions
mod laws;

pub use fault::FileFault;
pub use header::FileHeader;
pub use laws::{
    adder_files_list_adders, branching_accepts_listed, language_files_list_languages,
    shared_tuples_are_taken, table_moves_along, word_files_list_words,
};
pub use listed::{Listed, ListedLine};
pub use reading::{read_relation, read_system, read_word};
pub use system_name::SystemName;
pub use system_part::SystemPart;
