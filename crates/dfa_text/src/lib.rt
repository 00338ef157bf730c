//! The texts of automata: the text that an automaton is printed as, and what it means, read again as a file.
//!
//! `print_relation` prints an automaton that accepts words, `print_word` one whose states have outputs. `print_within`
//! and `print_word_within` give None if and only if the text has more than `most` bytes. The contracts give the text
//! byte for byte (`relation_text` and `word_text` in `specs/RelationText.antt`): the header, and all states in order,
//! each with its output and a line for each letter that leads anywhere. `*` is not printed.
//!
//! Read again (`read_relation` and `read_word` of `dfa_reading`, exported here too), a text lists the automaton that it
//! was printed from (`text_lists_automaton`, `text_lists_word`). The automaton need not be canonical. But two canonical
//! ones with the same tracks and language have the same text, and over sets two automata with the same text have the
//! same language. So over sets, to compare the texts of canonical automata is to compare their languages.
//!
//! Where there are at least as many lines as letters, what the lines of each letter begin with is made once
//! (`LinePrefixes`), and its memory follows the letters. Memory for about the whole text is asked for at once
//! (`text_room`). Of a text that is too long no more is made than `most` bytes, the header, the lines of one state, and
//! those prefixes. Not proved: time and memory.
#![tactic(auto)]

// numbers and lists of numbers
mod numbers;
// the line of a header
mod header_text;
// the text of a tuple in a line
mod tuple_text;
// what the lines of letters begin with, made once for each letter
mod line_prefixes;
// room for the text of an automaton
mod text_room;
// the text of a deterministic automaton whose states have outputs
mod word_text;
// the text of a deterministic automaton that accepts words
mod relation_text;
// laws of the definitions
mod laws;

pub use dfa_reading::{FileFault, FileHeader, Listed, ListedLine, read_relation, read_word};
pub use laws::{
    equal_languages_have_equal_texts, equal_texts_have_equal_languages,
    equal_texts_have_equal_words, text_accepts_as_automaton, text_lists_automaton, text_lists_word,
};
pub use relation_text::{print_relation, print_within};
pub use word_text::{print_word, print_word_within};
