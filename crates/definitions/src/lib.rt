//! Definitions: what a stored file means, what a definition holds of, and the text that stores it.
//!
//! A definition (`Tree` in `specs/Trees.antt`) is the bytes of a file, an expression over tracks, a formula with the
//! definitions that its names mean, a word that a command makes, or a language that an operation makes of others.
//! `tree_holds` (`specs/TreeMeanings.antt`) says of which numbers it holds, `tree_words` which words over sets it has,
//! `tree_letter` which letter it has at a position as a word, and `HasText` (`specs/Texts.antt`) which text stores it. The text
//! of a definition, read as a file, holds of what the definition holds of, accepts the words that it has, and has its
//! letters, so that a command means the same under the definitions of names and under the files that store them. Among
//! users' systems are files alone, and among words files and words that commands make. `IsListedOver` (`specs/Listings.antt`)
//! says which words a definition lists, one for each tuple of numbers of which it holds. `IsSystemNamed`
//! (`specs/Named.antt`) says which system a name means: one that is built in, or the one that the files of a user define.
//!
//! Meanings are recursive functions on definitions, down to files. They take the texts of users' systems (`Custom`),
//! since a name of a system means what its files say. A definition has at most one text (`one_text`).
//!
//! Only `table_relation` does something: by the steps `read`, `pad` and `valid` it makes the relation of what a file
//! lists. Its costs are those of the steps, and of the branching automaton of the table. All other functions are laws,
//! calls that do nothing. Not proved: time and memory.
#![tactic(auto)]

/// Laws of definitions.
mod laws;

/// Laws of the words that definitions list.
mod listings;

/// The relation of what a file lists.
mod table;

/// Laws of words that are read of files.
mod words;

pub use laws::{
    bindings_matter_by_meaning, custom_texts_are_files, files_bind_as_their_ledger,
    language_texts_mean_their_trees, one_text, texts_mean_their_trees, word_texts_mean_their_trees,
};
pub use listings::{
    automata_list_their_words, relations_list_shortest_words, sentences_list_the_empty_word,
    texts_list_as_their_trees,
};
pub use table::{files_are_tables, table_relation, tables_have_one_answer, tables_hold};
pub use words::{files_are_words, words_have_file_letters};
