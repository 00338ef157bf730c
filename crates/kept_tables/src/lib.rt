//! What the tables of files made before, kept so that it is not made again.
//!
//! A session reads the file of an automaton or a word at each command that names it. `KeptTables` keeps the relation or the word
//! that the table's steps made, with the lines of these steps, beside the name of the file, the text, the limit and the systems of
//! the tracks. It is used where all of these are the same: the steps are then not done, but their lines are added, so that
//! no answer and no line differs (`specs/KeptTables.antt`). Systems are the same if they have the same digits, direction and
//! language. Only what was made is kept, never a refusal. At most 256 are kept, the first ones; out of memory keeps nothing.
#![tactic(auto)]

// what a relation or a word was made of
mod source;
// whether systems are the same
mod same_systems;
// the relations and words
mod kept_tables;

pub use kept_tables::KeptTables;
