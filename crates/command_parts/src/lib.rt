//! What the commands of a session share.
//!
//! A command is answered by checks, one after another, and the first that refuses it decides (`specs/Checks.antt`). A check
//! answers what it finds, or a cause (`Refusal`, by families of causes). A store that fails at a file which a check reads, and
//! a call that is out of memory, refuse a command as well: with these two, `fault.rt` has all faults, and `lines.rt` their lines.
//! `specs/Accepting.antt` says what an accepted command stores or says, and `specs/FileChanges.antt` which text and which lines
//! that gives.
//!
//! A command that names automata or words begins with what it mentions (`mentioned_tables.rt`): the files are loaded, each once,
//! and the systems that they and the command mention are sealed, users' systems by the first steps. Then a relation or a word is
//! made of each table by steps (`table_reading.rt`). What the session keeps is taken instead where it was made of the same
//! (`kept.rt`): no contract mentions it.
//!
//! Contracts speak of some files that were found. These are the store's files where the store reports them
//! (`specs/StoreReads.antt`), so that a contract also holds over a store that reports nothing.
//!
//! A command takes the time and memory of the steps that it makes, and those are of the crates below. Costs are not proved.
#![tactic(auto)]

/// The systems of a word, by name.
pub mod word_systems;

/// What the text of a command is refused for.
pub mod text_refusal;

/// What a file or a script is refused for.
pub mod file_refusal;

/// What the systems of a command are refused for.
pub mod system_refusal;

/// What a step is refused for.
pub mod step_refusal;

/// What the automata and words that a command names are refused for.
pub mod shape_refusal;

/// What the letters and words that a command asks for are refused for.
pub mod word_refusal;

/// The causes of its own for which a command is refused.
pub mod refusal;

/// Why a command is refused, or fails from outside.
pub mod fault;

/// The lines of refused commands.
pub mod lines;

/// What a command prints.
pub mod printed;

/// What an accepted command leaves.
pub mod file_change;

/// What a session keeps from one command to the next.
pub mod kept;

/// The systems of users that a command names.
pub mod user_systems;

/// How steps are made and shown.
pub mod step_options;

/// The tables of the files that a command mentions, and what the names of their systems mean.
pub mod mentioned_tables;

/// The relations and the words of loaded tables.
pub mod table_reading;

/// The tracks of systems under names.
pub mod named_tracks;
