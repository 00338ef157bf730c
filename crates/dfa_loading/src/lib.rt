//! The automata and the words that a formula names, loaded from a store.
//!
//! `load` reads the files one after another, each once, and gives what each lists, or the first fault: a name under which
//! nothing is in the folder of its kind, a text that is too long, the first line that breaks the format, or a call of the
//! store that failed (`specs/Loading.antt`; one file, `specs/Places.antt`). `headers_of` gives what the loaded files are over,
//! as the resolution of a formula takes it.
#![tactic(auto)]

/// Why files are not loaded.
mod fault;

/// Where files are.
mod place;

/// The text of a file.
mod file_text;

/// What a file lists, beside the file and its text.
mod loaded;

/// One file, read.
mod reading;

/// The files of a formula, one after another.
mod loading;

/// What loaded files are over.
mod headers;

pub use fault::{FileFlaw, LoadFault};
pub use file_text::FileText;
pub use headers::headers_of;
pub use loaded::Loaded;
pub use loading::load;
