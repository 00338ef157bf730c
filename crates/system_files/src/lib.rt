//! The numeration systems that users define by files: the two files of a system, loaded from a store.
#![tactic(auto)]

// what the files of a system list
mod files;
// the texts that were read so far
mod texts;
// texts looked up by their names
mod looking;
// the language that a name takes
mod taking;
// the files of a system, read
mod reading;
// and loaded
mod loading;
// a name takes one pair, and means one system
mod laws;

pub use files::SystemFiles;
pub use laws::{names_mean_one_system, names_take_one_pair};
pub use loading::load_system;
pub use reading::{find_adder, find_language};
pub use texts::{Finding, FoundText, SystemTexts};
