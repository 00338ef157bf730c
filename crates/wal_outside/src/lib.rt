//! The outside: where a script comes from, where answers go, and where texts are stored.
//!
//! Everything above reads, prints and stores through three traits. Each has a count of faults, so that an answer
//! `Failed` has a cause, and says what it holds where it can be reported.
#![tactic(auto)]

// The traits.
mod folder;
mod sink;
mod source;
mod store;
// Whole pieces for a sink.
mod sending;
// The objects in memory.
mod mem_sink;
mod mem_source;
mod mem_store;
// What they are made of: calls that are to fail, lengths of pieces, and texts by folder and name.
mod pieces;
mod schedule;
mod shelf;
// The adapters over std.
mod folder_store;
mod std_sink;
mod std_source;

pub use folder::Folder;
pub use folder_store::FolderStore;
pub use mem_sink::{MemSink, SureSink};
pub use mem_source::{MemSource, SureSource};
pub use mem_store::{FailedCall, MemStore, SureStore};
pub use sending::{send, send_four, send_two};
pub use sink::{Sink, WriteFault};
pub use source::{Failed, Source};
pub use std_sink::StdSink;
pub use std_source::StdSource;
pub use store::{Found, Store, TEXT_LIMIT};
