//! Sessions: the commands of a script are answered one after another as they come, and each accepted one stores its text.
//!
//! `run` (`whole.rt`) is the whole program over a source, a sink and a store; its contract is the theorem. It reads the words of
//! the command line, and runs over a script (`script_runs`), or over the generated script of a seed (`making.rt`). A `Session`
//! (`session.rt`) answers one command: `actions.rt` finds its first word and what it is to store or to print,
//! by the crate of its family (`formula_commands`, `word_commands`, `language_commands`, `listing_commands`), or here for `macro`
//! and `morphism` (`texts.rt`); then its text is written. `answering.rt` has a session answer the commands of a run, those of
//! loaded files among them (`loading.rt`).
//!
//! `specs/Outcomes.antt` has the checks of every command, and `laws.rt` says that they have one answer at most. No law says
//! that there is one other than out of memory.
//!
//! A text that is written is the last thing that can be refused: nothing grows after it. What a session keeps from one command to
//! the next changes no answer, and no contract mentions it but by the limit.
#![tactic(auto)]

// the commands `macro` and `morphism`
mod texts;
// the commands by their words, and what each stores and prints
mod actions;
// one command
mod session;
// the words of commands that load a file or end a run
mod run_word;
// the text that a command loads
mod loading;
// the commands of a script, answered by a session
mod answering;
// runs of the generated script of a seed
mod making;
// the whole call
mod whole;
// what holds of all runs
mod laws;

pub use adder_check::admit_fault::Law;
pub use command_parts::fault::Fault;
pub use command_parts::file_refusal::FileRefusal;
pub use command_parts::printed::Printed;
pub use command_parts::refusal::Refusal;
pub use command_parts::shape_refusal::ShapeRefusal;
pub use command_parts::step_refusal::StepRefusal;
pub use command_parts::system_refusal::SystemRefusal;
pub use command_parts::text_refusal::{Grammar, TextRefusal};
pub use command_parts::word_refusal::WordRefusal;
pub use command_parts::word_systems::WordSystems;
pub use dfa_loading::FileFlaw;
pub use laws::{one_outcome, one_run, store_faults_counted};
pub use script_runs::Status;
pub use session::Session;
pub use whole::{Program, run};
