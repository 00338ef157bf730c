//! Runs over a script: its commands are answered one after another as they come, whatever commands they are.
//!
//! What answers them implements `Answering`, and its `CommandLanguage` (`specs/Languages.antt`) says how a command may
//! be answered, what it changes and what is printed. `run_script` has the commands of a source answered, hands over
//! what they print or the lines of their refusals, and gives a `Status`: `Run` in `specs/Runs.antt` says which commands
//! are answered, `HasRun` in `specs/Ends.antt` how it ends. `run_text` answers those of a text that is given whole,
//! hands nothing over, and counts the answers of each kind. Where commands have one answer, the store reports its
//! files, and neither store nor memory refuses a command, runs over one script end alike (`runs_end_alike` in
//! `proofs/OneRuns.antt`). A run over a script that ends after a terminator is the beginning of each run over a longer
//! one (`longer_runs`).
//!
//! A refused command does not end a run, unless its language says so (`ends_run`). The commands of a text that is
//! loaded come right after the command that loads it, at most eight loads deep (`LOAD_LIMIT`). The bytes of the script
//! and of loaded texts count together, so a run has at most one item more than bytes that may be read, and loads end
//! (`items_have_bytes`). The status is the first that applies: source or sink failed, memory, the store failed, a
//! refusal, none of these.
//!
//! At most 65,537 bytes of the script are held at once, and each text that is loaded while it runs. Not proved: time,
//! and how much memory is used.
#![tactic(auto)]

// how a run ended
mod status;
// why a text of a script is no command
mod script_fault;
// what an accepted command does
mod deed;
// what answers commands
mod answering;
// how many commands were answered, and how
mod counts;
// what was counted of the replies
mod tally;
// a reply and its line
mod handing;
// what comes next of a text
mod coming;
// what a run does after an item
mod flow;
// what a run goes on with
mod progress;
// the items of a script and of files, one after another
mod running;
// a sink that keeps nothing
mod discarding;
// runs over a text that is given whole
mod text_run;
// what holds of all runs
mod laws;

pub use answering::{Answering, Command};
pub use counts::Counts;
pub use deed::Deed;
pub use laws::{items_have_bytes, longer_runs};
pub use running::{LOAD_LIMIT, run_script};
pub use script_fault::ScriptFault;
pub use status::Status;
pub use text_run::{TextRun, run_text};
