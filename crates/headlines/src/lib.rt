//! What may be quoted of the program: laws of its runs, each a call that does nothing and whose contract is the law.
//!
//! Each law but `names` follows from the clause of `session_cli::run` or from that of `session_cli::Session::command`,
//! and says a part of it by few definitions. `tools/believed --law NAME` lists what one rests on, and docs/MODEL.md has
//! how many these are.
//!
//! Of one command there are `verdicts` and `plain_verdicts`, `solutions`, `promotions`, `images`, `combinations`,
//! `transductions`, `conversions`, `languages`, `tests`, `infinities`, `own_systems`, `refused_systems` and `refusals`.
//! `run_verdicts`, `plain_run_verdicts`, `run_solutions`, `run_words`, `run_languages`, `run_listings` and
//! `run_systems` say so of each command of a run, from what there was at its place. `names` says what the names of a
//! formula mean, whatever runs.
//!
//! The premise of a law is the relation of the clause: `Commands`, or `HasRun` for `session_language`. Most laws
//! suppose that the store reports its files, and those on runs that the source reports the script. The two plain ones
//! suppose nothing of the store, and rest on truth, on the grammar and on how scripts are cut. A law says what follows
//! if a command is accepted, and not when it is; `refusals` says why one is refused.
//!
//! The calls cost the program nothing, as it does not make them. Not proved: what is not promised by the theorem
//! itself, as time, memory and what is outside (docs/MODEL.md).
#![tactic(auto)]

// what the verdict of a command says
mod verdict;
// the systems of numeration that a formula uses
mod own_system;
// what holds of a refused command
mod refusal;
// what the verdicts of a run say
mod run_verdict;
// what commands of a run store and print
mod run_file;
// what the file of a definition says
mod solution;
// what a name means
mod name;
// what the file of a word says
mod word;
// what the file of a language says
mod language;
// what is printed of the words of an automaton
mod listing;

pub use language::languages;
pub use listing::{infinities, tests};
pub use name::names;
pub use own_system::{own_systems, refused_systems};
pub use refusal::refusals;
pub use run_file::{run_languages, run_listings, run_solutions, run_systems, run_words};
pub use run_verdict::{plain_run_verdicts, run_verdicts};
pub use solution::solutions;
pub use verdict::{plain_verdicts, verdicts};
pub use word::{combinations, conversions, images, promotions, transductions};
