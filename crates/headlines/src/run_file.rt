//! What commands of a run store and print.

ghost use Rattle.headlines.specs.RunFiles.{RunLanguages, RunListings, RunSolutions, RunSystems, RunWords};

/// In a run each accepted `def` stores such a file as `solutions` says, from what the ledger and the files were at its place.
pub fn run_solutions()
    ensures { RunSolutions }
{}

/// In a run each accepted command that makes a word stores such a file as the laws of words say.
pub fn run_words()
    ensures { RunWords }
{}

/// In a run each accepted language command stores such a file as `languages` says.
pub fn run_languages()
    ensures { RunLanguages }
{}

/// In a run each accepted `test` and `inf` prints what `tests` and `infinities` say.
pub fn run_listings()
    ensures { RunListings }
{}

/// In a run each accepted `eval` and `def` uses systems as `own_systems` says.
pub fn run_systems()
    ensures { RunSystems }
{}
