//! Laws of the definitions, each a call that does nothing.
ghost use Rattle.session_cli.specs.Laws.{OneOutcome, OneRun, StoreFaultsCounted};
ghost use Rattle.session_cli.specs.LongerScripts.{LongerCalls, SessionsBeginWithPrefixes};

/// A command has at most one proper outcome.
pub fn one_outcome()
    ensures { OneOutcome }
{}

/// Where the store reports its files and a run ends with `Done` or `Refused`, what it printed, the store's files and the status are a function of
/// the script and of the files at the beginning.
pub fn one_run()
    ensures { OneRun }
{}

/// At most as many commands are refused by the store as its count of faults rose, unless that is at its last value.
pub fn store_faults_counted()
    ensures { StoreFaultsCounted }
{}

/// A run over a script that ends after a terminator is the beginning of the run over each longer script. Where the store reports its files and
/// both runs end with `Done` or `Refused`, the second answers the commands of the script as the first, prints what the first printed and then
/// the rest, and goes on from the files that the first left; after an `exit` there is no rest. However it ends, a run over the longer script is
/// one over the script and then one over the rest.
pub fn longer_runs()
    ensures alike { LongerCalls }
    ensures begin { SessionsBeginWithPrefixes }
{}
