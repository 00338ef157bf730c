//! Laws of the definitions, each a call that does nothing.

ghost use Rattle.script_runs.specs.Laws.{ItemsHaveBytes};
ghost use Rattle.script_runs.specs.Prefixes.{RunsBeginWithPrefixes, RunsGoOn, EndedRunsStay, RunsBeginAlike};

use crate::answering::Answering;

/// Each item of a run has a byte that counted towards the limit, and that no other item has; but the last one may be past the limit. So a run
/// has at most one item more than bytes that may be read, and loads end.
pub fn items_have_bytes<A: Answering>(_answering: &A)
    ensures { ItemsHaveBytes (A.language _answering.now) }
{}

/// A run over a script that ends after a terminator is the beginning of a run over each longer script, and each run over a longer script begins
/// with one: with the same turns, the same state after them, and the same text printed first. A run that ended in the shorter script is the
/// whole run over each longer one. So it is for all runs, however they end and whatever the store does.
///
/// Where the store reports its files and neither the store nor memory refuses a command, both scripts have one run from the same files, and
/// the turns of the one are the beginning of those of the other.
pub fn longer_runs<A: Answering>(_answering: &A)
    ensures begin { RunsBeginWithPrefixes (A.language _answering.now) }
    ensures go_on { RunsGoOn (A.language _answering.now) }
    ensures ended { EndedRunsStay (A.language _answering.now) }
    ensures alike { RunsBeginAlike (A.language _answering.now) }
{}
