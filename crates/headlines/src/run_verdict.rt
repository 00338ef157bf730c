//! What `TRUE` and `FALSE` say, of all commands of a run over a script.

ghost use Rattle.headlines.specs.RunVerdicts.{PlainRunVerdicts, RunVerdicts};

/// In a run each verdict says truth of the text of its own command, and is in what was printed at the place of that command. Names mean
/// what commands before made of them, and else what the store's files had at the beginning.
pub fn run_verdicts()
    ensures { RunVerdicts }
{}

/// The same of sentences without names, whatever the store reports. What it says rests on truth, on the grammar and on how scripts are cut alone.
pub fn plain_run_verdicts()
    ensures { PlainRunVerdicts }
{}
