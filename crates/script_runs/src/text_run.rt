//! Runs over a text that is given whole.

ghost use Rattle.script_runs.specs.TextRuns.{HasRunText};

use crate::answering::Answering;
use crate::counts::Counts;
use crate::discarding::Discarding;
use crate::running::answer_script;
use crate::status::Status;
use std::alloc::{AllocError, Global};
use wal_outside::{Store, SureSource};

/// A run whose commands were all answered.
#[derive(Clone, Copy, PartialEq, Eq)]
pub struct TextRun {
    /// How it ended.
    pub status: Status,
    /// How many commands were answered, and how.
    pub counts: Counts,
}

/// Answers the commands of a text one after another, as `run_script` those of a script, hands nothing over, and counts the answers.
/// The run goes on to the text's end, or to a command that ends it.
///
/// The status is the first of these that applies: `Memory`; `Outside` where the store failed; `Refused`; `Done`.
///
/// # Errors
/// Out of memory outside a command: what was answered until then is.
pub fn run_text<A: Answering, T: Store>(
    alloc: Global,
    answering: A,
    text: Vec<u8>,
    store: &mut T,
) -> Result<TextRun, AllocError>
    ensures { HasRunText (A.language answering) text.items (T.view store.old) (T.view store.new) result }
{
    let mut source = SureSource::new(text);
    match answer_script(alloc, answering, &mut source, &mut Discarding, store) {
        Ok(tally) => Ok(TextRun {
            status: tally.status(),
            counts: tally.counts,
        }),
        // neither the source nor the sink fails
        Err(_) => Err(AllocError),
    }
}
