//! The items of a script in turn, and of the files that it loads.

ghost use Rattle.std.specs.Prelude.{◌≡◌, ◌≢◌, ◌<◌, ◌≤◌, IfSome};
ghost use Rattle.script_cut.specs.Cuts.{Item as CutItem, Rest};
ghost use Rattle.script_runs.specs.Coming.{IsItem};
ghost use Rattle.script_runs.specs.Ends.{HasRun};
ghost use Rattle.script_runs.specs.Flows.{flow_after};
ghost use Rattle.script_runs.specs.declared.coming.ItemText.TheVariants as texts;
ghost use Rattle.script_runs.specs.declared.script_fault.ScriptFault.TheVariants as script;
ghost use Rattle.script_runs.specs.Taking.{TakesItem, TakesText, OnlySpends, HasAnswered, state};

use crate::answering::Answering;
use crate::coming::{Coming, Item, coming_of};
use crate::deed::Deed;
use crate::flow::Flow;
use crate::handing::{hand_over, stop_status};
use crate::progress::Progress;
use crate::status::Status;
use crate::tally::Tally;
use script_cut::Cutter;
use std::alloc::Global;
use wal_outside::{Sink, Source, Store, SureSource};

/// In how many loads a command may be nested.
pub const LOAD_LIMIT: usize = 8;

/// Answers the commands of a script one after another, each as its terminator comes, and hands over what they print, or the lines of
/// the refused ones. Where a command loads a text, the commands of that come before those after it. The run goes on to the script's
/// end, or to a command that ends it. At most 65,537 bytes of the script are held at once, and each text that is loaded while it runs.
///
/// The status is the first of these that applies: `Outside` where source or sink failed; `Memory`; `Outside` where the store failed;
/// `Refused`; `Done`. A source or sink that fails, and out of memory outside a command, end the run: what was answered until then is.
/// Where the source failed, that is each command whose terminator it gave. A call that failed is not made again. The bytes of the
/// script and of the texts that are loaded count together: at most one byte past the first 16,777,216 is read.
pub fn run_script<A: Answering, S: Source, K: Sink, T: Store>(
    alloc: Global,
    answering: A,
    script: &mut S,
    out: &mut K,
    store: &mut T,
) -> Status
    ensures { HasRun (A.language answering) (S.view script.old) (S.view script.new) (T.view store.old) (T.view store.new) (K.view out.old) (K.view out.new) result }
{
    match answer_script(alloc, answering, script, out, store) {
        Ok(tally) => tally.status(),
        Err(status) => status,
    }
}

/// Answers the commands of a script, as `run_script` does, and gives what was counted once they are all answered.
///
/// # Errors
/// The status of a run that was ended by source or sink, or because memory ran out outside a command.
pub(crate) fn answer_script<A: Answering, S: Source, K: Sink, T: Store>(
    alloc: Global,
    answering: A,
    script: &mut S,
    out: &mut K,
    store: &mut T,
) -> Result<Tally, Status>
    ensures { HasAnswered (A.language answering) (S.view script.old) (S.view script.new) (T.view store.old) (T.view store.new) (K.view out.old) (K.view out.new) result }
{
    let mut progress = Progress::new(alloc, answering);
    'items: loop {
        match coming_of(progress.script.cut(script)) {
            Coming::Item(item) => match answer_item(&mut progress, &item, 0, out, store) {
                Flow::GoesOn => {}
                Flow::Ends => return Ok(progress.tally),
                Flow::Stopped(fault) => return Err(stop_status(fault)),
                Flow::WantsMemory => return Err(Status::Memory),
            },
            Coming::End => return Ok(progress.tally),
            Coming::Failed => return Err(Status::Outside),
            Coming::Memory => return Err(Status::Memory),
        }
    }
}

/// Answers an item that is nested in so many loads, and those of the text that it loads.
#[cycle(loads)]
fn answer_item<A: Answering, K: Sink, T: Store>(
    progress: &mut Progress<A>,
    item: &Item,
    depth: usize,
    out: &mut K,
    store: &mut T,
) -> Flow
    requires { depth ≤ 8 }
    ensures kept { progress.new.answering ≡ progress.old.answering }
    ensures spent { OnlySpends progress.old.script progress.new.script }
    ensures limit { item.now.text ≡ texts.Broken script.PastLimit → result ≢ Flow.GoesOn }
    ensures takes { (cut : CutItem) → IsItem item.now cut → (ledger : (A.language progress.old.answering).Ledger) → IfSome (T.view store.old).files ((A.language progress.old.answering).stores ledger)
        → (after : (A.language progress.old.answering).Ledger) × TakesItem (A.language progress.old.answering) depth (state (A.language progress.old.answering) ledger (T.view store.old) progress.old.script.room) cut (K.view out.old) progress.old.tally result
        (state (A.language progress.old.answering) after (T.view store.new) progress.new.script.room) (K.view out.new) progress.new.tally }
{
    let reply = progress.reply_to(item, depth, store);
    match hand_over(out, item.line, &progress.answering, &reply) {
        Ok(()) => {}
        Err(fault) => return Flow::Stopped(fault),
    }
    match reply {
        Ok(Deed::Enters(_printed)) => Flow::GoesOn,
        Ok(Deed::Loads(text)) => answer_text(progress, text, depth + 1, out, store),
        Ok(Deed::Ends) => Flow::Ends,
        Err(refusal) => flow_of_refusal(&progress.answering, refusal),
    }
}

/// Whether the run goes on after a command that is refused.
fn flow_of_refusal<A: Answering>(answering: &A, refusal: A::Refusal) -> Flow
    ensures { result ≡ flow_after (A.language answering.now) refusal }
{
    if answering.ends_run(&refusal) {
        Flow::Ends
    } else {
        Flow::GoesOn
    }
}

/// Answers the items of a text that was loaded and is nested in so many loads.
#[cycle(loads)]
fn answer_text<A: Answering, K: Sink, T: Store>(
    progress: &mut Progress<A>,
    text: Vec<u8>,
    depth: usize,
    out: &mut K,
    store: &mut T,
) -> Flow
    requires some { 0 < depth }
    requires few { depth ≤ 8 }
    ensures kept { progress.new.answering ≡ progress.old.answering }
    ensures spent { OnlySpends progress.old.script progress.new.script }
    ensures takes { (ledger : (A.language progress.old.answering).Ledger) → IfSome (T.view store.old).files ((A.language progress.old.answering).stores ledger)
        → (after : (A.language progress.old.answering).Ledger) × (end : Rest) × TakesText (A.language progress.old.answering) depth (state (A.language progress.old.answering) ledger (T.view store.old) progress.old.script.room) text.items (K.view out.old) progress.old.tally result
        end (state (A.language progress.old.answering) after (T.view store.new) progress.new.script.room) (K.view out.new) progress.new.tally }
{
    let mut source = SureSource::new(text);
    let mut cutter = Cutter::new(progress.alloc);
    'items: loop {
        match coming_of(cutter.cut(&mut source)) {
            Coming::Item(item) => match answer_item(progress, &item, depth, out, store) {
                Flow::GoesOn => {}
                flow => return flow,
            },
            Coming::End => return Flow::GoesOn,
            // a `SureSource` never fails
            Coming::Failed | Coming::Memory => return Flow::WantsMemory,
        }
    }
}
