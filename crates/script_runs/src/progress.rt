//! A run that has begun.

ghost use Rattle.std.specs.Prelude.{◌≡◌, IfSome, Err};
ghost use Rattle.script_cut.specs.Cuts.{Item as CutItem};
ghost use Rattle.script_cut.specs.Kept.{fresh};
ghost use Rattle.script_runs.specs.Coming.{IsItem};
ghost use Rattle.script_runs.specs.Handing.{MayLoad};
ghost use Rattle.script_runs.specs.Tallies.{AddsResult, nothing};
ghost use Rattle.script_runs.specs.Taking.{HasReplied, Pays, OnlySpends, state};

use crate::answering::{Answering, Command};
use crate::coming::{Item, ItemText};
use crate::deed::Deed;
use crate::script_fault::ScriptFault;
use crate::tally::Tally;
use script_cut::Cutter;
use std::alloc::Global;
use wal_outside::Store;

/// What a run goes on with.
#[derive(Drop)]
pub(crate) struct Progress<A: Answering> {
    pub(crate) alloc: Global,
    pub(crate) answering: A,
    /// What was counted of the replies.
    pub(crate) tally: Tally,
    /// The script, with how many bytes of it and of files may still be read.
    pub(crate) script: Cutter,
}

impl<A: Answering> Progress<A> {
    /// A run that begins.
    pub(crate) fn new(alloc: Global, answering: A) -> Self
        ensures answering { result.answering ≡ answering }
        ensures tally { result.tally ≡ nothing }
        ensures script { result.script ≡ fresh }
    {
        Progress {
            alloc,
            answering,
            tally: Tally::new(),
            script: Cutter::new(alloc),
        }
    }

    /// Answers an item that is nested in so many loads, and counts the reply.
    ///
    /// # Errors
    /// Why it is refused.
    pub(crate) fn reply_to<T: Store>(
        &mut self,
        item: &Item,
        depth: usize,
        store: &mut T,
    ) -> Result<Deed, A::Refusal>
        ensures kept { self.new.answering ≡ self.old.answering }
        ensures spent { OnlySpends self.old.script self.new.script }
        ensures limit { item.now.text ≡ ItemText.Broken ScriptFault.PastLimit → result ≡ Err ((A.language self.old.answering).of_script ScriptFault.PastLimit) }
        ensures loads { MayLoad depth result }
        ensures counts { AddsResult (A.language self.old.answering) self.old.tally result self.new.tally }
        ensures reply { (cut : CutItem) → IsItem item.now cut → (ledger : (A.language self.old.answering).Ledger) → IfSome (T.view store.old).files ((A.language self.old.answering).stores ledger)
            → HasReplied (A.language self.old.answering) depth (state (A.language self.old.answering) ledger (T.view store.old) self.old.script.room) cut result (T.view store.new) self.new.script.room }
    {
        let reply = self.answer(item, depth, store);
        self.tally.count(&self.answering, &reply);
        reply
    }

    /// Answers an item that is nested in so many loads.
    fn answer<T: Store>(
        &mut self,
        item: &Item,
        depth: usize,
        store: &mut T,
    ) -> Result<Deed, A::Refusal>
        ensures kept { self.new.answering ≡ self.old.answering }
        ensures tally { self.new.tally ≡ self.old.tally }
        ensures spent { OnlySpends self.old.script self.new.script }
        ensures limit { item.now.text ≡ ItemText.Broken ScriptFault.PastLimit → result ≡ Err ((A.language self.old.answering).of_script ScriptFault.PastLimit) }
        ensures loads { MayLoad depth result }
        ensures reply { (cut : CutItem) → IsItem item.now cut → (ledger : (A.language self.old.answering).Ledger) → IfSome (T.view store.old).files ((A.language self.old.answering).stores ledger)
            → HasReplied (A.language self.old.answering) depth (state (A.language self.old.answering) ledger (T.view store.old) self.old.script.room) cut result (T.view store.new) self.new.script.room }
    {
        match &item.text {
            ItemText::Broken(fault) => Err(self.answering.refuse(*fault)),
            ItemText::Command(text, shown) => {
                let command = Command {
                    text,
                    shown: *shown,
                    depth,
                };
                let deed = self.answering.answer(self.alloc, &command, store)?;
                self.pay(deed)
            }
        }
    }

    /// Counts the bytes of a text that is loaded.
    ///
    /// # Errors
    /// That the limit is passed, and then they are not counted.
    fn pay(&mut self, deed: Deed) -> Result<Deed, A::Refusal>
        ensures kept { self.new.answering ≡ self.old.answering }
        ensures tally { self.new.tally ≡ self.old.tally }
        ensures spent { OnlySpends self.old.script self.new.script }
        ensures pays { Pays (A.language self.old.answering) self.old.script.room deed result self.new.script.room }
    {
        match deed {
            Deed::Loads(text) => {
                if self.script.spend(text.len() as u64) {
                    Ok(Deed::Loads(text))
                } else {
                    Err(self.answering.refuse(ScriptFault::PastLimit))
                }
            }
            other => Ok(other),
        }
    }
}
