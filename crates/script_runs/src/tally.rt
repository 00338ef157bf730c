ghost use Rattle.std.specs.Prelude.{◌≡◌};
ghost use Rattle.script_runs.specs.Tallies.{AddsFault, AddsResult, nothing, tally_status};

use crate::answering::Answering;
use crate::counts::Counts;
use crate::deed::Deed;
use crate::status::Status;

/// Which kinds of refusals there were so far, and how many commands were answered.
#[derive(Clone, Copy)]
pub(crate) struct Tally {
    /// Some command was refused.
    pub(crate) refused: bool,
    /// By the store.
    pub(crate) store: bool,
    /// Because memory ran out.
    pub(crate) memory: bool,
    pub(crate) counts: Counts,
}

impl Tally {
    /// None so far.
    pub(crate) fn new() -> Self
        ensures { result ≡ nothing }
    {
        Tally {
            refused: false,
            store: false,
            memory: false,
            counts: Counts::none(),
        }
    }

    /// With one refusal more.
    pub(crate) fn with<A: Answering>(self, answering: &A, refusal: &A::Refusal) -> Self
        ensures fault { AddsFault (A.language answering.now) self refusal.now result }
        ensures counts { result.counts ≡ self.counts }
    {
        let store = answering.is_by_store(refusal);
        let memory = answering.is_by_memory(refusal);
        Tally {
            refused: true,
            store: self.store || store,
            memory: self.memory || memory,
            counts: self.counts,
        }
    }

    /// Counts a reply.
    pub(crate) fn count<A: Answering>(&mut self, answering: &A, reply: &Result<Deed, A::Refusal>)
        ensures { AddsResult (A.language answering.now) self.old reply.now self.new }
    {
        self.counts = self.counts.with(reply);
        if let Err(refusal) = reply {
            *self = self.with(answering, refusal);
        }
    }

    /// How a run ends whose commands were all answered.
    pub(crate) fn status(self) -> Status
        ensures { result ≡ tally_status self }
    {
        if self.memory {
            Status::Memory
        } else if self.store {
            Status::Outside
        } else if self.refused {
            Status::Refused
        } else {
            Status::Done
        }
    }
}
