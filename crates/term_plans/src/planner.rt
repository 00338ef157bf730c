//! Plans made one after another, fresh tracks, and values closed.

ghost use Rattle.std.specs.Prelude.{◌≡◌, ℕ, ◌+◌, ◌<◌, length, IfOk};
ghost use Rattle.term_plans.specs.Makings.{track_view, plan_at, IsOf};
ghost use Rattle.term_plans.specs.Planning.{Does, made_by, linked_at, IsWithin, placed_at, closed_made, AreWithin, places_at, closed_all_made};

use crate::list::PlanList;
use crate::making::Making;
use crate::track::Track;
use digit_tuple::faults::OutOfMemory;
use formula_parse::tree::Connective;
use std::alloc::Global;

/// The plans made so far, and the number of the next fresh track.
#[derive(Drop)]
pub struct Planner {
    /// Where memory is taken from.
    pub alloc: Global,
    /// The plans made so far.
    pub plans: PlanList,
    /// The number of the next fresh track.
    pub next: u64,
}

/// Where the value of a term is: its track, and where that is fresh, the place of its relation.
#[derive(Drop)]
pub struct Placed {
    /// The track on which the value is.
    pub track: Track,
    /// The place of the relation of a value that is on a fresh track.
    pub relation: Option<usize>,
}

impl Planner {
    /// One plan more.
    pub fn make(&mut self, making: Making) -> Result<usize, OutOfMemory>
        requires { IsOf (length self.old.plans) making }
        ensures { IfOk result (λ place. Does self.old self.new place (made_by self.old making)) }
    {
        self.plans.push(making)
    }

    /// The number of a fresh track. There are never 2^64 of them, since plans name each, and memory
    /// ends before.
    pub fn fresh(&mut self) -> Result<u64, OutOfMemory>
        ensures { IfOk result (λ number. (number ≡ self.old.next) × (self.new.next ≡ self.old.next + 1) × (self.new.plans ≡ self.old.plans)) }
    {
        let number = self.next;
        match number.checked_add(1) {
            Some(next) => {
                self.next = next;
                Ok(number)
            }
            None => Err(OutOfMemory),
        }
    }

    /// The number of the next fresh track.
    pub fn next_fresh(&self) -> u64
        ensures { result ≡ self.now.next }
    {
        self.next
    }

    /// A relation and a base joined on a track, which is projected then.
    pub fn link(
        &mut self,
        relation: usize,
        base: usize,
        track: &Track,
    ) -> Result<usize, OutOfMemory>
        requires relation { relation < length self.old.plans }
        requires base { base < length self.old.plans }
        ensures { IfOk result (λ place. Does self.old self.new place (linked_at (plan_at self.old.plans relation) (plan_at self.old.plans base) (track_view track.now) self.old.next)) }
    {
        let joined = self.make(Making::Joined(Connective::And, relation, base))?;
        let track = track.copy(self.alloc)?;
        self.make(Making::Projected(track, joined))
    }

    /// A base with a value's track closed.
    pub fn close(&mut self, placed: &Placed, base: usize) -> Result<usize, OutOfMemory>
        requires base { base < length self.old.plans }
        requires placed { IsWithin self.old.plans placed.now.relation }
        ensures { IfOk result (λ place. Does self.old self.new place (closed_made self.old.next (placed_at self.old.plans placed.now) (plan_at self.old.plans base))) }
    {
        match placed.relation {
            None => Ok(base),
            Some(relation) => self.link(relation, base, &placed.track),
        }
    }

    /// A base with the tracks of several values closed, the first first.
    pub fn close_all(&mut self, placed: &[Placed], base: usize) -> Result<usize, OutOfMemory>
        requires base { base < length self.old.plans }
        requires placed { AreWithin self.old.plans placed.now }
        ensures { IfOk result (λ place. Does self.old self.new place (closed_all_made self.old.next (places_at self.old.plans placed.now) (plan_at self.old.plans base))) }
    {
        let mut closed = base;
        for one in placed {
            closed = self.close(one, closed)?;
        }
        Ok(closed)
    }
}
