//! Plans that are made of no others.

ghost use Rattle.std.specs.Prelude.{◌≡◌, map, IfOk};
ghost use Rattle.formula_parse.specs.Views.{relation_view};
ghost use Rattle.term_plans.specs.Plans.{compared, added, number, called, lettered, paired};
ghost use Rattle.term_plans.specs.Makings.{track_view};
ghost use Rattle.term_plans.specs.Planning.{Does, base_made, constant_made, step_made, tracks_in};

use crate::making::Making;
use crate::planner::{Placed, Planner};
use crate::track::Track;
use digit_tuple::faults::OutOfMemory;
use digit_tuple::name::Name;
use formula_parse::tree::Relation;
use std::alloc::Global;

/// A word, and the values at which it is read.
#[derive(Clone, Copy)]
pub struct Reading<'a> {
    /// The name of the word.
    pub word: &'a Name,
    /// Where the values of the indices are, in their order.
    pub places: &'a [Placed],
}

impl Planner {
    /// Two numbers of a system, compared.
    pub fn compared(
        &mut self,
        system: &Name,
        relation: Relation,
        first: &Track,
        second: &Track,
    ) -> Result<usize, OutOfMemory>
        ensures { IfOk result (λ place. Does self.old self.new place (base_made (compared system.now (relation_view relation) (track_view first.now) (track_view second.now)) self.old.next)) }
    {
        let system = system.copy(self.alloc)?;
        let first = first.copy(self.alloc)?;
        let second = second.copy(self.alloc)?;
        self.make(Making::Compared(system, relation, first, second))
    }

    /// The third number of a system is the sum of the others.
    pub fn added(
        &mut self,
        system: &Name,
        first: &Track,
        second: &Track,
        sum: &Track,
    ) -> Result<usize, OutOfMemory>
        ensures { IfOk result (λ place. Does self.old self.new place (base_made (added system.now (track_view first.now) (track_view second.now) (track_view sum.now)) self.old.next)) }
    {
        let system = system.copy(self.alloc)?;
        let first = first.copy(self.alloc)?;
        let second = second.copy(self.alloc)?;
        let sum = sum.copy(self.alloc)?;
        self.make(Making::Added(system, first, second, sum))
    }

    /// Any number of a system.
    pub fn any_number(&mut self, system: &Name, track: &Track) -> Result<usize, OutOfMemory>
        ensures { IfOk result (λ place. Does self.old self.new place (base_made (number system.now (track_view track.now)) self.old.next)) }
    {
        let system = system.copy(self.alloc)?;
        let track = track.copy(self.alloc)?;
        self.make(Making::Number(system, track))
    }

    /// By the step `const`: the number of a system.
    pub fn constant(
        &mut self,
        system: &Name,
        number: u64,
        track: &Track,
    ) -> Result<usize, OutOfMemory>
        ensures { IfOk result (λ place. Does self.old self.new place (constant_made system.now number (track_view track.now) self.old.next)) }
    {
        let system = system.copy(self.alloc)?;
        let track = track.copy(self.alloc)?;
        self.make(Making::Constant(system, number, track))
    }

    /// Of these values an automaton holds.
    pub fn called(&mut self, name: &Name, places: &[Placed]) -> Result<usize, OutOfMemory>
        ensures { IfOk result (λ place. Does self.old self.new place (base_made (called name.now (tracks_in places.now)) self.old.next)) }
    {
        let name = name.copy(self.alloc)?;
        let tracks = tracks_of(self.alloc, places)?;
        self.make(Making::Called(name, tracks))
    }

    /// The letter that is read, compared with a letter.
    pub fn lettered(
        &mut self,
        reading: Reading<'_>,
        relation: Relation,
        letter: i32,
    ) -> Result<usize, OutOfMemory>
        ensures { IfOk result (λ place. Does self.old self.new place (base_made (lettered reading.entry.word.now (tracks_in reading.entry.places.now) (relation_view relation) letter) self.old.next)) }
    {
        let word = reading.word.copy(self.alloc)?;
        let tracks = tracks_of(self.alloc, reading.places)?;
        self.make(Making::Lettered(word, tracks, relation, letter))
    }

    /// By the step `product`: the letters that are read, compared.
    pub fn paired(
        &mut self,
        first: Reading<'_>,
        relation: Relation,
        second: Reading<'_>,
    ) -> Result<usize, OutOfMemory>
        ensures { IfOk result (λ place. Does self.old self.new place (step_made (paired first.entry.word.now (tracks_in first.entry.places.now) (relation_view relation) second.entry.word.now (tracks_in second.entry.places.now)) self.old.next)) }
    {
        let word = first.word.copy(self.alloc)?;
        let tracks = tracks_of(self.alloc, first.places)?;
        let other = second.word.copy(self.alloc)?;
        let others = tracks_of(self.alloc, second.places)?;
        self.make(Making::Paired(word, tracks, relation, other, others))
    }
}

/// The tracks of values, in their order.
fn tracks_of(alloc: Global, placed: &[Placed]) -> Result<Vec<Track>, OutOfMemory>
    ensures { IfOk result (λ tracks. map track_view tracks.items ≡ tracks_in placed.now) }
{
    let mut tracks = Vec::new(alloc);
    for one in placed {
        let track = one.track.copy(alloc)?;
        tracks.push(track)?;
    }
    Ok(tracks)
}
