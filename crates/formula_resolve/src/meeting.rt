//! The systems that are met in the operands of a chain, operand by operand, the free variables of each
//! in byte order.

ghost use Rattle.std.specs.Prelude.{◌≡◌, None, Some, IfOk};
ghost use Rattle.std.specs.Option.{option_copied, option_or};
ghost use Rattle.formula_resolve.specs.Occurrences.{free_of};
ghost use Rattle.formula_resolve.specs.Directions.{lesser as lesser_of, least as least_of, conflict_between};
ghost use Rattle.formula_resolve.specs.Meetings.{away_from, counts as counts_of, met_in, other_in, IsMet};

use crate::direction::{Conflict, is_other_direction};
use crate::occurrence::Occurrence;
use digit_tuple::faults::OutOfMemory;
use digit_tuple::name::Name;
use std::alloc::Global;
use std::cmp::Ordering;

/// The system that is met first, and the first of the other direction after it.
#[derive(Drop)]
pub(crate) struct Meeting {
    pub first: Option<Name>,
    pub other: Option<Name>,
}

impl Meeting {
    /// No system is met.
    pub fn new() -> Meeting
        ensures first { result.first ≡ None }
        ensures other { result.other ≡ None }
    {
        Meeting {
            first: None,
            other: None,
        }
    }

    /// After one part more, of which these are the occurrences and its first quantifier has this
    /// number.
    pub fn met(
        self,
        alloc: Global,
        occurrences: &[Occurrence],
        next: u64,
    ) -> Result<Meeting, OutOfMemory>
        ensures { IfOk result (λ m. IsMet self (free_of next occurrences.now) m) }
    {
        let Meeting { first, other } = self;
        let first = first_met(alloc, first, occurrences, next)?;
        let other = other_met(alloc, other, first.as_ref(), occurrences, next)?;
        Ok(Meeting { first, other })
    }

    /// The two systems, where two are met.
    pub fn conflict(self) -> Option<Conflict>
        ensures { result ≡ conflict_between self.first self.other }
    {
        match (self.first, self.other) {
            (Some(first), Some(other)) => Some(Conflict { first, other }),
            _ => None,
        }
    }
}

/// The system that was met before, else the one that is met first in a part.
fn first_met(
    alloc: Global,
    before: Option<Name>,
    occurrences: &[Occurrence],
    next: u64,
) -> Result<Option<Name>, OutOfMemory>
    ensures { IfOk result (λ s. s ≡ option_or before (met_in None (free_of next occurrences.now))) }
{
    if before.is_some() {
        return Ok(before);
    }
    system_met(alloc, occurrences, next, None)
}

/// The system that was met before, else after a first system the first of the other direction in a
/// part.
fn other_met(
    alloc: Global,
    before: Option<Name>,
    first: Option<&Name>,
    occurrences: &[Occurrence],
    next: u64,
) -> Result<Option<Name>, OutOfMemory>
    ensures { IfOk result (λ s. s ≡ option_or before (other_in (option_copied first.entry) (free_of next occurrences.now))) }
{
    if before.is_some() {
        return Ok(before);
    }
    match first {
        Some(first) => system_met(alloc, occurrences, next, Some(first)),
        None => Ok(None),
    }
}

/// The system that is met first in a part, of those that are not of the direction of one that is given.
fn system_met(
    alloc: Global,
    occurrences: &[Occurrence],
    next: u64,
    away: Option<&Name>,
) -> Result<Option<Name>, OutOfMemory>
    ensures { IfOk result (λ s. s ≡ met_in (option_copied away.entry) (free_of next occurrences.now)) }
{
    match least(occurrences, next, away) {
        Some(occurrence) => Ok(Some(occurrence.system.copy(alloc)?)),
        None => Ok(None),
    }
}

/// Of the free occurrences of a part that count, that whose variable is first in byte order.
fn least<'a>(
    occurrences: &'a [Occurrence],
    next: u64,
    away: Option<&Name>,
) -> Option<&'a Occurrence>
    ensures { option_copied result ≡ least_of (away_from (option_copied away.entry) (free_of next occurrences.now)) }
{
    let mut best = None;
    for occurrence in occurrences {
        if occurrence.binder < next && counts(occurrence, away) {
            best = Some(lesser(best, occurrence));
        }
    }
    best
}

/// Whether the system of an occurrence is not of the direction of one that is given.
fn counts(occurrence: &Occurrence, away: Option<&Name>) -> bool
    ensures { result ≡ counts_of (option_copied away.entry) occurrence.now }
{
    match away {
        None => true,
        Some(system) => is_other_direction(system, &occurrence.system),
    }
}

/// Of an occurrence so far and one after it that whose variable is first in byte order.
fn lesser<'a>(best: Option<&'a Occurrence>, other: &'a Occurrence) -> &'a Occurrence
    ensures { lesser_of (option_copied best.entry) other.now ≡ Some result.now }
{
    match best {
        None => other,
        Some(one) => match other.name.as_bytes().cmp(one.name.as_bytes()) {
            Ordering::Less => other,
            Ordering::Equal => one,
            Ordering::Greater => one,
        },
    }
}
