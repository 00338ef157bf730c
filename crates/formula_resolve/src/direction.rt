//! The directions of systems, by their names.

ghost use Rattle.std.specs.Prelude.{◌≡◌, IfOk};
ghost use Rattle.std.specs.Option.{option_copied};
ghost use Rattle.formula_parse.specs.Views.{fact_view};
ghost use Rattle.formula_resolve.specs.Directions.{is_lsd as is_lsd_of, is_other_direction as is_other_direction_of, first_track, conflict_of_two, fact_conflict as fact_conflict_of};

use crate::headers::Headers;
use digit_tuple::faults::OutOfMemory;
use digit_tuple::name::Name;
use formula_parse::tree::Fact;
use std::alloc::Global;

/// Two systems of two directions: the first that is met, and the first after it of the other
/// direction.
#[derive(Drop)]
pub struct Conflict {
    pub first: Name,
    pub other: Name,
}

/// Whether the system of this name reads the least significant digit first.
fn is_lsd(system: &Name) -> bool
    ensures { result ≡ is_lsd_of system.now }
{
    system.as_bytes().starts_with(b"lsd_")
}

/// Whether two systems have two directions.
pub(crate) fn is_other_direction(first: &Name, second: &Name) -> bool
    ensures { result ≡ is_other_direction_of first.now second.now }
{
    is_lsd(first) != is_lsd(second)
}

/// The two words of an atom, where their first tracks have two directions.
pub(crate) fn fact_conflict(
    alloc: Global,
    fact: &Fact,
    headers: &Headers,
) -> Result<Option<Conflict>, OutOfMemory>
    ensures { IfOk result (λ conflict. conflict ≡ fact_conflict_of headers.now (fact_view fact.now)) }
{
    match fact {
        Fact::Words(first, _, second) => {
            let first = headers.word_tracks(&first.word).first();
            let second = headers.word_tracks(&second.word).first();
            conflict_between(alloc, first, second)
        }
        Fact::Compare(..) => Ok(None),
        Fact::WordLetter(..) => Ok(None),
        Fact::LetterWord(..) => Ok(None),
        Fact::Call(..) => Ok(None),
    }
}

/// The two systems, where there are two and they have two directions.
fn conflict_between(
    alloc: Global,
    first: Option<&Name>,
    second: Option<&Name>,
) -> Result<Option<Conflict>, OutOfMemory>
    ensures { IfOk result (λ conflict. conflict ≡ conflict_of_two (option_copied first.entry) (option_copied second.entry)) }
{
    match (first, second) {
        (Some(first), Some(second)) => {
            if !is_other_direction(first, second) {
                return Ok(None);
            }
            Ok(Some(Conflict {
                first: first.copy(alloc)?,
                other: second.copy(alloc)?,
            }))
        }
        _ => Ok(None),
    }
}
