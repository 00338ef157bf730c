//! The names of tracks.

ghost use Rattle.std.specs.Prelude.{◌≡◌, map, IfOk};
ghost use Rattle.plan_relations.specs.MadeOf.{name_of};

use digit_tuple::faults::OutOfMemory;
use digit_tuple::name::Name;
use itoa::Buffer;
use std::alloc::Global;
use term_plans::Track;

/// The name of a track: a variable's own, or a fresh track's number in decimal.
pub(crate) fn track_name(alloc: Global, track: &Track) -> Result<Name, OutOfMemory>
    ensures { IfOk result (λ name. name ≡ name_of track.now) }
{
    match track {
        Track::Own(name) => name.copy(alloc),
        Track::Fresh(number) => {
            let mut buffer = Buffer::new();
            Name::new(alloc, buffer.format(*number))
        }
    }
}

/// The names of some tracks.
pub(crate) fn track_names(alloc: Global, tracks: &[Track]) -> Result<Vec<Name>, OutOfMemory>
    ensures { IfOk result (λ names. names.items ≡ map name_of tracks.now) }
{
    let mut names = Vec::with_capacity(alloc, tracks.len())?;
    for track in tracks {
        names.push(track_name(alloc, track)?)?;
    }
    Ok(names)
}
