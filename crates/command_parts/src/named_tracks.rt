//! The tracks of systems under names.

ghost use Rattle.std.specs.Prelude.{◌≡◌, map, IfOk};
ghost use Rattle.std.specs.Rc.{rc_value};
ghost use Rattle.command_parts.specs.WordPrinting.{HaveNames, tracks_named};

use digit_tuple::faults::OutOfMemory;
use digit_tuple::name::Name;
use digit_tuple::systems::Systems;
use num_system::system::System;
use std::alloc::Global;
use std::rc::Rc;

/// The tracks of these names over these systems, one for each.
pub fn tracks_of(
    alloc: Global,
    names: &[Name],
    systems: &[Rc<System>],
) -> Result<Systems, OutOfMemory>
    requires { HaveNames names.now (map rc_value systems.now) }
    ensures { IfOk result (λ tracks. tracks ≡ tracks_named names.now (map rc_value systems.now)) }
{
    let mut tracks = Systems::new(alloc);
    for (place, name) in names.iter().enumerate() {
        tracks.push(name.copy(alloc)?, systems[place].digits())?;
    }
    Ok(tracks)
}
