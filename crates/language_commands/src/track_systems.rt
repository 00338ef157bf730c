//! The tracks and the languages of the systems that a command names.

ghost use Rattle.std.specs.Prelude.{◌≡◌, map, IfOk};
ghost use Rattle.std.specs.List.{All};
ghost use Rattle.std.specs.Rc.{rc_value};
ghost use Rattle.reg_steps.specs.Relations.{AreSystemLanguages};
ghost use Rattle.system_files.specs.SystemFiles.{Custom};
ghost use Rattle.definitions.specs.Named.{AreNamed};
ghost use Rattle.definitions.specs.Tracks.{header_tracks, systems_of};
ghost use Rattle.named_systems.specs.TrackSystems.{IsIn};
ghost use Rattle.command_parts.specs.TrackSystems.{named_in};

use digit_tuple::dfa::Dfa;
use digit_tuple::faults::OutOfMemory;
use digit_tuple::systems::Systems;
use named_systems::TrackSystems;
use std::alloc::Global;
use std::rc::Rc;

/// The tracks of a header over the systems.
pub fn tracks(alloc: Global, systems: &TrackSystems) -> Result<Systems, OutOfMemory>
    requires { (custom : Custom) × AreNamed custom systems.now.direction (named_in systems.now.systems.items) }
    ensures { IfOk result (λ tracks. tracks ≡ header_tracks (named_in systems.now.systems.items)) }
{
    let mut tracks = Systems::new(alloc);
    for system in &systems.systems {
        tracks.push(system.name.copy(alloc)?, system.digits())?;
    }
    Ok(tracks)
}

/// The canonical language of each system.
pub fn languages(alloc: Global, systems: &TrackSystems) -> Result<Vec<Rc<Dfa>>, OutOfMemory>
    requires { All (IsIn systems.now.direction) systems.now.systems.items }
    ensures { IfOk result (λ languages. AreSystemLanguages systems.now.direction (systems_of (named_in systems.now.systems.items)) (map rc_value languages.items)) }
{
    let mut languages = Vec::new(alloc);
    for system in &systems.systems {
        languages.push(system.language(alloc)?)?;
    }
    Ok(languages)
}
