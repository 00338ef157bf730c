//! The systems of tracks, by their names.

ghost use Rattle.std.specs.Prelude.{◌≡◌, ◌<◌, length, IfOk, MatchOption, MatchResult};
ghost use Rattle.std.specs.List.{All, AllByRecursion};
ghost use Rattle.system_names.specs.Names.{IsBuiltInName};
ghost use Rattle.named_systems.specs.KnownSystems.{name_of};
ghost use Rattle.named_systems.specs.NamedSystems.{IsThere};
ghost use Rattle.named_systems.specs.TrackSystems.{AreNamesOf, IsNameOf, AreTrackSystemsOf, RefusesNames, IsFirstApart, IsIn};

use crate::known_system::KnownSystem;
use crate::systems::NamedSystems;
use crate::track_system::{Meaning, TrackSystem};
use base_k::base_k::BaseK;
use digit_tuple::direction::Direction;
use digit_tuple::faults::OutOfMemory;
use digit_tuple::name::Name;
use fib_system::fib::Fib;
use std::alloc::Global;
use system_names::{SystemKind, built_in};

/// Why names mean no systems of tracks.
#[derive(Drop)]
pub enum TracksFault {
    /// The first name, and the first later one that means a system of the other direction.
    Direction(Name, Name),
    /// There was not enough memory.
    Memory,
}

impl From<OutOfMemory> for TracksFault {
    ghost use Rattle.named_systems.specs.declared.track_systems.TracksFault.TheVariants.{Memory};

    ghost from_gives = { λ _ e. e ≡ Memory };

    fn from(_error: OutOfMemory) -> TracksFault {
        TracksFault::Memory
    }
}

/// The systems of tracks, all read in one direction.
#[derive(Drop)]
pub struct TrackSystems {
    /// The direction.
    pub direction: Direction,
    /// The system of each track.
    pub systems: Vec<TrackSystem>,
}

impl TrackSystems {
    /// The systems of these names, of which there is at least one, and each is built in or one of the users' systems. Time follows
    /// the names times the users' systems.
    ///
    /// # Errors
    /// `Direction` if and only if the systems are not of one direction, or `Memory`.
    pub fn of_names(
        alloc: Global,
        names: &[Name],
        users: &NamedSystems,
    ) -> Result<Self, TracksFault>
        requires some { 0 < length names.now }
        requires there { AllByRecursion (IsThere users.now) names.now }
        ensures { MatchResult result (AreTrackSystemsOf users.now names.now) (RefusesNames users.now names.now) }
    {
        let systems = systems_named(alloc, names, users)?;
        let direction = systems[0].direction();
        match other_direction(&systems, direction) {
            Some(place) => Err(TracksFault::Direction(
                names[0].copy(alloc)?,
                names[place].copy(alloc)?,
            )),
            None => Ok(TrackSystems { direction, systems }),
        }
    }
}

// The system of each name.
fn systems_named(
    alloc: Global,
    names: &[Name],
    users: &NamedSystems,
) -> Result<Vec<TrackSystem>, OutOfMemory>
    requires { AllByRecursion (IsThere users.now) names.now }
    ensures { IfOk result (λ systems. AreNamesOf users.now names.now systems.items) }
{
    let mut systems = Vec::new(alloc);
    for name in names {
        systems.push(TrackSystem {
            name: name.copy(alloc)?,
            meaning: meaning(name, users)?,
        })?;
    }
    Ok(systems)
}

// What a name means.
fn meaning(name: &Name, users: &NamedSystems) -> Result<Meaning, OutOfMemory>
    requires { IsThere users.now name.now }
    ensures { IfOk result (IsNameOf users.now name.now) }
{
    if let Some(system) = system_named(name) {
        return Ok(Meaning::BuiltIn(system));
    }
    match users.get(name) {
        Some(system) => Ok(Meaning::Admitted(system.clone()?)),
        None => unreachable!(),
    }
}

// The place of the first system that is read in another direction.
fn other_direction(systems: &[TrackSystem], direction: Direction) -> Option<usize>
    ensures { MatchOption result (All (IsIn direction) systems.now) (IsFirstApart direction systems.now) }
{
    for (place, system) in systems.iter().enumerate() {
        if system.direction() != direction {
            return Some(place);
        }
    }
    None
}

/// The built-in system of this name.
pub fn system_named(name: &Name) -> Option<KnownSystem>
    ensures { MatchOption result (¬ IsBuiltInName name.now) (λ system. name.now ≡ name_of system) }
{
    let found = built_in(name.as_bytes())?;
    match found.kind {
        SystemKind::Base(base) => Some(KnownSystem::Base(BaseK::new(base, found.direction)?)),
        SystemKind::Fibonacci => Some(KnownSystem::Fibonacci(Fib::new(found.direction))),
    }
}
