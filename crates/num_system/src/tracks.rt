//! The systems of several tracks.

ghost use Rattle.std.specs.Prelude.{◌≡◌, map, IfOk};
ghost use Rattle.std.specs.Rc.{rc_value};
ghost use Rattle.numeration.specs.Representation.{sizes_of};
ghost use Rattle.num_system.specs.Tracks.{languages_of as languages_of_systems, systems_of, direction_of as direction_of_systems};

use crate::system::System;
use digit_tuple::dfa::Dfa;
use digit_tuple::direction::Direction;
use digit_tuple::faults::OutOfMemory;
use std::alloc::Global;
use std::rc::Rc;

/// The languages of systems.
pub fn languages_of(alloc: Global, systems: &[Rc<System>]) -> Result<Vec<Rc<Dfa>>, OutOfMemory>
    ensures { IfOk result (λ languages. map rc_value languages.items ≡ languages_of_systems (map rc_value systems.now)) }
{
    let mut languages = Vec::with_capacity(alloc, systems.len())?;
    for system in systems {
        languages.push(system.as_ref().language().clone()?)?;
    }
    Ok(languages)
}

/// How many digits each system has.
pub fn digits_of(alloc: Global, systems: &[Rc<System>]) -> Result<Vec<u32>, OutOfMemory>
    ensures { IfOk result (λ digits. digits.items ≡ sizes_of (systems_of (map rc_value systems.now))) }
{
    let mut digits = Vec::with_capacity(alloc, systems.len())?;
    for system in systems {
        digits.push(system.as_ref().digits())?;
    }
    Ok(digits)
}

/// The direction of tracks over these systems.
pub fn direction_of(systems: &[Rc<System>]) -> Direction
    ensures { result ≡ direction_of_systems (map rc_value systems.now) }
{
    match systems.first() {
        Some(system) => system.as_ref().direction(),
        None => Direction::Msd,
    }
}

/// The same systems once more.
pub fn shared(alloc: Global, systems: &[Rc<System>]) -> Result<Vec<Rc<System>>, OutOfMemory>
    ensures { IfOk result (λ again. map rc_value again.items ≡ map rc_value systems.now) }
{
    let mut again = Vec::with_capacity(alloc, systems.len())?;
    for system in systems {
        again.push(system.clone()?)?;
    }
    Ok(again)
}
