//! The system of a track, under its name.

ghost use Rattle.std.specs.Prelude.{◌≡◌, IfOk};
ghost use Rattle.minimise.specs.Canonical.{IsCanonical};
ghost use Rattle.numeration.specs.Relations.{IsLanguageOf};
ghost use Rattle.named_systems.specs.TrackSystems.{system_of, direction_of};

use crate::known_system::KnownSystem;
use digit_tuple::dfa::Dfa;
use digit_tuple::direction::Direction;
use digit_tuple::faults::OutOfMemory;
use digit_tuple::name::Name;
use minimise::canonical::canonical;
use num_system::system::System;
use numeration::num_system::NumSystem;
use std::alloc::Global;
use std::rc::Rc;

/// What the name of a track's system means.
#[derive(Drop)]
pub enum Meaning {
    /// A system that is built in.
    BuiltIn(KnownSystem),
    /// One that a user defines.
    Admitted(Rc<System>),
}

/// The system of a track, under its name.
#[derive(Drop)]
pub struct TrackSystem {
    /// The name.
    pub name: Name,
    /// What it means.
    pub meaning: Meaning,
}

impl TrackSystem {
    /// The direction in which its words are read.
    pub fn direction(&self) -> Direction
        ensures { result ≡ direction_of self.now }
    {
        match &self.meaning {
            Meaning::BuiltIn(system) => system.direction(),
            Meaning::Admitted(system) => system.direction(),
        }
    }

    /// How many digits it has.
    pub fn digits(&self) -> u32
        ensures { result ≡ (system_of self.now).digits }
    {
        match &self.meaning {
            Meaning::BuiltIn(system) => system.digits(),
            Meaning::Admitted(system) => system.digits(),
        }
    }

    /// The canonical automaton of its words. Time and memory follow that of a built-in system; a user's is shared.
    pub fn language(&self, alloc: Global) -> Result<Rc<Dfa>, OutOfMemory>
        ensures of_system { IfOk result (λ language. IsLanguageOf (direction_of self.now) (system_of self.now) language.value) }
        ensures canonical { IfOk result (λ language. IsCanonical language.value) }
    {
        match &self.meaning {
            Meaning::BuiltIn(system) => {
                let language = system.language(alloc)?;
                Ok(Rc::new(alloc, canonical(alloc, &language)?)?)
            }
            Meaning::Admitted(system) => Ok(system.language().clone()?),
        }
    }
}
