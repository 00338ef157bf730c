//! The built-in systems that are kept, sealed.

ghost use Rattle.std.specs.Prelude.{IfOk, MatchOption};
ghost use Rattle.num_system.specs.Sealed.{system_of};
ghost use Rattle.system_names.specs.Names.{IsBuiltInName};
ghost use Rattle.named_systems.specs.BuiltIn.{IsBuiltInSystem};
ghost use Rattle.named_systems.specs.SealedSystems.{AddsBuiltIn, AddsSystem};

use crate::systems::NamedSystems;
use crate::track_systems::system_named;
use digit_tuple::faults::OutOfMemory;
use digit_tuple::name::Name;
use num_system::seal::seal_built_in;
use num_system::system::System;
use std::alloc::Global;
use std::marker::Model;
use std::rc::Rc;

/// Built-in systems, each sealed once, at its first use, under its name. A search takes time in proportion to their number.
#[derive(Drop)]
pub struct SealedSystems {
    systems: NamedSystems,
}

impl Model for SealedSystems {
    ghost use Rattle.std.specs.Prelude.{List};
    ghost use Rattle.named_systems.specs.NamedSystems.{NamedSystem};
    ghost use Rattle.named_systems.specs.SealedSystems.{AreBuiltIn};

    ghost Value = { List NamedSystem };

    ghost view = { λ s. s.systems };

    ghost invariant = { λ s. AreBuiltIn s.systems };
}

impl SealedSystems {
    /// None so far. It takes no memory.
    pub fn new(alloc: Global) -> Self {
        SealedSystems {
            systems: NamedSystems::new(alloc),
        }
    }

    /// Adds those of these names that are built in, and `msd_2`, to other systems. Out of memory leaves those that were added
    /// before.
    pub fn add_all(
        &mut self,
        alloc: Global,
        names: &[Name],
        systems: &mut NamedSystems,
    ) -> Result<(), OutOfMemory>
        ensures { AddsBuiltIn names.now systems.old result systems.new }
    {
        for name in names {
            self.add(alloc, name, systems)?;
        }
        let default = Name::new(alloc, "msd_2")?;
        self.add(alloc, &default, systems)
    }

    /// Adds the system of a name to others, if it is built in.
    fn add(
        &mut self,
        alloc: Global,
        name: &Name,
        systems: &mut NamedSystems,
    ) -> Result<(), OutOfMemory>
        ensures { AddsSystem name.now systems.old result systems.new }
    {
        if let Some(system) = self.sealed(alloc, name)? {
            systems.add(alloc, name, system)?;
        }
        Ok(())
    }

    /// The system of a name, if it is built in, sealed at its first use.
    fn sealed(&mut self, alloc: Global, name: &Name) -> Result<Option<Rc<System>>, OutOfMemory>
        ensures { IfOk result (λ found. MatchOption found (¬ IsBuiltInName name.now) (λ s. IsBuiltInSystem name.now s.value.direction (system_of s.value))) }
    {
        if let Some(system) = self.systems.get(name) {
            return Ok(Some(system.clone()?));
        }
        match system_named(name) {
            Some(system) => {
                let sealed = seal_built_in(alloc, &system)?;
                let shared = Rc::new(alloc, sealed)?;
                self.systems.add(alloc, name, shared.clone()?)?;
                Ok(Some(shared))
            }
            None => Ok(None),
        }
    }
}
