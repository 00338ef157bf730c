//! Sealed systems by their names.

ghost use Rattle.std.specs.Prelude.{◌≡◌, [], OnOk, OnErr, None, Some, MatchOption};
ghost use Rattle.named_systems.specs.NamedSystems.{AreSealed, with_system, system_named};

use digit_tuple::faults::OutOfMemory;
use digit_tuple::name::Name;
use num_system::sealed::is_sealed;
use num_system::system::System;
use std::alloc::Global;
use std::marker::Model;
use std::rc::Rc;

// A sealed system, and its name.
#[derive(Drop)]
struct SystemEntry {
    name: Name,
    system: Rc<System>,
}

/// Sealed systems, each under a name. The first of a name counts. A search takes time in proportion to
/// their number.
#[derive(Drop)]
pub struct NamedSystems {
    entries: Vec<SystemEntry>,
}

impl Model for NamedSystems {
    ghost use Rattle.std.specs.Prelude.{List};
    ghost use Rattle.named_systems.specs.NamedSystems.{NamedSystem, AreSealed};
    ghost use Rattle.named_systems.specs.SystemViews.{system_entries};

    ghost Value = { List NamedSystem };

    ghost view = { λ s. system_entries s.entries.items };

    ghost invariant = { λ s. AreSealed (system_entries s.entries.items) };
}

impl NamedSystems {
    /// No system. It takes no memory.
    pub fn new(alloc: Global) -> NamedSystems
        ensures { result ≡ [] }
    {
        NamedSystems {
            entries: Vec::new(alloc),
        }
    }

    /// Adds a sealed system under a name. Out of memory leaves them as they were.
    pub fn add(&mut self, alloc: Global, name: &Name, system: Rc<System>) -> Result<(), OutOfMemory>
        ensures ok { OnOk result (self.new ≡ with_system self.old name.now system.value) }
        ensures err { OnErr result (self.new ≡ self.old) }
    {
        let name = name.copy(alloc)?;
        is_sealed(system.as_ref());
        self.entries.push(SystemEntry { name, system })?;
        Ok(())
    }

    /// All are sealed. It does nothing.
    pub fn are_sealed(&self)
        ensures { AreSealed self.now }
    {
        let _ = self.entries.len();
    }

    /// The first system of a name, if there is one.
    pub fn get(&self, name: &Name) -> Option<&Rc<System>>
        ensures found { MatchOption result (system_named self.now name.now ≡ None) (λ s. system_named self.now name.now ≡ Some s.now.value) }
        ensures sealed { AreSealed self.now }
    {
        for entry in &self.entries {
            if entry.name.as_bytes() == name.as_bytes() {
                return Some(&entry.system);
            }
        }
        None
    }
}
