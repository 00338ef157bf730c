//! What the tracks of an automaton are over.

ghost use Rattle.std.specs.Prelude.{◌≡◌, IfOk};
ghost use Rattle.digit_tuple.specs.Headers.{sets_of};

use crate::faults::OutOfMemory;
use crate::sets::Sets;
use crate::systems::Systems;
use std::alloc::Global;

/// The tracks of an automaton.
#[derive(Drop)]
pub enum Header {
    /// Each track has the members of a set as its digits.
    Sets(Sets),
    /// Each track has the digits of a numeration system.
    Systems(Systems),
}

impl Header {
    /// The set of each track's digits.
    pub fn sets(&self, alloc: Global) -> Result<Sets, OutOfMemory>
        ensures { IfOk result (λ sets. sets ≡ sets_of self.now) }
    {
        match self {
            Header::Sets(sets) => sets.copy(alloc),
            Header::Systems(systems) => systems.digit_sets(alloc),
        }
    }

    /// The same header, in memory of its own.
    pub fn copy(&self, alloc: Global) -> Result<Self, OutOfMemory>
        ensures { IfOk result (λ header. header ≡ self.now) }
    {
        match self {
            Header::Sets(sets) => Ok(Header::Sets(sets.copy(alloc)?)),
            Header::Systems(systems) => Ok(Header::Systems(systems.copy(alloc)?)),
        }
    }
}
