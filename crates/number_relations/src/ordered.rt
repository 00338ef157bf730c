//! Relations with their tracks in byte order of names.

ghost use Rattle.std.specs.Prelude.{IfOk};
ghost use Rattle.number_relations.specs.Placed.{IsOrdered};

use crate::placed::systems_for;
use crate::relation::Relation;
use digit_tuple::faults::OutOfMemory;
use pad_rename::renaming::rename;
use std::alloc::Global;

impl Relation {
    /// The same relation with its tracks in byte order of their names. Where they are so already the table is a copy,
    /// and time and memory follow its transitions; else they follow the states times the letters. Only OutOfMemory is
    /// answered, which comes too where 2^32 - 1 states are not enough.
    pub fn ordered(&self, alloc: Global) -> Result<Self, OutOfMemory>
        ensures { IfOk result (IsOrdered self.now) }
    {
        let names = self.names();
        let tracked = rename(alloc, self.tracked(), names)?;
        let systems = systems_for(alloc, self.systems(), names, tracked.names())?;
        Ok(Relation::from_parts(tracked, systems))
    }
}
