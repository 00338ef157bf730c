//! What a session keeps from one command to the next.

ghost use Rattle.std.specs.Prelude.{◌≡◌, []};

use digit_tuple::steps::Steps;
use kept_tables::KeptTables;
use named_systems::SealedSystems;
use std::alloc::Global;
use system_admission::KeptSystems;

/// What a session keeps from one command to the next, so that it is made once. It changes no answer: each table is right by itself.
#[derive(Drop)]
pub struct Kept {
    /// The built-in systems that commands named so far, sealed.
    pub built_in: SealedSystems,
    /// Users' systems that were admitted, each beside its files.
    pub systems: KeptSystems,
    /// The relations and words that the tables of files made so far.
    pub tables: KeptTables,
}

impl Kept {
    /// Nothing so far. It takes no memory.
    pub fn new(alloc: Global) -> Kept {
        Kept {
            built_in: SealedSystems::new(alloc),
            systems: KeptSystems::new(alloc),
            tables: KeptTables::new(alloc),
        }
    }

    /// No steps yet, under this limit. Those that follow are shown on the monitor, if there is one.
    pub fn new_steps(&self, alloc: Global, limit: u32) -> Steps
        ensures { result ≡ record { limit = limit; lines = [] } }
    {
        let mut steps = Steps::new(alloc, limit);
        steps.show_on(self.systems.monitor());
        steps
    }

    /// How often something that was kept of files was used. The count stays at its type's greatest value.
    pub fn reused(&self) -> u64 {
        self.systems.reused().saturating_add(self.tables.reused())
    }
}
