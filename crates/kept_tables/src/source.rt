//! What a relation or a word was made of.

ghost use Rattle.std.specs.Prelude.{◌≡◌, ◌≤◌, length, map, IfOk, IsTrue};
ghost use Rattle.std.specs.Rc.{rc_value};
ghost use Rattle.kept_tables.specs.KeptTables.{IsSourceOf, IsMadeOf};

use crate::same_systems::are_same;
use dfa_loading::{FileText, Loaded};
use digit_tuple::faults::OutOfMemory;
use digit_tuple::name::Name;
use digit_tuple::steps::{StepLine, Steps};
use num_system::system::System;
use num_system::tracks::shared;
use std::alloc::Global;
use std::rc::Rc;
use step_lines::lines_after;

/// What a relation or a word was made of, and the lines of the steps that made it.
#[derive(Drop)]
pub(crate) struct Source {
    /// The name of the file.
    name: Name,
    /// The text of the file.
    text: FileText,
    /// The systems of the tracks.
    systems: Vec<Rc<System>>,
    /// The limit of the steps.
    limit: u32,
    /// The lines.
    pub(crate) lines: Vec<StepLine>,
}

impl Source {
    /// That of a table over these systems, made by the steps after the first so many.
    pub(crate) fn of(
        alloc: Global,
        table: &Loaded,
        systems: &[Rc<System>],
        steps: &Steps,
        count: u64,
    ) -> Result<Self, OutOfMemory>
        requires { count ≤ length steps.now.lines }
        ensures { IfOk result (IsSourceOf table.now.text (map rc_value systems.now) steps.now count) }
    {
        Ok(Source {
            name: table.name().copy(alloc)?,
            text: FileText::new(Vec::from_slice(alloc, table.text.as_bytes())?),
            systems: shared(alloc, systems)?,
            limit: steps.limit(),
            lines: lines_after(alloc, steps, count)?,
        })
    }

    /// Whether it is that of this table over these systems, under this limit.
    pub(crate) fn is_of(&self, table: &Loaded, systems: &[Rc<System>], limit: u32) -> bool
        ensures { IsTrue result → IsMadeOf self.now table.now.text (map rc_value systems.now) limit }
    {
        self.limit == limit
            && self.name.as_bytes() == table.name().as_bytes()
            && self.text.as_bytes() == table.text.as_bytes()
            && are_same(&self.systems, systems)
    }
}
