//! Users' systems that are kept, each beside the files from which it was admitted.

ghost use Rattle.std.specs.Prelude.{◌≡◌, ◌≤◌, length, true, IfOk, IfSome, IsTrue, MatchOption};
ghost use Rattle.std.specs.Option.{IsSomeAnd};
ghost use Rattle.system_admission.specs.KeptSystems.{AdmitsPair, CanBeKept, IsLanguage, IsRight};
ghost use Rattle.system_admission.specs.KeptViews.{kept_system, pair_view};

use crate::pair::SystemPair;
use digit_tuple::direction::Direction;
use digit_tuple::faults::OutOfMemory;
use digit_tuple::name::Name;
use digit_tuple::steps::{StepLine, Steps};
use monitor::Monitor;
use num_system::system::System;
use std::alloc::Global;
use std::marker::Model;
use std::rc::Rc;
use step_lines::{add_lines, lines_after};

// The most systems that are kept.
const MOST_KEPT: usize = 64;

// A system that was admitted: the direction of its words, the name and the text of its language, the text of its adder, the limit,
// and the steps.
#[derive(Drop)]
struct Entry {
    direction: Direction,
    name: Name,
    language: Vec<u8>,
    adder: Vec<u8>,
    limit: u32,
    lines: Vec<StepLine>,
    system: Rc<System>,
}

/// Users' systems that were admitted, 64 at most, each beside its files, the limit and the steps of its admission. A search takes time
/// in proportion to their number, and to the bytes of the files that are compared.
#[derive(Drop)]
pub struct KeptSystems {
    entries: Vec<Entry>,
    used: u64,
    monitor: Option<Rc<Monitor>>,
}

impl Model for KeptSystems {
    ghost use Rattle.std.specs.Prelude.{List};
    ghost use Rattle.system_admission.specs.KeptSystems.{KeptSystem, AreKept};
    ghost use Rattle.system_admission.specs.KeptViews.{kept_systems};

    ghost Value = { List KeptSystem };

    ghost view = { λ s. kept_systems s.entries.items };

    ghost invariant = { λ s. AreKept (kept_systems s.entries.items) };
}

impl KeptSystems {
    /// None so far. It takes no memory.
    pub fn new(alloc: Global) -> Self {
        KeptSystems {
            entries: Vec::new(alloc),
            used: 0,
            monitor: None,
        }
    }

    /// Shows the steps of the commands that follow on this monitor.
    pub fn show_on(&mut self, monitor: Rc<Monitor>)
        ensures { self.new ≡ self.old }
    {
        self.monitor = Some(monitor);
    }

    /// The monitor on which steps are shown, if there is one.
    pub fn monitor(&self) -> Option<Rc<Monitor>> {
        match &self.monitor {
            Some(monitor) => monitor.clone().ok(),
            None => None,
        }
    }

    /// Takes the line of the monitor away, as a command has ended.
    pub fn clear_monitor(&self) {
        if let Some(monitor) = &self.monitor {
            monitor.clear();
        }
    }

    /// How often a kept system was used. The count stays at its type's greatest value.
    pub fn reused(&self) -> u64 {
        self.used
    }

    /// Whether the text is the language of a kept system. Then it lists a language.
    pub(crate) fn has_language(&self, text: &[u8]) -> bool
        ensures { IsTrue result → IsLanguage text.now }
    {
        for entry in &self.entries {
            if entry.language.as_slice() == text {
                return true;
            }
        }
        false
    }

    /// The system that was kept with these files under the limit of the steps, if the files were read and there is one. Its steps are
    /// added as the next ones. Out of memory may leave some of them.
    pub(crate) fn admit(
        &mut self,
        pair: Option<SystemPair<'_>>,
        steps: &mut Steps,
    ) -> Result<Option<Rc<System>>, OutOfMemory>
        ensures { IfOk result (λ found. MatchOption found (steps.new ≡ steps.old) (λ system. IsSomeAnd pair.entry (λ files. AdmitsPair (pair_view files) steps.old steps.new system.value))) }
    {
        let Some(pair) = pair else {
            return Ok(None);
        };
        let Some(entry) = self.fitting(&pair, steps.limit()) else {
            return Ok(None);
        };
        add_lines(steps, &entry.lines)?;
        let system = entry.system.clone()?;
        self.used = self.used.saturating_add(1);
        Ok(Some(system))
    }

    // The one that was kept with these files under a limit.
    fn fitting(&self, pair: &SystemPair<'_>, limit: u32) -> Option<&Entry>
        ensures right { IfSome result (λ entry. IsRight (kept_system entry.now)) }
        ensures pair { IfSome result (λ entry. (kept_system entry.now).pair ≡ pair_view pair.now) }
        ensures limit { IfSome result (λ entry. entry.now.limit ≡ limit) }
    {
        for entry in &self.entries {
            if entry.is_of(pair) && entry.limit == limit {
                return Some(entry);
            }
        }
        None
    }

    /// Keeps a system that was admitted from these files, by the steps from the first on, counted from 0. Where 64 are kept, or where
    /// memory runs out, it is not kept.
    pub(crate) fn keep(
        &mut self,
        alloc: Global,
        pair: &SystemPair<'_>,
        first: u64,
        steps: &Steps,
        system: &Rc<System>,
    )
        requires first { first ≤ length steps.now.lines }
        requires right { CanBeKept (pair_view pair.now) first steps.now system.now.value }
    {
        if self.entries.len() < MOST_KEPT {
            if let Ok(entry) = Entry::of(alloc, pair, first, steps, system) {
                let _ = self.entries.push(entry);
            }
        }
    }
}

impl Entry {
    // What is kept of a system that was admitted from these files, by the steps from the first on.
    fn of(
        alloc: Global,
        pair: &SystemPair<'_>,
        first: u64,
        steps: &Steps,
        system: &Rc<System>,
    ) -> Result<Entry, OutOfMemory>
        requires first { first ≤ length steps.now.lines }
        requires right { CanBeKept (pair_view pair.now) first steps.now system.now.value }
        ensures { IfOk result (λ entry. IsRight (kept_system entry)) }
    {
        Ok(Entry {
            direction: pair.direction,
            name: pair.name.copy(alloc)?,
            language: copied(alloc, pair.language)?,
            adder: copied(alloc, pair.adder)?,
            limit: steps.limit(),
            lines: lines_after(alloc, steps, first)?,
            system: system.clone()?,
        })
    }

    // Whether the files are these, and are read in the same direction.
    fn is_of(&self, pair: &SystemPair<'_>) -> bool
        ensures { result ≡ true → (kept_system self.now).pair ≡ pair_view pair.now }
    {
        self.direction == pair.direction
            && self.name.as_bytes() == pair.name.as_bytes()
            && self.language.as_slice() == pair.language
            && self.adder.as_slice() == pair.adder
    }
}

// The bytes once more.
fn copied(alloc: Global, bytes: &[u8]) -> Result<Vec<u8>, OutOfMemory>
    ensures { IfOk result (λ copy. copy.items ≡ bytes.now) }
{
    let mut copy = Vec::new(alloc);
    copy.extend_from_slice(bytes)?;
    Ok(copy)
}
