//! The steps that were done under a limit.

ghost use Rattle.std.specs.Prelude.{◌≡◌, ◌+◌, ◌<◌, ◌++◌, ◌∷◌, [], length, Some, OnOk, OnErr, slice_get};
ghost use Rattle.digit_tuple.specs.Steps.{StepLog, with_line};

use crate::faults::OutOfMemory;
use crate::kind::Kind;
use crate::limit::Limit;
use monitor::Monitor;
use std::alloc::Global;
use std::marker::Model;
use std::rc::Rc;

/// A step that was done: its kind, its width, and the number of states of its result.
#[derive(Clone, Copy, Debug, PartialEq, Eq)]
pub struct StepLine {
    pub kind: Kind,
    pub width: u32,
    pub size: u32,
}

/// The limit on the width of a step, and the steps that were done, in order. The step that is being made may be shown on a
/// monitor, of which no clause says anything.
#[derive(Drop)]
pub struct Steps {
    most: u32,
    done_lines: Vec<StepLine>,
    monitor: Option<Rc<Monitor>>,
}

impl Model for Steps {
    ghost use Rattle.digit_tuple.specs.Steps.{StepLog};

    ghost Value = { StepLog };

    ghost view = { λ s. record { limit = s.most; lines = s.done_lines.items } };
}

impl Steps {
    /// No steps yet, under this limit.
    pub fn new(alloc: Global, limit: u32) -> Self
        ensures { result ≡ record { limit = limit; lines = [] } }
    {
        Steps {
            most: limit,
            done_lines: Vec::new(alloc),
            monitor: None,
        }
    }

    /// Shows the steps that follow on this monitor, if there is one.
    pub fn show_on(&mut self, monitor: Option<Rc<Monitor>>)
        ensures { self.new ≡ self.old }
    {
        self.monitor = monitor;
    }

    /// Says which part of a formula the steps that follow make, counted from 1, of how many.
    pub fn part(&self, part: u64, parts: u64) {
        if let Some(monitor) = &self.monitor {
            monitor.part(part, parts);
        }
    }

    /// Says of which kind the next step is, and gives the limit under which it is made.
    pub fn begin(&self, kind: Kind) -> Limit<'_>
        ensures { result.most ≡ self.now.limit }
    {
        let monitor = self.monitor.as_deref();
        if let Some(monitor) = monitor {
            monitor.step(self.next_number(), kind.name());
        }
        Limit::shown(self.most, monitor)
    }

    /// The most that a step's width may be.
    pub fn limit(&self) -> u32
        ensures { result ≡ self.now.limit }
    {
        self.most
    }

    /// How many steps were done.
    pub fn count(&self) -> u64
        ensures { result ≡ length self.now.lines }
    {
        self.done_lines.len() as u64
    }

    /// The number of the next step. Steps are numbered from 1.
    pub fn next_number(&self) -> u64
        ensures { result ≡ length self.now.lines + 1 }
    {
        self.done_lines.len() as u64 + 1
    }

    /// Adds a step after the others. Out of memory leaves them as they were.
    pub fn done(&mut self, kind: Kind, width: u32, size: u32) -> Result<(), OutOfMemory>
        ensures ok { OnOk result (self.new ≡ with_line self.old (record { kind = kind; width = width; size = size })) }
        ensures err { OnErr result (self.new ≡ self.old) }
    {
        self.done_lines.push(StepLine { kind, width, size })?;
        Ok(())
    }

    /// The step with this number, counted from 0.
    pub fn line(&self, number: u64) -> StepLine
        requires { number < length self.now.lines }
        ensures { slice_get self.now.lines number ≡ Some result }
    {
        self.done_lines[number as usize]
    }
}
