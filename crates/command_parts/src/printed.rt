ghost use Rattle.std.specs.Prelude.{◌≡◌, ℕ, ◌+◌, List, [], ◌++◌, decimal, IfOk, OnOk};
ghost use Rattle.command_parts.specs.Lines.{step_line, step_lines, shown_steps, verdict_line};

use digit_tuple::faults::OutOfMemory;
use digit_tuple::steps::{StepLine, Steps};
use itoa::Buffer;
use std::alloc::Global;
use std::marker::Model;

/// What a command prints.
#[derive(Drop)]
pub struct Printed {
    bytes: Vec<u8>,
}

impl Model for Printed {
    ghost Value = { List ℕ };

    ghost view = { λ printed. printed.bytes.items };
}

impl Printed {
    /// No bytes. It takes no memory.
    pub fn new(alloc: Global) -> Self
        ensures { result ≡ [] }
    {
        Printed {
            bytes: Vec::new(alloc),
        }
    }

    /// The bytes.
    pub fn bytes(&self) -> &[u8]
        ensures { result.now ≡ self.now }
    {
        &self.bytes
    }

    /// The bytes, for a caller to keep.
    pub fn into_bytes(self) -> Vec<u8>
        ensures { result.items ≡ self }
    {
        self.bytes
    }

    /// Takes all bytes out.
    pub fn clear(&mut self)
        ensures { self.new ≡ [] }
    {
        self.bytes.clear();
    }

    /// What is printed of the steps: a line for each, where they are shown.
    pub fn of_steps(alloc: Global, steps: &Steps, shown: bool) -> Result<Self, OutOfMemory>
        ensures { IfOk result (λ printed. printed ≡ shown_steps shown steps.now.lines) }
    {
        if shown {
            Printed::of_lines(alloc, steps)
        } else {
            Ok(Printed::new(alloc))
        }
    }

    /// A line for each of the steps.
    fn of_lines(alloc: Global, steps: &Steps) -> Result<Self, OutOfMemory>
        ensures { IfOk result (λ printed. printed ≡ step_lines 1 steps.now.lines) }
    {
        let mut printed = Printed::new(alloc);
        for number in 0..steps.count() {
            printed.push_step(number + 1, steps.line(number))?;
        }
        Ok(printed)
    }

    /// Adds the line of a verdict, where there is one.
    pub fn push_verdict(&mut self, verdict: Option<bool>) -> Result<(), OutOfMemory>
        ensures { OnOk result (self.new ≡ self.old ++ verdict_line verdict) }
    {
        match verdict {
            Some(true) => self.push_two(b"TRUE\n", b""),
            Some(false) => self.push_two(b"FALSE\n", b""),
            None => Ok(()),
        }
    }

    /// Adds lines.
    pub fn push_lines(&mut self, lines: &[u8]) -> Result<(), OutOfMemory>
        ensures { OnOk result (self.new ≡ self.old ++ lines.now) }
    {
        self.bytes.extend_from_slice(lines)?;
        Ok(())
    }

    /// Adds the line of a step.
    fn push_step(&mut self, number: u64, step: StepLine) -> Result<(), OutOfMemory>
        ensures { OnOk result (self.new ≡ self.old ++ step_line number step) }
    {
        self.push_number(b"step ", number)?;
        self.push_two(b" ", step.kind.name().as_bytes())?;
        self.push_number(b" ", u64::from(step.width))?;
        self.push_number(b" ", u64::from(step.size))?;
        self.push_two(b"\n", b"")
    }

    /// Adds a text and a number.
    fn push_number(&mut self, text: &[u8], number: u64) -> Result<(), OutOfMemory>
        ensures { OnOk result (self.new ≡ self.old ++ (text.now ++ decimal number)) }
    {
        let mut buffer = Buffer::new();
        self.push_two(text, buffer.format(number).as_bytes())
    }

    /// Adds two texts.
    fn push_two(&mut self, first: &[u8], second: &[u8]) -> Result<(), OutOfMemory>
        ensures { OnOk result (self.new ≡ self.old ++ (first.now ++ second.now)) }
    {
        self.bytes.extend_from_slice(first)?;
        self.bytes.extend_from_slice(second)?;
        Ok(())
    }
}
