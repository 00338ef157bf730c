//! Lines of steps, taken out and added again.

ghost use Rattle.std.specs.Prelude.{◌≡◌, ◌≤◌, drop, length, IfOk, OnOk};
ghost use Rattle.digit_tuple.specs.Steps.{with_line, with_lines};

use digit_tuple::faults::OutOfMemory;
use digit_tuple::steps::{StepLine, Steps};
use std::alloc::Global;

/// The lines of the steps after the first so many.
pub fn lines_after(alloc: Global, steps: &Steps, count: u64) -> Result<Vec<StepLine>, OutOfMemory>
    requires { count ≤ length steps.now.lines }
    ensures { IfOk result (λ lines. lines.items ≡ drop count steps.now.lines) }
{
    let mut lines = Vec::new(alloc);
    for number in count..steps.count() {
        lines.push(steps.line(number))?;
    }
    Ok(lines)
}

/// Adds steps with these lines after the others. Out of memory may leave some of them.
pub fn add_lines(steps: &mut Steps, lines: &[StepLine]) -> Result<(), OutOfMemory>
    ensures { OnOk result (steps.new ≡ with_lines steps.old lines.now) }
{
    for line in lines {
        add_line(steps, line)?;
    }
    Ok(())
}

// Adds a step with this line after the others.
fn add_line(steps: &mut Steps, line: &StepLine) -> Result<(), OutOfMemory>
    ensures { OnOk result (steps.new ≡ with_line steps.old line.now) }
{
    steps.done(line.kind, line.width, line.size)
}
