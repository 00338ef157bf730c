//! Classes of states, parted by outputs.

ghost use Rattle.std.specs.Prelude.{◌≡◌, ℕ, ◌+◌, ◌*◌, ◌/◌, ◌<◌, ◌≤◌, ◌^◌, length, IfOk};
ghost use Rattle.digit_tuple.specs.Deterministic.{states_of};
ghost use Rattle.residual_classes.specs.Classes.{class_of};
ghost use Rattle.residual_classes.specs.CoarseClasses.{AreCoarseClasses, HaveOneOutput};
ghost use Rattle.residual_classes.specs.Outputs.{HasOutputs};
ghost use Rattle.residual_classes.specs.OutputParts.{part_number};

use crate::first_places::first_places;
use crate::machine::Machine;
use digit_tuple::faults::OutOfMemory;
use std::alloc::Global;

/// The classes, each parted by the outputs of its states, so that it has one. Its time and memory are those of
/// `first_places`.
pub fn parted_by_outputs(
    alloc: Global,
    machine: &Machine,
    classes: &[u32],
) -> Result<Vec<u32>, OutOfMemory>
    requires outputs { HasOutputs machine.now }
    requires classes { AreCoarseClasses machine.now.dfa.now machine.now.outputs.now classes.now }
    ensures coarse { IfOk result (λ parts. AreCoarseClasses machine.now.dfa.now machine.now.outputs.now parts.items) }
    ensures finer { IfOk result (λ parts. (q : ℕ) → q ≤ states_of machine.now.dfa.now → class_of classes.now q ≡ class_of classes.now (class_of parts.items q)) }
    ensures one_output { IfOk result (λ parts. HaveOneOutput machine.now.dfa.now machine.now.outputs.now parts.items) }
{
    let numbers = part_numbers(alloc, machine, classes)?;
    first_places(alloc, &numbers)
}

// For each state and the sink a number that determines its class and its output. The classes are spread over the upper
// half of the bits.
fn part_numbers(alloc: Global, machine: &Machine, classes: &[u32]) -> Result<Vec<u64>, OutOfMemory>
    requires { AreCoarseClasses machine.now.dfa.now machine.now.outputs.now classes.now }
    ensures states { states_of machine.now.dfa.now < 2 ^ 32 }
    ensures width { IfOk result (λ numbers. length numbers.items ≡ length classes.now) }
    ensures outputs { IfOk result (λ _. (q : ℕ) → q < length classes.now → class_of machine.now.outputs.now q < 2 ^ 32) }
    ensures are { IfOk result (λ numbers. (q : ℕ) → q < length classes.now → class_of numbers.items q ≡ part_number (states_of machine.now.dfa.now) (class_of classes.now q) (class_of machine.now.outputs.now q)) }
{
    let spread = u64::from(u32::MAX / machine.dfa.states().max(1));
    let mut numbers = Vec::with_capacity(alloc, classes.len())?;
    for place in 0..classes.len() {
        let upper = u64::from(classes[place]) * spread;
        numbers.push(upper * 0x1_0000_0000 + u64::from(machine.output(place as u32)))?;
    }
    Ok(numbers)
}
