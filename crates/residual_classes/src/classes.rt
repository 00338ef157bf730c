//! The classes of states that are the residuals: what words that follow lead to.
//!
//! Rounds by hashes make them at once where few rounds do. Where they could go on for long, as where states are in a
//! long chain, Hopcroft's algorithm goes on from the classes that they leave, each parted by outputs.

ghost use Rattle.std.specs.Prelude.{◌≡◌, ℕ, ◌+◌, ◌*◌, ◌<◌, ◌≤◌, ◌^◌, IfOk};
ghost use Rattle.digit_tuple.specs.Deterministic.{states_of};
ghost use Rattle.digit_tuple.specs.TransitionCounts.{transition_count};
ghost use Rattle.residual_classes.specs.CoarseClasses.{AreResidualClasses};
ghost use Rattle.residual_classes.specs.Outputs.{HasOutputs};

use crate::flat_transitions::FlatTransitions;
use crate::looks::Looks;
use crate::machine::Machine;
use crate::output_parts::parted_by_outputs;
use crate::partition::parted;
use crate::rounds::classes_by_rounds;
use digit_tuple::faults::OutOfMemory;
use std::alloc::Global;
use std::marker::Brand;
use std::sync::ledger::{Blank, Ledger};

/// The class of each state, and last that of the sink, where missing transitions lead. States have one class if and
/// only if all words lead from them to the same outputs.
pub fn residual_classes(alloc: Global, machine: &Machine) -> Result<Vec<u32>, OutOfMemory>
    requires { HasOutputs machine.now }
    ensures { IfOk result (λ classes. AreResidualClasses machine.now.dfa.now machine.now.outputs.now classes.items) }
{
    classes_of_ledger::<Brand>(alloc, machine, Blank::new(1))
}

// These classes, where looks at transitions are counted for nobody.
fn classes_of_ledger<L: Ledger>(
    alloc: Global,
    machine: &Machine,
    blank: Blank,
) -> Result<Vec<u32>, OutOfMemory>
    requires outputs { HasOutputs machine.now }
    requires name { blank.name ≡ L.name }
    requires parts { blank.parts ≡ L.parts }
    requires some { 0 < blank.parts }
    ensures { IfOk result (λ classes. AreResidualClasses machine.now.dfa.now machine.now.outputs.now classes.items) }
{
    let mut looks = Looks::<L>::new(blank);
    counted_classes(alloc, machine, &mut looks)
}

/// The classes that `residual_classes` gives, with a count of looks at transitions: at most the binary digits of the number of
/// states for each.
pub fn counted_classes<L: Ledger>(
    alloc: Global,
    machine: &Machine,
    looks: &mut Looks<L>,
) -> Result<Vec<u32>, OutOfMemory>
    requires { HasOutputs machine.now }
    ensures residuals { IfOk result (λ classes. AreResidualClasses machine.now.dfa.now machine.now.outputs.now classes.items) }
    ensures looks { (b : ℕ) → states_of machine.now.dfa.now < 2 ^ b → looks.new ≤ looks.old + transition_count machine.now.dfa.now * b }
{
    let flat = FlatTransitions::new(alloc, machine.dfa)?;
    let rounds = classes_by_rounds(alloc, machine, &flat, looks)?;
    if rounds.stable {
        return Ok(rounds.counted.classes);
    }
    let classes = parted_by_outputs(alloc, machine, &rounds.counted.classes)?;
    // Memory goes before more is taken.
    drop(rounds);
    parted(alloc, machine, &flat, classes, looks)
}
