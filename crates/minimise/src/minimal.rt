//! The automaton of the residuals that words lead to.

ghost use Rattle.std.specs.Prelude.{◌≡◌, map, IfOk};
ghost use Rattle.std.specs.List.{All};
ghost use Rattle.residual_classes.specs.ClassFunctions.{SameClassFunction};
ghost use Rattle.residual_classes.specs.CoarseClasses.{AreResidualClasses};
ghost use Rattle.residual_classes.specs.Outputs.{HasOutputs};
ghost use Rattle.minimise.specs.Canonical.{IsCanonicalWithClasses};
ghost use Rattle.minimise.specs.Quotient.{IsQuotient, IsClass, key_output};

use crate::quotient::Quotient;
use digit_tuple::dfa::Dfa;
use digit_tuple::exploration::{Explored, explore_keys};
use digit_tuple::faults::OutOfMemory;
use digit_tuple::limit::Limit;
use digit_tuple::numbering::Numbering;
use residual_classes::leaders::leaders;
use residual_classes::machine::Machine;
use std::alloc::Global;

/// The automaton whose states are the residuals that words lead to, with the output of each. A letter that leads to the
/// sink's has no transition.
pub fn minimal(
    alloc: Global,
    machine: &Machine,
    classes: &[u32],
) -> Result<(Dfa, Vec<u32>), OutOfMemory>
    requires outputs { HasOutputs machine.now }
    requires classes { AreResidualClasses machine.now.dfa.now machine.now.outputs.now classes.now }
    ensures sizes { IfOk result (λ made. made.0.sizes ≡ machine.now.dfa.now.sizes) }
    ensures function { IfOk result (λ made. SameClassFunction machine.now.dfa.now machine.now.outputs.now made.0 made.1.items) }
    ensures canonical { IfOk result (λ made. IsCanonicalWithClasses made.0 made.1.items) }
{
    let dfa = machine.dfa;
    let alphabet = dfa.alphabet().copy(alloc)?;
    let leaders = leaders(alloc, classes, dfa.states() as usize)?;
    let quotient = Quotient {
        dfa,
        outputs: machine.outputs,
        classes,
        leaders: &leaders,
    };
    match explore_keys(alloc, &quotient, alphabet, Limit::none()) {
        Ok(stepped) => {
            let Explored { dfa, keys } = stepped.result;
            let outputs = outputs_of(alloc, &quotient, &keys)?;
            Ok((dfa, outputs))
        }
        Err(_) => Err(OutOfMemory),
    }
}

// The output of each class.
fn outputs_of(alloc: Global, quotient: &Quotient, keys: &Numbering) -> Result<Vec<u32>, OutOfMemory>
    requires graph { IsQuotient quotient.now.dfa.now quotient.now.outputs.now quotient.now.classes.now quotient.now.leaders.now }
    requires keys { All (IsClass quotient.now.dfa.now quotient.now.classes.now quotient.now.leaders.now) keys.now }
    ensures { IfOk result (λ outputs. outputs.items ≡ map (key_output quotient.now.outputs.now quotient.now.leaders.now) keys.now) }
{
    let count = keys.len();
    let mut outputs = Vec::with_capacity(alloc, count)?;
    for place in 0..count {
        outputs.push(quotient.output(keys.key(place)))?;
    }
    Ok(outputs)
}
