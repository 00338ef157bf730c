//! Automata with outputs (Moore machines), and the outputs that acceptance gives.

ghost use Rattle.std.specs.Prelude.{◌≡◌, IfOk};
ghost use Rattle.residual_classes.specs.Classes.{class_of};
ghost use Rattle.residual_classes.specs.Outputs.{bits_of};

use digit_tuple::dfa::Dfa;
use digit_tuple::faults::OutOfMemory;
use std::alloc::Global;

/// An automaton, and an output of each of its states.
#[derive(Clone, Copy)]
pub struct Machine<'a> {
    pub dfa: &'a Dfa,
    pub outputs: &'a [u32],
}

impl Machine<'_> {
    /// The output of a state; that of the sink is 0.
    pub fn output(&self, state: u32) -> u32
        ensures { result ≡ class_of self.now.outputs.now state }
    {
        output_of(self.outputs, state)
    }
}

/// The output of a state, 0 past the states.
pub fn output_of(outputs: &[u32], state: u32) -> u32
    ensures { result ≡ class_of outputs.now state }
{
    if (state as usize) < outputs.len() {
        outputs[state as usize]
    } else {
        0
    }
}

/// For each state 1 where it accepts, and 0 elsewhere.
pub fn accepting_outputs(alloc: Global, dfa: &Dfa) -> Result<Vec<u32>, OutOfMemory>
    ensures { IfOk result (λ outputs. outputs.items ≡ bits_of dfa.now) }
{
    let states = dfa.states();
    let mut outputs = Vec::with_capacity(alloc, states as usize)?;
    for state in 0..states {
        outputs.push(u32::from(dfa.accepting(state)))?;
    }
    Ok(outputs)
}
