//! The automaton whose states are classes, as a graph of keys.

ghost use Rattle.std.specs.Prelude.{◌≡◌, ◌<◌, ◌++◌, [], ◌∷◌, length, map, IfOk, OnOk};
ghost use Rattle.std.specs.List.{All};
ghost use Rattle.digit_tuple.specs.Deterministic.{letters_of};
ghost use Rattle.residual_classes.specs.Classes.{class_of};
ghost use Rattle.residual_classes.specs.ClassTransitions.{class_transitions};
ghost use Rattle.minimise.specs.Quotient.{IsQuotient, IsClass, next_class, class_accepts, key_transition, key_output};
ghost use Rattle.minimise.specs.QuotientLaws.{start_is_class, next_class_is_class};

use digit_tuple::dfa::Dfa;
use digit_tuple::faults::OutOfMemory;
use digit_tuple::key_graph::KeyGraph;
use digit_tuple::key_transitions::KeyTransitions;
use digit_tuple::transitions::Transition;
use std::alloc::Global;

// Memory for so many transitions is taken at once, as of an alphabet of no more letters most may lead on.
const FEW_LETTERS: usize = 32;

/// The outputs of an automaton's states, the classes of these and its sink, and a state of each class. A key is a class
/// other than the dead one, or the initial state's.
#[derive(Clone, Copy)]
pub struct Quotient<'a> {
    pub dfa: &'a Dfa,
    pub outputs: &'a [u32],
    pub classes: &'a [u32],
    pub leaders: &'a [u32],
}

impl KeyGraph for Quotient<'_> {
    ghost letters = { λ g. letters_of g.dfa.now };

    ghost is_graph = { λ g. IsQuotient g.dfa.now g.outputs.now g.classes.now g.leaders.now };

    ghost is_key = { λ g. IsClass g.dfa.now g.classes.now g.leaders.now };

    ghost start = { λ g. class_of g.classes.now 0 ∷ [] };

    ghost after = { λ g. next_class g.dfa.now g.classes.now g.leaders.now };

    ghost accepts = { λ g. class_accepts g.outputs.now g.leaders.now };

    ghost start_is_key = { λ g quotient. start_is_class g.dfa.now g.outputs.now g.classes.now g.leaders.now quotient };

    ghost after_is_key = { λ g key letter quotient is_class small. next_class_is_class g.dfa.now g.outputs.now g.classes.now g.leaders.now quotient key letter is_class };

    fn first_key(&self, alloc: Global) -> Result<Vec<u32>, OutOfMemory> {
        Ok(vec![in alloc; self.classes[0]]?)
    }

    fn transitions(
        &self,
        alloc: Global,
        key: &[u32],
        out: &mut KeyTransitions,
    ) -> Result<(), OutOfMemory> {
        let state = self.leaders[key[0] as usize];
        let letters = self.dfa.alphabet().letters() as usize;
        let mut transitions = Vec::with_capacity(alloc, letters.min(FEW_LETTERS))?;
        self.dfa.transitions_into(state, &mut transitions)?;
        let dead = self.classes[self.dfa.states() as usize];
        add_key_transitions(&transitions, self.classes, dead, out)
    }

    fn is_accepting(&self, key: &[u32]) -> bool {
        self.output(key) != 0
    }
}

impl Quotient<'_> {
    /// The output of the states of the class.
    pub fn output(&self, key: &[u32]) -> u32
        requires graph { IsQuotient self.now.dfa.now self.now.outputs.now self.now.classes.now self.now.leaders.now }
        requires key { IsClass self.now.dfa.now self.now.classes.now self.now.leaders.now key.now }
        ensures { result ≡ key_output self.now.outputs.now self.now.leaders.now key.now }
    {
        self.outputs[self.leaders[key[0] as usize] as usize]
    }
}

// Adds the transitions to classes other than the dead one, each with its class for a key.
fn add_key_transitions(
    transitions: &[Transition],
    classes: &[u32],
    dead: u32,
    out: &mut KeyTransitions,
) -> Result<(), OutOfMemory>
    requires { All (λ transition. transition.target < length classes.now) transitions.now }
    ensures { OnOk result (out.new ≡ out.old ++ map key_transition (class_transitions classes.now dead transitions.now)) }
{
    for transition in transitions {
        let class = classes[transition.target as usize];
        if class != dead {
            out.push(transition.letter, &[class])?;
        }
    }
    Ok(())
}
