//! The classes that words have from each state, as a graph of keys.

ghost use Rattle.std.specs.Prelude.{◌≡◌, [], map, OnOk};
ghost use Rattle.digit_tuple.specs.Deterministic.{letters_of};
ghost use Rattle.residual_classes.specs.Classes.{class_of};
ghost use Rattle.class_reversal.specs.BackwardClasses.{AreTargets, HasStateClasses, classes_back, has_class};
ghost use Rattle.class_reversal.specs.BackwardLaws.{back_has_state_classes};

use digit_tuple::dfa::Dfa;
use digit_tuple::faults::OutOfMemory;
use digit_tuple::key_graph::KeyGraph;
use digit_tuple::key_transitions::KeyTransitions;
use std::alloc::Global;

/// The classes that words have from each state of an automaton, with where its letters lead. The first key is the
/// classes of the states; a letter leads from a key to the class that it gives at each state's target, and 0 where
/// there is none. Zeros alone are no key.
#[derive(Clone, Copy)]
pub struct BackwardClasses<'a> {
    pub dfa: &'a Dfa,
    pub classes: &'a [u32],
    pub targets: &'a [u32],
}

impl KeyGraph for BackwardClasses<'_> {
    ghost letters = { λ g. letters_of g.dfa.now };

    ghost is_graph = { λ g. HasStateClasses g.dfa.now g.classes.now × AreTargets g.dfa.now g.targets.now };

    ghost is_key = { λ g. HasStateClasses g.dfa.now };

    ghost start = { λ g. g.classes.now };

    ghost after = { λ g. classes_back g.dfa.now };

    ghost accepts = { λ g. has_class };

    ghost start_is_key = { λ g graph. graph.0 };

    ghost after_is_key = { λ g key letter graph is_key small. back_has_state_classes g.dfa.now key letter };

    fn first_key(&self, alloc: Global) -> Result<Vec<u32>, OutOfMemory> {
        Ok(Vec::from_slice(alloc, self.classes)?)
    }

    fn transitions(
        &self,
        alloc: Global,
        key: &[u32],
        out: &mut KeyTransitions,
    ) -> Result<(), OutOfMemory> {
        let mut classes = out.take_spare(alloc);
        push_classes(key, self.targets, &mut classes)?;
        let letters = self.dfa.alphabet().letters();
        out.lead_to_parts(classes, letters, self.dfa.states())
    }

    fn is_accepting(&self, key: &[u32]) -> bool {
        class_at(key, 0) != 0
    }
}

// Adds the class that a key gives to each of the states.
fn push_classes(key: &[u32], states: &[u32], classes: &mut Vec<u32>) -> Result<(), OutOfMemory>
    requires { classes.old.items ≡ [] }
    ensures { OnOk result (classes.new.items ≡ map (class_of key.now) states.now) }
{
    for state in states {
        classes.push(class_at(key, *state))?;
    }
    Ok(())
}

/// The class that a key gives to a state, and 0 to the sink.
pub fn class_at(key: &[u32], state: u32) -> u32
    ensures { result ≡ class_of key.now state }
{
    match key.get(state as usize) {
        Some(class) => *class,
        None => 0,
    }
}
