//! The transitions of a state between classes.

ghost use Rattle.std.specs.Prelude.{◌≡◌, ◌+◌, ◌<◌, ◌++◌, [], length, OnOk};
ghost use Rattle.std.specs.List.{All};
ghost use Rattle.digit_tuple.specs.Deterministic.{transitions_of, states_of};
ghost use Rattle.residual_classes.specs.Classes.{dead_class};
ghost use Rattle.residual_classes.specs.ClassTransitions.{class_transitions};

use digit_tuple::dfa::Dfa;
use digit_tuple::faults::OutOfMemory;
use digit_tuple::transitions::Transition;
use std::alloc::Global;
use std::marker::Model;

/// The transitions of a state to classes other than the sink's, each with the class that it leads to for its target, in
/// a buffer that is used again.
#[derive(Drop)]
pub struct ClassRow {
    transitions: Vec<Transition>,
    row: Vec<Transition>,
}

impl Model for ClassRow {
    ghost use Rattle.std.specs.Prelude.{List};
    ghost use Rattle.digit_tuple.specs.declared.transitions.Transition.{Transition};

    ghost Value = { List Transition };

    ghost view = { λ r. r.row.items };
}

impl ClassRow {
    /// No transitions.
    pub fn new(alloc: Global) -> Self
        ensures { result ≡ [] }
    {
        ClassRow {
            transitions: Vec::new(alloc),
            row: Vec::new(alloc),
        }
    }

    /// The transitions.
    pub fn as_slice(&self) -> &[Transition]
        ensures { result.now ≡ self.now }
    {
        &self.row
    }

    /// Takes the transitions of a state, of which the sink has none, in place of those before.
    pub fn read(&mut self, dfa: &Dfa, classes: &[u32], state: u32) -> Result<(), OutOfMemory>
        requires { length classes.now ≡ states_of dfa.now + 1 }
        ensures { OnOk result (self.new ≡ class_transitions classes.now (dead_class dfa.now classes.now) (transitions_of dfa.now state)) }
    {
        self.row.clear();
        let states = dfa.states();
        if state >= states {
            return Ok(());
        }
        dfa.transitions_into(state, &mut self.transitions)?;
        add_class_transitions(
            &self.transitions,
            classes,
            classes[states as usize],
            &mut self.row,
        )
    }
}

// Adds the transitions to classes other than the dead one, each with its class for a target.
fn add_class_transitions(
    transitions: &[Transition],
    classes: &[u32],
    dead: u32,
    row: &mut Vec<Transition>,
) -> Result<(), OutOfMemory>
    requires { All (λ transition. transition.target < length classes.now) transitions.now }
    ensures { OnOk result (row.new.items ≡ row.old.items ++ class_transitions classes.now dead transitions.now) }
{
    for transition in transitions {
        let class = classes[transition.target as usize];
        if class != dead {
            row.push(Transition {
                letter: transition.letter,
                target: class,
            })?;
        }
    }
    Ok(())
}
