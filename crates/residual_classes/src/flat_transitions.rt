//! The transitions of an automaton in one flat table of six bytes a transition and four a state, for passes over all of them.
//! Where each state has a transition by each letter, a transition takes four.

ghost use Rattle.std.specs.Prelude.{◌≡◌, ◌*◌, ◌<◌, ◌++◌, map, IfOk, OnOk, IsTrue};
ghost use Rattle.digit_tuple.specs.Deterministic.{Automaton, transitions_of, letters_of, states_of};
ghost use Rattle.digit_tuple.specs.TransitionCounts.{transition_count};
ghost use Rattle.residual_classes.specs.FlatTransitions.{AreFlat};

use crate::transition_letters::TransitionLetters;
use digit_tuple::dfa::Dfa;
use digit_tuple::faults::OutOfMemory;
use digit_tuple::transitions::Transition;
use std::alloc::Global;

/// The transitions of all states, state by state, fewer than 2^32.
#[derive(Drop)]
pub struct FlatTransitions {
    /// Where the transitions of each state begin, and last where all end.
    pub starts: Vec<u32>,
    /// The letter of each transition.
    pub letters: TransitionLetters,
    /// Where each transition leads.
    pub targets: Vec<u32>,
}

impl FlatTransitions {
    /// The transitions of the automaton. OutOfMemory comes too where there are 2^32, which would take 24 gigabytes.
    /// Time and memory follow the states and the transitions.
    pub fn new(alloc: Global, dfa: &Dfa) -> Result<Self, OutOfMemory>
        ensures { IfOk result (AreFlat dfa.now) }
    {
        // Letters have 16 bits, since an alphabet has no more.
        let _alphabet = dfa.alphabet().sizes();
        let states = dfa.states();
        let count = dfa.transitions() as usize;
        if count > u32::MAX as usize {
            return Err(OutOfMemory);
        }
        let mut starts = Vec::with_capacity(alloc, states as usize + 1)?;
        let mut letters = TransitionLetters::new(alloc, is_full(dfa), count)?;
        let mut targets = Vec::with_capacity(alloc, count)?;
        let mut transitions = Vec::new(alloc);
        starts.push(0)?;
        for state in 0..states {
            dfa.transitions_into(state, &mut transitions)?;
            letters.add(&transitions)?;
            add_targets(&transitions, &mut targets)?;
            starts.push(targets.len() as u32)?;
        }
        Ok(FlatTransitions {
            starts,
            letters,
            targets,
        })
    }

    /// Writes the transitions of a state in place of what the buffer held.
    pub fn transitions_into(&self, state: u32, row: &mut Vec<Transition>) -> Result<(), OutOfMemory>
        requires { (d : Automaton) × AreFlat d self.now × (state < states_of d) }
        ensures { OnOk result ((d : Automaton) → AreFlat d self.now → state < states_of d → row.new.items ≡ transitions_of d state) }
    {
        row.clear();
        let start = self.starts[state as usize] as usize;
        let end = self.starts[state as usize + 1] as usize;
        for place in start..end {
            row.push(Transition {
                letter: self.letters.letter(start, place),
                target: self.targets[place],
            })?;
        }
        Ok(())
    }
}

// Whether each state has a transition by each letter.
fn is_full(dfa: &Dfa) -> bool
    ensures { IsTrue result → transition_count dfa.now ≡ states_of dfa.now * letters_of dfa.now }
{
    let letters = dfa.alphabet().letters();
    dfa.transitions() == u64::from(dfa.states()) * u64::from(letters)
}

// Adds the targets of transitions.
fn add_targets(transitions: &[Transition], targets: &mut Vec<u32>) -> Result<(), OutOfMemory>
    ensures { OnOk result (targets.new.items ≡ targets.old.items ++ map (λ transition. transition.target) transitions.now) }
{
    for transition in transitions {
        targets.push(transition.target)?;
    }
    Ok(())
}
