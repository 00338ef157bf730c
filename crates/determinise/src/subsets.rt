//! The sets of states that words lead to, as a graph of keys.

ghost use Rattle.std.specs.Prelude.{◌≡◌, ℕ, ◌<◌, ◌↔◌, [], ◌∷◌, IfOk};
ghost use Rattle.std.specs.List.{All, AllPairs, Contains};
ghost use Rattle.digit_tuple.specs.Automaton.{IsBranchTable, IsBefore, letters_of, states_of, transitions_of};
ghost use Rattle.digit_tuple.specs.declared.transitions.Transition.{Transition};
ghost use Rattle.determinise.specs.Subsets.{IsStateSet, set_after, has_accepting};
ghost use Rattle.determinise.specs.SubsetLaws.{after_is_state_set};

use crate::transition_order::in_order;
use digit_tuple::blanks::Blanks;
use digit_tuple::faults::OutOfMemory;
use digit_tuple::groups::group_into;
use digit_tuple::key_graph::KeyGraph;
use digit_tuple::key_transitions::KeyTransitions;
use digit_tuple::nfa::Nfa;
use digit_tuple::transitions::Transition;
use std::alloc::Global;

/// The sets of states that words lead to from the states of a first set, each as the list of its
/// states in order. The empty set is no key.
#[derive(Clone, Copy)]
pub struct Subsets<'a> {
    pub nfa: &'a Nfa,
    pub first: &'a [u32],
}

impl KeyGraph for Subsets<'_> {
    ghost letters = { λ s. letters_of s.nfa.now };

    ghost is_graph = { λ s. IsBranchTable (letters_of s.nfa.now) s.nfa.now.states × IsStateSet s.nfa.now s.first.now };

    ghost is_key = { λ s. IsStateSet s.nfa.now };

    ghost start = { λ s. s.first.now };

    ghost after = { λ s. set_after s.nfa.now };

    ghost accepts = { λ s. has_accepting s.nfa.now };

    ghost start_is_key = { λ s graph. graph.1 };

    ghost after_is_key = { λ s key letter graph is_set small. after_is_state_set s.nfa.now key letter };

    fn first_key(&self, alloc: Global) -> Result<Vec<u32>, OutOfMemory> {
        Ok(Vec::from_slice(alloc, self.first)?)
    }

    fn transitions(
        &self,
        alloc: Global,
        key: &[u32],
        out: &mut KeyTransitions,
    ) -> Result<(), OutOfMemory> {
        if key.len() == 1 {
            return group_into(self.nfa.transitions(key[0]), out);
        }
        let mut blanks = out.take_blanks(alloc);
        let transitions = transitions_from(alloc, self.nfa, key, &mut blanks)?;
        out.give_blanks(blanks);
        group_into(&transitions, out)
    }

    fn is_accepting(&self, key: &[u32]) -> bool {
        key.iter().any(|state| self.nfa.is_accepting(*state))
    }
}

// The transitions from the states, in order, none twice.
fn transitions_from(
    alloc: Global,
    nfa: &Nfa,
    set: &[u32],
    blanks: &mut Blanks,
) -> Result<Vec<Transition>, OutOfMemory>
    requires { All (λ q. q < states_of nfa.now) set.now }
    ensures ascending { IfOk result (λ transitions. AllPairs IsBefore transitions.items) }
    ensures members { IfOk result (λ transitions. (transition : Transition) → Contains transitions.items transition ↔ ((p : ℕ) × Contains set.now p × Contains (transitions_of nfa.now p) transition)) }
{
    let mut transitions = Vec::with_capacity(alloc, transition_count(nfa, set))?;
    for state in set {
        transitions.extend_from_slice(nfa.transitions(*state))?;
    }
    in_order(
        alloc,
        &transitions,
        nfa.alphabet().letters(),
        nfa.states(),
        blanks,
    )
}

// How many transitions the states have together.
fn transition_count(nfa: &Nfa, set: &[u32]) -> usize
    requires { All (λ q. q < states_of nfa.now) set.now }
{
    let mut count: usize = 0;
    for state in set {
        count = count.saturating_add(nfa.transitions(*state).len());
    }
    count
}
