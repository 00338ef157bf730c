//! The keys of the step `join`.

ghost use Rattle.std.specs.Prelude.{◌≤◌, ◌∷◌, [], false};
ghost use Rattle.digit_tuple.specs.Deterministic.{IsTable, letters_of};
ghost use Rattle.residual_classes.specs.Classes.{first_of};
ghost use Rattle.base_change.specs.GroupKeys.{IsGroupKey, first_state_is_key, join_after, join_after_is_key};

use crate::digits::lead_digits;
use digit_tuple::dfa::Dfa;
use digit_tuple::faults::OutOfMemory;
use digit_tuple::key_graph::KeyGraph;
use digit_tuple::key_transitions::KeyTransitions;
use minimise::sink::initial_state;
use std::alloc::Global;

/// A key is the state that the digits of letters lead to, which may be the sink: an automaton over base `root` reads
/// each letter as its so many digits in that base.
#[derive(Clone, Copy)]
pub struct JoinKeys<'a> {
    pub dfa: &'a Dfa,
    pub root: u32,
    pub digits: u32,
    pub letters: u32,
}

impl KeyGraph for JoinKeys<'_> {
    ghost letters = { λ s. s.letters };

    ghost is_graph = { λ s. IsTable (letters_of s.dfa.now) s.dfa.now.states × (2 ≤ s.root) };

    ghost is_key = { λ s. IsGroupKey s.dfa.now s.root 1 };

    ghost start = { λ s. first_of s.dfa.now ∷ [] };

    ghost after = { λ s. join_after s.dfa.now s.root s.digits };

    ghost accepts = { λ s key. false };

    ghost start_is_key = { λ s graph. first_state_is_key s.dfa.now s.root };

    ghost after_is_key = { λ s key letter graph is small. join_after_is_key s.dfa.now s.root s.digits graph.0 key letter is };

    fn first_key(&self, alloc: Global) -> Result<Vec<u32>, OutOfMemory> {
        Ok(Vec::from_slice(alloc, &[initial_state(self.dfa)])?)
    }

    fn transitions(
        &self,
        _alloc: Global,
        key: &[u32],
        out: &mut KeyTransitions,
    ) -> Result<(), OutOfMemory> {
        for letter in 0..self.letters {
            let state = lead_digits(self.dfa, key[0], self.root, self.digits, letter);
            out.push(letter, &[state])?;
        }
        Ok(())
    }

    fn is_accepting(&self, _key: &[u32]) -> bool {
        false
    }
}
