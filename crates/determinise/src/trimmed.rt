//! Deterministic automata without the states that no word leads to.

ghost use Rattle.std.specs.Prelude.{◌≡◌, ℕ, ◌<◌, [], ◌∷◌, List, length, slice_index, IfOk};
ghost use Rattle.digit_tuple.specs.Deterministic.{IsTable, accepts_of, letters_of};
ghost use Rattle.digit_tuple.specs.FirstWords.{IsNumberedByFirsts};
ghost use Rattle.digit_tuple.specs.Letters.{product, IsWord};
ghost use Rattle.determinise.specs.Trimmed.{IsStateKey, state_after, state_accepts, start_is_state_key, after_is_state_key};

use digit_tuple::dfa::Dfa;
use digit_tuple::exploration::explore;
use digit_tuple::faults::OutOfMemory;
use digit_tuple::key_graph::KeyGraph;
use digit_tuple::key_transitions::KeyTransitions;
use digit_tuple::limit::Limit;
use std::alloc::Global;

/// The states that words lead to, each alone.
#[derive(Clone, Copy)]
pub struct States<'a> {
    pub dfa: &'a Dfa,
}

impl KeyGraph for States<'_> {
    ghost letters = { λ s. letters_of s.dfa.now };

    ghost is_graph = { λ s. IsTable (letters_of s.dfa.now) s.dfa.now.states };

    ghost is_key = { λ s. IsStateKey s.dfa.now };

    ghost start = { λ s. 0 ∷ [] };

    ghost after = { λ s. state_after s.dfa.now };

    ghost accepts = { λ s. state_accepts s.dfa.now };

    ghost start_is_key = { λ s table. start_is_state_key s.dfa.now table };

    ghost after_is_key = { λ s key letter table is small. after_is_state_key s.dfa.now key letter table is };

    fn first_key(&self, alloc: Global) -> Result<Vec<u32>, OutOfMemory> {
        Ok(vec![in alloc; 0]?)
    }

    fn transitions(
        &self,
        alloc: Global,
        key: &[u32],
        out: &mut KeyTransitions,
    ) -> Result<(), OutOfMemory> {
        let mut row = Vec::new(alloc);
        self.dfa.transitions_into(key[0], &mut row)?;
        for transition in &row {
            out.push(transition.letter, &[transition.target])?;
        }
        Ok(())
    }

    fn is_accepting(&self, key: &[u32]) -> bool {
        self.dfa.accepting(key[0])
    }
}

/// The automaton without the states that no word leads to, numbered by the first words that lead to
/// them.
pub fn trimmed(alloc: Global, d: &Dfa) -> Result<Dfa, OutOfMemory>
    ensures sizes { IfOk result (λ dfa. dfa.sizes ≡ d.now.sizes) }
    ensures table { IfOk result (λ dfa. IsTable (letters_of dfa) dfa.states) }
    ensures numbered { IfOk result (λ dfa. (firsts : List (List ℕ)) × IsNumberedByFirsts dfa firsts) }
    ensures language { IfOk result (λ dfa. (word : List ℕ) → IsWord (letters_of d.now) word → accepts_of dfa word ≡ accepts_of d.now word) }
{
    let alphabet = d.alphabet().copy(alloc)?;
    match explore(alloc, &States { dfa: d }, alphabet, Limit::none()) {
        Ok(stepped) => Ok(stepped.result),
        Err(_) => Err(OutOfMemory),
    }
}
