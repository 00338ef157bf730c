//! The sets of states that words lead to, as bits.

ghost use Rattle.std.specs.Prelude.{◌≤◌, refl};
ghost use Rattle.digit_tuple.specs.Automaton.{letters_of, states_of};
ghost use Rattle.determinise.specs.Bits.{bits_of};
ghost use Rattle.determinise.specs.BitRows.{AreBitRows, words_of};
ghost use Rattle.determinise.specs.BitSubsets.{IsStateBits, bits_after, bits_accept, after_is_state_bits};
ghost use Rattle.determinise.specs.Subsets.{IsStateSet};

use crate::bit_rows::{BitRows, unite};
use crate::bit_words::{bits_of, meet};
use digit_tuple::faults::OutOfMemory;
use digit_tuple::key_graph::KeyGraph;
use digit_tuple::key_transitions::KeyTransitions;
use digit_tuple::nfa::Nfa;
use std::alloc::Global;

/// The most states of which sets are keys as bits.
pub const MOST_STATES: u32 = 512;

/// The sets of states that words lead to from the states of a first set, each as bits of as many
/// words as the states take. There are at most 512 states. The empty set is no key.
#[derive(Clone, Copy)]
pub struct BitSubsets<'a> {
    pub nfa: &'a Nfa,
    pub first: &'a [u32],
    pub rows: &'a BitRows,
}

impl KeyGraph for BitSubsets<'_> {
    ghost letters = { λ s. letters_of s.nfa.now };

    ghost is_graph = { λ s. IsStateSet s.nfa.now s.first.now × AreBitRows s.nfa.now s.rows.now × (states_of s.nfa.now ≤ 512) };

    ghost is_key = { λ s. IsStateBits s.nfa.now };

    ghost start = { λ s. bits_of (words_of (states_of s.nfa.now)) s.first.now };

    ghost after = { λ s. bits_after s.nfa.now };

    ghost accepts = { λ s. bits_accept s.nfa.now };

    ghost start_is_key = { λ s graph. record { set = s.first.now; is_set = graph.0; bits = refl } };

    ghost after_is_key = { λ s key letter graph is_key small. after_is_state_bits s.nfa.now key letter };

    fn first_key(&self, alloc: Global) -> Result<Vec<u32>, OutOfMemory> {
        bits_of(alloc, self.rows.width as usize, self.first)
    }

    fn transitions(
        &self,
        alloc: Global,
        key: &[u32],
        out: &mut KeyTransitions,
    ) -> Result<(), OutOfMemory> {
        let rows = self.rows;
        let room = rows.letters as usize * rows.width as usize;
        let mut words = out.take_spare(alloc);
        unite(&rows.rows, room, key, &mut words)?;
        out.lead_to_parts(words, rows.letters, rows.width)
    }

    fn is_accepting(&self, key: &[u32]) -> bool {
        meet(key, &self.rows.accepting)
    }
}
