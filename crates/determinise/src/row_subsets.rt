//! The sets of states that words lead to, as lists, with transitions from rows of bits.

ghost use Rattle.digit_tuple.specs.Automaton.{letters_of};
ghost use Rattle.determinise.specs.BitRows.{AreBitRows};
ghost use Rattle.determinise.specs.Subsets.{IsStateSet, set_after, has_accepting};
ghost use Rattle.determinise.specs.SubsetLaws.{after_is_state_set};

use crate::bit_members::push_member_letters;
use crate::bit_rows::{BitRows, gather, row_words};
use crate::subsets::Subsets;
use digit_tuple::faults::OutOfMemory;
use digit_tuple::key_graph::KeyGraph;
use digit_tuple::key_transitions::KeyTransitions;
use digit_tuple::nfa::Nfa;
use std::alloc::Global;

// For so many words of bits that have to be looked at, a transition may as well be gathered by its letter.
const WORDS_FOR_A_TRANSITION: usize = 8;

/// The sets of states that words lead to from the states of a first set, each as the list of its states in order. The
/// transitions from a set are gathered as bits of all letters together, unless they are few. The empty set is no key.
#[derive(Clone, Copy)]
pub struct RowSubsets<'a> {
    pub nfa: &'a Nfa,
    pub first: &'a [u32],
    pub rows: &'a BitRows,
}

impl KeyGraph for RowSubsets<'_> {
    ghost letters = { λ s. letters_of s.nfa.now };

    ghost is_graph = { λ s. IsStateSet s.nfa.now s.first.now × AreBitRows s.nfa.now s.rows.now };

    ghost is_key = { λ s. IsStateSet s.nfa.now };

    ghost start = { λ s. s.first.now };

    ghost after = { λ s. set_after s.nfa.now };

    ghost accepts = { λ s. has_accepting s.nfa.now };

    ghost start_is_key = { λ s graph. graph.0 };

    ghost after_is_key = { λ s key letter graph is_set small. after_is_state_set s.nfa.now key letter };

    fn first_key(&self, alloc: Global) -> Result<Vec<u32>, OutOfMemory> {
        Ok(Vec::from_slice(alloc, self.first)?)
    }

    fn transitions(
        &self,
        alloc: Global,
        key: &[u32],
        out: &mut KeyTransitions,
    ) -> Result<(), OutOfMemory> {
        let rows = self.rows;
        let room = rows.letters as usize * rows.width as usize;
        if room / WORDS_FOR_A_TRANSITION > row_words(&rows.rows, key) {
            let subsets = Subsets {
                nfa: self.nfa,
                first: self.first,
            };
            return subsets.transitions(alloc, key, out);
        }
        let mut words = out.take_spare(alloc);
        gather(&rows.rows, room, key, &mut words)?;
        push_member_letters(alloc, &words, rows.letters, rows.width, out)?;
        out.give_spare(words);
        Ok(())
    }

    fn is_accepting(&self, key: &[u32]) -> bool {
        key.iter().any(|state| self.nfa.is_accepting(*state))
    }
}
