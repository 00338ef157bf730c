//! The exploration of sets of states.

ghost use Rattle.std.specs.Prelude.{◌≡◌, ℕ, ◌+◌, ◌≤◌, List, IfOk};
ghost use Rattle.std.specs.Result.{IsErrOf};
ghost use Rattle.digit_tuple.specs.Automaton.{letters_of, states_of};
ghost use Rattle.digit_tuple.specs.Deterministic as det;
ghost use Rattle.digit_tuple.specs.Deterministic.{IsTable, accepts_of};
ghost use Rattle.digit_tuple.specs.FirstWords.{IsNumberedByFirsts};
ghost use Rattle.digit_tuple.specs.Keys.{LeadAlike, key_accepts};
ghost use Rattle.digit_tuple.specs.Letters.{product, IsWord};
ghost use Rattle.digit_tuple.specs.Width.{HasApart, HasWidth};
ghost use Rattle.determinise.specs.BitRows.{AreBitRows};
ghost use Rattle.determinise.specs.Subsets.{IsStateSet, set_after, has_accepting};

use crate::bit_rows::{BitRows, has_few_words, is_dense};
use crate::bit_subsets::{BitSubsets, MOST_STATES};
use crate::row_subsets::RowSubsets;
use crate::subsets::Subsets;
use digit_tuple::alphabet::Alphabet;
use digit_tuple::dfa::Dfa;
use digit_tuple::exploration::explore;
use digit_tuple::faults::OpFault;
use digit_tuple::limit::Limit;
use digit_tuple::nfa::Nfa;
use digit_tuple::stepped::Stepped;
use std::alloc::Global;

/// The automaton whose states are the sets of states that words lead to from a first set, numbered in the order of the
/// first words that lead to them, but the empty set is not listed. The width is the number of kinds of words, where two
/// are alike that lead to one set, or both to none. `States` comes if and only if the width passes the limit, and
/// `Letters` never.
///
/// Keys are sets as bits where there are at most 512 states with many transitions, and else lists of states. The
/// transitions from a key are gathered as bits, one set for each letter, where these take at most 32,768 words
/// together, and from a list only where these words are not many more than its members' transitions; else they are
/// gathered letter by letter.
pub fn explore_subsets(
    alloc: Global,
    nfa: &Nfa,
    first: &[u32],
    alphabet: Alphabet,
    limit: Limit<'_>,
) -> Result<Stepped<Dfa>, OpFault>
    requires first { IsStateSet nfa.now first.now }
    requires letters { letters_of nfa.now ≡ product alphabet }
    ensures sizes { IfOk result (λ stepped. stepped.result.sizes ≡ alphabet) }
    ensures table { IfOk result (λ stepped. IsTable (det.letters_of stepped.result) stepped.result.states) }
    ensures numbered { IfOk result (λ stepped. (firsts : List (List ℕ)) × IsNumberedByFirsts stepped.result firsts) }
    ensures language { IfOk result (λ stepped. (word : List ℕ) → IsWord (letters_of nfa.now) word
        → accepts_of stepped.result word ≡ key_accepts (set_after nfa.now) (has_accepting nfa.now) first.now word) }
    ensures width { IfOk result (λ stepped. HasWidth (LeadAlike (set_after nfa.now) first.now) (letters_of nfa.now) stepped.width) }
    ensures size { IfOk result (λ stepped. det.states_of stepped.result ≤ stepped.width) }
    ensures within { IfOk result (λ stepped. stepped.width ≤ limit.entry.most) }
    ensures states { IsErrOf result OpFault.States → HasApart (LeadAlike (set_after nfa.now) first.now) (letters_of nfa.now) (limit.entry.most + 1) }
    ensures no_letters { ¬ IsErrOf result OpFault.Letters }
{
    if !has_few_words(nfa) {
        return explore(alloc, &Subsets { nfa, first }, alphabet, limit);
    }
    let rows = &BitRows::of(alloc, nfa)?;
    if nfa.states() <= MOST_STATES && is_dense(nfa) {
        explore_bits(alloc, &BitSubsets { nfa, first, rows }, alphabet, limit)
    } else {
        explore(alloc, &RowSubsets { nfa, first, rows }, alphabet, limit)
    }
}

// The exploration of sets that are kept as bits.
fn explore_bits(
    alloc: Global,
    subsets: &BitSubsets<'_>,
    alphabet: Alphabet,
    limit: Limit<'_>,
) -> Result<Stepped<Dfa>, OpFault>
    requires few { states_of subsets.now.nfa.now ≤ 512 }
    requires first { IsStateSet subsets.now.nfa.now subsets.now.first.now }
    requires rows { AreBitRows subsets.now.nfa.now subsets.now.rows.now }
    requires letters { letters_of subsets.now.nfa.now ≡ product alphabet }
    ensures sizes { IfOk result (λ stepped. stepped.result.sizes ≡ alphabet) }
    ensures table { IfOk result (λ stepped. IsTable (det.letters_of stepped.result) stepped.result.states) }
    ensures numbered { IfOk result (λ stepped. (firsts : List (List ℕ)) × IsNumberedByFirsts stepped.result firsts) }
    ensures language { IfOk result (λ stepped. (word : List ℕ) → IsWord (letters_of subsets.now.nfa.now) word
        → accepts_of stepped.result word ≡ key_accepts (set_after subsets.now.nfa.now) (has_accepting subsets.now.nfa.now) subsets.now.first.now word) }
    ensures width { IfOk result (λ stepped.
        HasWidth (LeadAlike (set_after subsets.now.nfa.now) subsets.now.first.now) (letters_of subsets.now.nfa.now) stepped.width) }
    ensures size { IfOk result (λ stepped. det.states_of stepped.result ≤ stepped.width) }
    ensures within { IfOk result (λ stepped. stepped.width ≤ limit.entry.most) }
    ensures states { IsErrOf result OpFault.States
        → HasApart (LeadAlike (set_after subsets.now.nfa.now) subsets.now.first.now) (letters_of subsets.now.nfa.now) (limit.entry.most + 1) }
    ensures no_letters { ¬ IsErrOf result OpFault.Letters }
{
    explore(alloc, subsets, alphabet, limit)
}
