//! The subset construction.

ghost use Rattle.std.specs.Prelude.{◌≡◌, ℕ, ◌+◌, ◌≤◌, ◌↔◌, List, IfOk, IsTrue};
ghost use Rattle.std.specs.Result.{IsErrOf};
ghost use Rattle.digit_tuple.specs.Automaton.{Accepts, letters_of};
ghost use Rattle.digit_tuple.specs.Deterministic.{IsTable, accepts_of, states_of};
ghost use Rattle.digit_tuple.specs.FirstWords.{IsNumberedByFirsts};
ghost use Rattle.digit_tuple.specs.Letters.{product, IsWord};
ghost use Rattle.digit_tuple.specs.Width.{HasApart, HasWidth};
ghost use Rattle.determinise.specs.Subsets.{Alike};

use crate::subset_exploration::explore_subsets;
use digit_tuple::dfa::Dfa;
use digit_tuple::faults::OpFault;
use digit_tuple::limit::Limit;
use digit_tuple::nfa::Nfa;
use digit_tuple::stepped::Stepped;
use std::alloc::Global;

/// A deterministic automaton with the language of the nondeterministic one. Its states are the sets of states that
/// words lead to, in the order of the first words that lead to them, but the empty set is not listed: a letter that
/// leads to it has no transition. The width is the number of sets that words lead to, the empty one among them where a
/// word leads to it. `States` comes if and only if the width passes the limit, and `Letters` never.
pub fn determinise(alloc: Global, n: &Nfa, limit: Limit<'_>) -> Result<Stepped<Dfa>, OpFault>
    ensures sizes { IfOk result (λ stepped. stepped.result.sizes ≡ n.now.sizes) }
    ensures table { IfOk result (λ stepped. IsTable (product n.now.sizes) stepped.result.states) }
    ensures language { IfOk result (λ stepped. (word : List ℕ) → IsWord (letters_of n.now) word
        → IsTrue (accepts_of stepped.result word) ↔ Accepts n.now word) }
    ensures numbered { IfOk result (λ stepped. (firsts : List (List ℕ)) × IsNumberedByFirsts stepped.result firsts) }
    ensures width { IfOk result (λ stepped. HasWidth (Alike n.now) (letters_of n.now) stepped.width) }
    ensures size { IfOk result (λ stepped. states_of stepped.result ≤ stepped.width) }
    ensures within { IfOk result (λ stepped. stepped.width ≤ limit.entry.most) }
    ensures states { IsErrOf result OpFault.States → HasApart (Alike n.now) (letters_of n.now) (limit.entry.most + 1) }
    ensures letters { ¬ IsErrOf result OpFault.Letters }
{
    let alphabet = n.alphabet().copy(alloc)?;
    explore_subsets(alloc, n, &[0], alphabet, limit)
}
