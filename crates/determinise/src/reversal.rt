//! The reversal of a deterministic automaton.

ghost use Rattle.std.specs.Prelude.{◌≡◌, ◌≢◌, ℕ, ◌+◌, ◌≤◌, ◌++◌, ◌∷◌, [], List, reverse, IfOk, false, take};
ghost use Rattle.std.specs.Result.{IsErrOf};
ghost use Rattle.digit_tuple.specs.Deterministic.{IsTable, accepts_of, states_of, letters_of};
ghost use Rattle.digit_tuple.specs.FirstWords.{IsNumberedByFirsts};
ghost use Rattle.digit_tuple.specs.Letters.{product, IsWord};
ghost use Rattle.digit_tuple.specs.Width.{HasApart, HasWidth};
ghost use Rattle.digit_tuple.specs.AcceptingStates.{AreAccepting};
ghost use Rattle.determinise.specs.Reversed.{SameReversedResidual};

use crate::subset_exploration::explore_subsets;
use crate::trimmed::trimmed;
use digit_tuple::accepting_states::accepting_states;
use digit_tuple::dfa::Dfa;
use digit_tuple::faults::OpFault;
use digit_tuple::limit::Limit;
use digit_tuple::no_words::no_words_within;
use digit_tuple::reversed::reversed;
use digit_tuple::stepped::Stepped;
use std::alloc::Global;

/// A deterministic automaton that accepts the reversed words. The width is the number of residuals of its language, the
/// empty one among them where it occurs: two words are alike after which the same words are accepted. No state is
/// listed for the empty residual, unless nothing is accepted. `States` comes if and only if the width passes the limit,
/// and `Letters` never.
pub fn reverse(alloc: Global, d: &Dfa, limit: Limit<'_>) -> Result<Stepped<Dfa>, OpFault>
    ensures sizes { IfOk result (λ stepped. stepped.result.sizes ≡ d.now.sizes) }
    ensures table { IfOk result (λ stepped. IsTable (letters_of stepped.result) stepped.result.states) }
    ensures language { IfOk result (λ stepped. (word : List ℕ) → IsWord (letters_of d.now) word
        → accepts_of stepped.result word ≡ accepts_of d.now (reverse word)) }
    ensures width { IfOk result (λ stepped. HasWidth (SameReversedResidual d.now) (letters_of d.now) stepped.width) }
    ensures size { IfOk result (λ stepped. states_of stepped.result ≤ stepped.width) }
    ensures within { IfOk result (λ stepped. stepped.width ≤ limit.entry.most) }
    ensures states { IsErrOf result OpFault.States → HasApart (SameReversedResidual d.now) (letters_of d.now) (limit.entry.most + 1) }
    ensures letters { ¬ IsErrOf result OpFault.Letters }
{
    let reachable = trimmed(alloc, d)?;
    let alphabet = d.alphabet().copy(alloc)?;
    let first = accepting_states(alloc, &reachable)?;
    if first.is_empty() {
        return no_words_within(alloc, alphabet, limit);
    }
    let nfa = reversed(alloc, &reachable)?;
    explore_subsets(alloc, &nfa, &first, alphabet, limit)
}
