//! Closure under trailing zeros.

ghost use Rattle.std.specs.Prelude.{◌≡◌, ℕ, ◌+◌, ◌≤◌, ◌↔◌, List, IfOk, IsTrue};
ghost use Rattle.std.specs.Result.{IsErrOf};
ghost use Rattle.digit_tuple.specs.Deterministic.{accepts_of, letters_of, states_of};
ghost use Rattle.digit_tuple.specs.Letters.{IsWord};
ghost use Rattle.digit_tuple.specs.Width.{HasApart, HasWidth};
ghost use Rattle.digit_tuple.specs.declared.direction.Direction.TheVariants.{Lsd};
ghost use Rattle.minimise.specs.Canonical.{IsCanonical};
ghost use Rattle.minimise.specs.Residuals.{IsDead};
ghost use Rattle.pad_rename.specs.Padding.{IsPadded, PaddedAlike};
ghost use Rattle.pad_rename.specs.PaddedPairs.{AreFinalFlags, KeepsAcceptance};

use crate::emptiness::accepts_nothing;
use crate::padded_pairs::PaddedPairs;
use crate::zero_closure::reached;
use digit_tuple::accepting_states::accepting_states;
use digit_tuple::alphabet::Alphabet;
use digit_tuple::dfa::Dfa;
use digit_tuple::exploration::explore;
use digit_tuple::faults::{OpFault, OutOfMemory};
use digit_tuple::limit::Limit;
use digit_tuple::no_words::no_words_within;
use digit_tuple::reversed::reversed;
use digit_tuple::stepped::Stepped;
use minimise::canonical_exploration::explore_canonical;
use minimise::sink::{is_accepting, next_state};
use std::alloc::Global;

// For each state whether zero letters lead from it to an accepting one. Each transition is looked at once.
fn final_flags(alloc: Global, a: &Dfa) -> Result<Vec<bool>, OutOfMemory>
    requires { IsCanonical a.now }
    ensures { IfOk result (λ flags. AreFinalFlags a.now flags.items) }
{
    let turned = reversed(alloc, a)?;
    let accepting = accepting_states(alloc, a)?;
    reached(alloc, &turned, &[true], &accepting)
}

/// The closure under trailing zeros. `pad` says more.
pub fn pad_lsd(alloc: Global, a: &Dfa, limit: Limit<'_>) -> Result<Stepped<Dfa>, OpFault>
    requires { IsCanonical a.now }
    ensures sizes { IfOk result (λ stepped. stepped.result.sizes ≡ a.now.sizes) }
    ensures canonical { IfOk result (λ stepped. IsCanonical stepped.result) }
    ensures language { IfOk result (λ stepped. (w : List ℕ) → IsWord (letters_of a.now) w
        → IsTrue (accepts_of stepped.result w) ↔ IsPadded Lsd a.now w) }
    ensures width { IfOk result (λ stepped. HasWidth (PaddedAlike Lsd a.now) (letters_of a.now) stepped.width) }
    ensures size { IfOk result (λ stepped. states_of stepped.result ≤ stepped.width) }
    ensures within { IfOk result (λ stepped. stepped.width ≤ limit.entry.most) }
    ensures states { IsErrOf result OpFault.States → HasApart (PaddedAlike Lsd a.now) (letters_of a.now) (limit.entry.most + 1) }
    ensures no_letters { ¬ IsErrOf result OpFault.Letters }
{
    let alphabet = a.alphabet().copy(alloc)?;
    if accepts_nothing(a) {
        no_words_within(alloc, alphabet, limit)
    } else if keeps_acceptance(a) {
        pad_itself(alloc, a, alphabet, limit)
    } else {
        explore_pairs(alloc, a, alphabet, limit)
    }
}

// Whether zeros after a word change nothing.
fn keeps_acceptance(a: &Dfa) -> bool
    ensures { IsTrue result ↔ KeepsAcceptance a.now }
{
    for state in 0..a.states() {
        let next = next_state(a, state, 0);
        if is_accepting(a, next) != a.accepting(state) {
            return false;
        }
    }
    true
}

// The closure of an automaton that is closed already: itself. Only the width is explored, and flags
// say nothing of it.
fn pad_itself(
    alloc: Global,
    a: &Dfa,
    alphabet: Alphabet,
    limit: Limit<'_>,
) -> Result<Stepped<Dfa>, OpFault>
    requires canonical { IsCanonical a.now }
    requires live { ¬ IsDead a.now 0 }
    requires closed { KeepsAcceptance a.now }
    requires alphabet { alphabet ≡ a.now.sizes }
    ensures sizes { IfOk result (λ stepped. stepped.result.sizes ≡ a.now.sizes) }
    ensures canonical { IfOk result (λ stepped. IsCanonical stepped.result) }
    ensures language { IfOk result (λ stepped. (w : List ℕ) → IsWord (letters_of a.now) w
        → IsTrue (accepts_of stepped.result w) ↔ IsPadded Lsd a.now w) }
    ensures width { IfOk result (λ stepped. HasWidth (PaddedAlike Lsd a.now) (letters_of a.now) stepped.width) }
    ensures size { IfOk result (λ stepped. states_of stepped.result ≤ stepped.width) }
    ensures within { IfOk result (λ stepped. stepped.width ≤ limit.entry.most) }
    ensures states { IsErrOf result OpFault.States → HasApart (PaddedAlike Lsd a.now) (letters_of a.now) (limit.entry.most + 1) }
    ensures no_letters { ¬ IsErrOf result OpFault.Letters }
{
    let pairs = PaddedPairs {
        dfa: a,
        flags: &[],
        letters: alphabet.letters(),
    };
    let explored = explore(alloc, &pairs, alphabet, limit)?;
    let result = a.copy(alloc)?;
    Ok(Stepped {
        result,
        width: explored.width,
    })
}

// The closure of an automaton that accepts some word.
fn explore_pairs(
    alloc: Global,
    a: &Dfa,
    alphabet: Alphabet,
    limit: Limit<'_>,
) -> Result<Stepped<Dfa>, OpFault>
    requires canonical { IsCanonical a.now }
    requires live { ¬ IsDead a.now 0 }
    requires alphabet { alphabet ≡ a.now.sizes }
    ensures sizes { IfOk result (λ stepped. stepped.result.sizes ≡ a.now.sizes) }
    ensures canonical { IfOk result (λ stepped. IsCanonical stepped.result) }
    ensures language { IfOk result (λ stepped. (w : List ℕ) → IsWord (letters_of a.now) w
        → IsTrue (accepts_of stepped.result w) ↔ IsPadded Lsd a.now w) }
    ensures width { IfOk result (λ stepped. HasWidth (PaddedAlike Lsd a.now) (letters_of a.now) stepped.width) }
    ensures size { IfOk result (λ stepped. states_of stepped.result ≤ stepped.width) }
    ensures within { IfOk result (λ stepped. stepped.width ≤ limit.entry.most) }
    ensures states { IsErrOf result OpFault.States → HasApart (PaddedAlike Lsd a.now) (letters_of a.now) (limit.entry.most + 1) }
    ensures no_letters { ¬ IsErrOf result OpFault.Letters }
{
    let flags = final_flags(alloc, a)?;
    let pairs = PaddedPairs {
        dfa: a,
        flags: &flags,
        letters: alphabet.letters(),
    };
    explore_canonical(alloc, &pairs, alphabet, limit)
}
