//! The star of a language.

ghost use Rattle.std.specs.Prelude.{◌≡◌, ◌↔◌, ◌+◌, ◌≤◌, ◌∷◌, [], ℕ, List, true, false, IfOk, IsTrue};
ghost use Rattle.std.specs.Result.{IsErrOf};
ghost use Rattle.digit_tuple.specs.Automaton.{Branch};
ghost use Rattle.digit_tuple.specs.Deterministic.{accepting_of, accepts_of, letters_of, states_of};
ghost use Rattle.digit_tuple.specs.Letters.{IsWord};
ghost use Rattle.digit_tuple.specs.Width.{HasApart, HasWidth};
ghost use Rattle.minimise.specs.Canonical.{IsCanonical};
ghost use Rattle.lang_ops.specs.Star.{IsStarred, StarAlike};
ghost use Rattle.lang_ops.specs.StarTables.{IsStarStart, IsStarTable};

use crate::canonical_sets::canonical_sets;
use crate::linked_rows::{linked_rows, linked_transitions};
use digit_tuple::dfa::Dfa;
use digit_tuple::faults::{OpFault, OutOfMemory};
use digit_tuple::limit::Limit;
use digit_tuple::nfa::Nfa;
use digit_tuple::stepped::Stepped;
use digit_tuple::transitions::NfaState;
use std::alloc::Global;

/// The words joined of any number of words of the language of a canonical automaton, the empty word among them. The
/// result is canonical.
///
/// The width is the number of pairs that words have: whether the word is in the star, and the set of residuals of the
/// language, but for the empty one, after what is left of the word after a word of the star. `States` comes if and only
/// if the width passes the limit, and `Letters` never. Memory may also run out where 2^32 - 1 states are not enough.
/// Time and memory follow the sizes of these sets and their transitions.
///
/// Words lead to sets of states of a nondeterministic automaton, as in Michael Rabin and Dana Scott, "Finite automata and
/// their decision problems": what leads to an accepting state leads to the initial one too. Where that does not accept,
/// words begin at a state of their own, so that the empty word is distinguished from others that lead to the initial state alone.
pub fn star(alloc: Global, a: &Dfa, limit: Limit<'_>) -> Result<Stepped<Dfa>, OpFault>
    requires { IsCanonical a.now }
    ensures sizes { IfOk result (λ stepped. stepped.result.sizes ≡ a.now.sizes) }
    ensures canonical { IfOk result (λ stepped. IsCanonical stepped.result) }
    ensures language { IfOk result (λ stepped. (w : List ℕ) → IsWord (letters_of a.now) w
        → IsTrue (accepts_of stepped.result w) ↔ IsStarred a.now w) }
    ensures width { IfOk result (λ stepped. HasWidth (StarAlike a.now) (letters_of a.now) stepped.width) }
    ensures size { IfOk result (λ stepped. states_of stepped.result ≤ stepped.width) }
    ensures within { IfOk result (λ stepped. stepped.width ≤ limit.entry.most) }
    ensures states { IsErrOf result OpFault.States → HasApart (StarAlike a.now) (letters_of a.now) (limit.entry.most + 1) }
    ensures letters { ¬ IsErrOf result OpFault.Letters }
{
    if a.accepting(0) {
        star_with_empty(alloc, a, limit)
    } else {
        star_without_empty(alloc, a, limit)
    }
}

// The star of a language with the empty word: words begin at its initial state.
fn star_with_empty(alloc: Global, a: &Dfa, limit: Limit<'_>) -> Result<Stepped<Dfa>, OpFault>
    requires canonical { IsCanonical a.now }
    requires empty { accepting_of a.now 0 ≡ true }
    ensures sizes { IfOk result (λ stepped. stepped.result.sizes ≡ a.now.sizes) }
    ensures canonical { IfOk result (λ stepped. IsCanonical stepped.result) }
    ensures language { IfOk result (λ stepped. (w : List ℕ) → IsWord (letters_of a.now) w
        → IsTrue (accepts_of stepped.result w) ↔ IsStarred a.now w) }
    ensures width { IfOk result (λ stepped. HasWidth (StarAlike a.now) (letters_of a.now) stepped.width) }
    ensures size { IfOk result (λ stepped. states_of stepped.result ≤ stepped.width) }
    ensures within { IfOk result (λ stepped. stepped.width ≤ limit.entry.most) }
    ensures states { IsErrOf result OpFault.States → HasApart (StarAlike a.now) (letters_of a.now) (limit.entry.most + 1) }
    ensures letters { ¬ IsErrOf result OpFault.Letters }
{
    let alphabet = a.alphabet().copy(alloc)?;
    let table = returning_table(alloc, a)?;
    canonical_sets(alloc, table, &[0], alphabet, limit)
}

// The star of a language without the empty word: words begin at a state of their own.
fn star_without_empty(alloc: Global, a: &Dfa, limit: Limit<'_>) -> Result<Stepped<Dfa>, OpFault>
    requires canonical { IsCanonical a.now }
    requires empty { accepting_of a.now 0 ≡ false }
    ensures sizes { IfOk result (λ stepped. stepped.result.sizes ≡ a.now.sizes) }
    ensures canonical { IfOk result (λ stepped. IsCanonical stepped.result) }
    ensures language { IfOk result (λ stepped. (w : List ℕ) → IsWord (letters_of a.now) w
        → IsTrue (accepts_of stepped.result w) ↔ IsStarred a.now w) }
    ensures width { IfOk result (λ stepped. HasWidth (StarAlike a.now) (letters_of a.now) stepped.width) }
    ensures size { IfOk result (λ stepped. states_of stepped.result ≤ stepped.width) }
    ensures within { IfOk result (λ stepped. stepped.width ≤ limit.entry.most) }
    ensures states { IsErrOf result OpFault.States → HasApart (StarAlike a.now) (letters_of a.now) (limit.entry.most + 1) }
    ensures letters { ¬ IsErrOf result OpFault.Letters }
{
    let alphabet = a.alphabet().copy(alloc)?;
    let table = started_table(alloc, a)?;
    canonical_sets(alloc, table, &[a.states()], alphabet, limit)
}

// The automaton's states, linked to its initial one.
fn returning_table(alloc: Global, a: &Dfa) -> Result<Nfa, OutOfMemory>
    ensures { IfOk result (IsStarTable a.now []) }
{
    let rows = linked_rows(alloc, a, Some(0), true)?;
    let alphabet = a.alphabet().copy(alloc)?;
    Nfa::from_states(alloc, alphabet, rows)
}

// The automaton's states, linked to its initial one, and an accepting state that leads where that one does.
fn started_table(alloc: Global, a: &Dfa) -> Result<Nfa, OutOfMemory>
    ensures { IfOk result (λ table. (row : Branch) × IsStarTable a.now (row ∷ []) table × IsStarStart a.now row) }
{
    if a.states() == u32::MAX {
        return Err(OutOfMemory);
    }
    let mut rows = linked_rows(alloc, a, Some(0), true)?;
    rows.push(NfaState {
        accepting: true,
        transitions: linked_transitions(alloc, a, 0, Some(0))?,
    })?;
    let alphabet = a.alphabet().copy(alloc)?;
    Nfa::from_states(alloc, alphabet, rows)
}
