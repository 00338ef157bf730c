//! Concatenations of two languages.

ghost use Rattle.std.specs.Prelude.{◌≡◌, ◌↔◌, ◌+◌, ◌≤◌, ℕ, List, IfOk, IsTrue};
ghost use Rattle.std.specs.Result.{IsErrOf};
ghost use Rattle.digit_tuple.specs.Deterministic.{Automaton, IsTable, accepts_of, letters_of, states_of};
ghost use Rattle.digit_tuple.specs.Letters.{IsWord};
ghost use Rattle.digit_tuple.specs.Width.{HasApart, HasWidth};
ghost use Rattle.minimise.specs.Canonical.{IsCanonical};
ghost use Rattle.minimise.specs.Residuals.{IsDead};
ghost use Rattle.lang_ops.specs.Concatenation.{ConcatAlike, IsConcatenated};
ghost use Rattle.lang_ops.specs.ConcatTables.{AreConcatStarts, IsConcatLink, IsConcatTable};

use crate::canonical_sets::canonical_sets;
use crate::emptiness::accepts_nothing;
use crate::linked_rows::linked_rows;
use crate::shifted_rows::add_shifted;
use digit_tuple::alphabet::Alphabet;
use digit_tuple::dfa::Dfa;
use digit_tuple::faults::{OpFault, OutOfMemory};
use digit_tuple::limit::Limit;
use digit_tuple::nfa::Nfa;
use digit_tuple::no_words::no_words_within;
use digit_tuple::stepped::Stepped;
use std::alloc::Global;

/// The words of the first language followed by words of the second, of two canonical automata over the same tracks. The
/// result is canonical.
///
/// The width is the number of pairs that words have: the residual of the first language after the word, which may be
/// empty, and the set of residuals of the second, but for the empty one, after what is left of the word after a word
/// of the first. `States` comes if and only if the width passes the limit, and `Letters` never. Memory may also run out
/// where 2^32 - 1 states are not enough. Time and memory follow the sizes of these sets and their transitions.
///
/// Words lead to sets of states of a nondeterministic automaton, as in Michael Rabin and Dana Scott, "Finite automata and
/// their decision problems": what leads to an accepting state of the first automaton leads to the initial state of the
/// second too.
pub fn concat(alloc: Global, a: &Dfa, b: &Dfa, limit: Limit<'_>) -> Result<Stepped<Dfa>, OpFault>
    requires first { IsCanonical a.now }
    requires second { IsCanonical b.now }
    requires sizes { b.now.sizes ≡ a.now.sizes }
    ensures sizes { IfOk result (λ stepped. stepped.result.sizes ≡ a.now.sizes) }
    ensures canonical { IfOk result (λ stepped. IsCanonical stepped.result) }
    ensures language { IfOk result (λ stepped. (w : List ℕ) → IsWord (letters_of a.now) w
        → IsTrue (accepts_of stepped.result w) ↔ IsConcatenated a.now b.now w) }
    ensures width { IfOk result (λ stepped. HasWidth (ConcatAlike a.now b.now) (letters_of a.now) stepped.width) }
    ensures size { IfOk result (λ stepped. states_of stepped.result ≤ stepped.width) }
    ensures within { IfOk result (λ stepped. stepped.width ≤ limit.entry.most) }
    ensures states { IsErrOf result OpFault.States → HasApart (ConcatAlike a.now b.now) (letters_of a.now) (limit.entry.most + 1) }
    ensures letters { ¬ IsErrOf result OpFault.Letters }
{
    let alphabet = a.alphabet().copy(alloc)?;
    if accepts_nothing(a) {
        no_words_within(alloc, alphabet, limit)
    } else {
        live_concat(alloc, a, b, alphabet, limit)
    }
}

// The concatenation whose first language has a word.
fn live_concat(
    alloc: Global,
    a: &Dfa,
    b: &Dfa,
    alphabet: Alphabet,
    limit: Limit<'_>,
) -> Result<Stepped<Dfa>, OpFault>
    requires first { IsCanonical a.now }
    requires second { IsCanonical b.now }
    requires sizes { b.now.sizes ≡ a.now.sizes }
    requires alphabet { alphabet ≡ a.now.sizes }
    requires live { ¬ IsDead a.now 0 }
    ensures sizes { IfOk result (λ stepped. stepped.result.sizes ≡ a.now.sizes) }
    ensures canonical { IfOk result (λ stepped. IsCanonical stepped.result) }
    ensures language { IfOk result (λ stepped. (w : List ℕ) → IsWord (letters_of a.now) w
        → IsTrue (accepts_of stepped.result w) ↔ IsConcatenated a.now b.now w) }
    ensures width { IfOk result (λ stepped. HasWidth (ConcatAlike a.now b.now) (letters_of a.now) stepped.width) }
    ensures size { IfOk result (λ stepped. states_of stepped.result ≤ stepped.width) }
    ensures within { IfOk result (λ stepped. stepped.width ≤ limit.entry.most) }
    ensures states { IsErrOf result OpFault.States → HasApart (ConcatAlike a.now b.now) (letters_of a.now) (limit.entry.most + 1) }
    ensures letters { ¬ IsErrOf result OpFault.Letters }
{
    let link = concat_link(a, b);
    let table = concat_table(alloc, a, b, link)?;
    let first = first_states(alloc, a, link, &table)?;
    canonical_sets(alloc, table, &first, alphabet, limit)
}

// The second automaton's initial state after the states of the first, unless the second accepts no word.
fn concat_link(a: &Dfa, b: &Dfa) -> Option<u32>
    requires { IsCanonical b.now }
    ensures { IsConcatLink a.now b.now result }
{
    if accepts_nothing(b) {
        None
    } else {
        Some(a.states())
    }
}

// The states of the first automaton, linked, and those of the second after them.
fn concat_table(alloc: Global, a: &Dfa, b: &Dfa, link: Option<u32>) -> Result<Nfa, OutOfMemory>
    requires sizes { b.now.sizes ≡ a.now.sizes }
    requires link { IsConcatLink a.now b.now link }
    ensures { IfOk result (IsConcatTable a.now b.now link) }
{
    let before = a.states();
    if b.states() > u32::MAX - before {
        return Err(OutOfMemory);
    }
    let mut rows = linked_rows(alloc, a, link, false)?;
    add_shifted(alloc, b, before, &mut rows)?;
    let alphabet = a.alphabet().copy(alloc)?;
    Nfa::from_states(alloc, alphabet, rows)
}

// The states at which words begin: the initial one, and if it accepts also the link.
fn first_states(
    alloc: Global,
    a: &Dfa,
    link: Option<u32>,
    table: &Nfa,
) -> Result<Vec<u32>, OutOfMemory>
    requires first { IsCanonical a.now }
    requires table { (b : Automaton) × IsTable (letters_of b) b.states × IsConcatLink a.now b link × IsConcatTable a.now b link table.now }
    ensures { IfOk result (λ first. AreConcatStarts a.now link table.now first.items) }
{
    let mut first = vec![in alloc; 0]?;
    if a.accepting(0) {
        if let Some(state) = link {
            first.push(state)?;
        }
    }
    Ok(first)
}
