//! Pairs of letters of one word.

ghost use Rattle.std.specs.Prelude.{◌≡◌, ◌+◌, ◌<◌, ◌≤◌, ◌↔◌, ℕ, false, List, length, IfOk, IsTrue, slice_index_or};
ghost use Rattle.std.specs.List.{All};
ghost use Rattle.std.specs.Result.{IsErrOf};
ghost use Rattle.digit_tuple.specs.Deterministic.{accepts_of, letters_of};
ghost use Rattle.digit_tuple.specs.Explored.{key_at};
ghost use Rattle.digit_tuple.specs.Letters.{IsWord};
ghost use Rattle.digit_tuple.specs.Width.{HasApart, HasWidth};
ghost use Rattle.minimise.specs.Canonical.{IsCanonical};
ghost use Rattle.word_output.specs.KeyLetters.{BothAlike, BothCompare, KeyCompares};
ghost use Rattle.word_output.specs.LetterFunctions.{letter_after};

use crate::letter_function::LetterFunction;
use crate::letter_set::compares;
use digit_tuple::dfa::Dfa;
use digit_tuple::exploration::Explored;
use digit_tuple::faults::{OpFault, OutOfMemory};
use digit_tuple::limit::Limit;
use digit_tuple::numbering::Numbering;
use digit_tuple::stepped::Stepped;
use minimise::canonical::canonical;
use num_system::comparison::Comparison;
use product_op::argument_readers::whole_reader;
use product_op::tuples::explore_tuples;
use std::alloc::Global;

/// The canonical automaton of the words that have letters of both functions which compare so. Both are over the same
/// tracks. The width is that of pairs of what follows a word in the one and in the other. `States` comes if and only if
/// it passes the limit, and `Letters` never.
pub(crate) fn compared(
    alloc: Global,
    first: &LetterFunction,
    comparison: Comparison,
    second: &LetterFunction,
    limit: Limit<'_>,
) -> Result<Stepped<Dfa>, OpFault>
    requires { second.now.automaton.sizes ≡ first.now.automaton.sizes }
    ensures sizes { IfOk result (λ stepped. stepped.result.sizes ≡ first.now.automaton.sizes) }
    ensures canonical { IfOk result (λ stepped. IsCanonical stepped.result) }
    ensures language { IfOk result (λ stepped. (w : List ℕ) → IsWord (letters_of first.now.automaton) w
        → IsTrue (accepts_of stepped.result w) ↔ BothCompare comparison (letter_after first.now w) (letter_after second.now w)) }
    ensures width { IfOk result (λ stepped. HasWidth (BothAlike first.now second.now) (letters_of first.now.automaton) stepped.width) }
    ensures within { IfOk result (λ stepped. stepped.width ≤ limit.entry.most) }
    ensures states { IsErrOf result OpFault.States → HasApart (BothAlike first.now second.now) (letters_of first.now.automaton) (limit.entry.most + 1) }
    ensures no_letters { ¬ IsErrOf result OpFault.Letters }
{
    let alphabet = first.dfa().alphabet().copy(alloc)?;
    let mut readers = Vec::new(alloc);
    readers.push(whole_reader(alloc, first.dfa())?)?;
    readers.push(whole_reader(alloc, second.dfa())?)?;
    let Stepped { result, width } = explore_tuples(alloc, alphabet, &readers, limit)?;
    let Explored { dfa, keys } = result;
    let flags = compared_keys(alloc, first, comparison, second, &keys)?;
    let result = canonical(alloc, &dfa.with_accepting(&flags))?;
    Ok(Stepped { result, width })
}

// Whether the letters of the two states of each key compare so.
fn compared_keys(
    alloc: Global,
    first: &LetterFunction,
    comparison: Comparison,
    second: &LetterFunction,
    keys: &Numbering,
) -> Result<Vec<bool>, OutOfMemory>
    requires { All (λ key. length key ≡ 2) keys.now }
    ensures count { IfOk result (λ flags. length flags.items ≡ length keys.now) }
    ensures flags { IfOk result (λ flags. (q : ℕ) → q < length keys.now
        → IsTrue (slice_index_or flags.items q false) ↔ KeyCompares comparison first.now second.now (key_at keys.now q)) }
{
    let mut flags = Vec::with_capacity(alloc, keys.len())?;
    for number in 0..keys.len() {
        let key = keys.key(number);
        flags.push(are_compared(
            comparison,
            first.letter_of(key[0]),
            second.letter_of(key[1]),
        ))?;
    }
    Ok(flags)
}

// Whether both letters are there, and compare so.
fn are_compared(comparison: Comparison, first: Option<i32>, second: Option<i32>) -> bool
    ensures { IsTrue result ↔ BothCompare comparison first second }
{
    match (first, second) {
        (Some(x), Some(y)) => compares(comparison, x, y),
        _ => false,
    }
}
