//! The letters of keys.

ghost use Rattle.std.specs.Prelude.{◌≡◌, ◌≤◌, ◌^◌, ℕ, IfOk};
ghost use Rattle.std.specs.List.{All};
ghost use Rattle.base_change.specs.GroupKeys.{IsGroupKey, key_letter, key_letters};

use crate::digits::number_of;
use digit_tuple::faults::OutOfMemory;
use digit_tuple::numbering::Numbering;
use minimise::sink::next_state;
use std::alloc::Global;
use word_output::letter_function::LetterFunction;

/// The letter of each key. A key of a state alone has the letter of the state, and one with digits that of the state
/// to which these lead from there, as one digit.
pub(crate) fn key_letters(
    alloc: Global,
    function: &LetterFunction,
    root: u32,
    keys: &Numbering,
) -> Result<Vec<Option<i32>>, OutOfMemory>
    requires { (b : ℕ) × (1 ≤ root) × (root ^ b ≤ 65536) × All (IsGroupKey function.now.automaton root b) keys.now }
    ensures { IfOk result (λ letters. letters.items ≡ key_letters function.now root keys.now) }
{
    let mut letters = Vec::with_capacity(alloc, keys.len())?;
    for number in 0..keys.len() {
        letters.push(key_letter(function, root, keys.key(number)))?;
    }
    Ok(letters)
}

// The letter of a key.
fn key_letter(function: &LetterFunction, root: u32, key: &[u32]) -> Option<i32>
    requires { (b : ℕ) × (1 ≤ root) × (root ^ b ≤ 65536) × IsGroupKey function.now.automaton root b key.now }
    ensures { result ≡ key_letter function.now root key.now }
{
    match key {
        [] => None,
        [state] => function.letter_of(*state),
        [state, digits @ ..] => {
            let whole = number_of(root, digits);
            function.letter_of(next_state(function.dfa(), *state, whole))
        }
    }
}
