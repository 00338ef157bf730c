//! The letters of keys that begin with a state.

ghost use Rattle.std.specs.Prelude.{◌≡◌, IfOk, slice_index};
ghost use Rattle.word_output.specs.StateLetters.{head_letters, letter_of_state};

use crate::letter_function::LetterFunction;
use digit_tuple::faults::OutOfMemory;
use digit_tuple::numbering::Numbering;
use std::alloc::Global;

/// The letter of the first state of each key, and of state 0 where the key has none.
pub(crate) fn head_letters(
    alloc: Global,
    function: &LetterFunction,
    keys: &Numbering,
) -> Result<Vec<Option<i32>>, OutOfMemory>
    ensures { IfOk result (λ letters. letters.items ≡ head_letters function.now keys.now) }
{
    let mut letters = Vec::with_capacity(alloc, keys.len())?;
    for number in 0..keys.len() {
        letters.push(head_letter(function, keys.key(number)))?;
    }
    Ok(letters)
}

// The letter of the first state of a key.
fn head_letter(function: &LetterFunction, key: &[u32]) -> Option<i32>
    ensures { result ≡ letter_of_state function.now (slice_index key.now 0) }
{
    match key {
        [] => function.letter_of(0),
        [state, ..] => function.letter_of(*state),
    }
}
