//! Copies of letter functions.

ghost use Rattle.std.specs.Prelude.{◌≡◌, IfOk};

use digit_tuple::faults::OutOfMemory;
use std::alloc::Global;
use word_output::letter_function::LetterFunction;

/// The same letter function once more.
pub(crate) fn copied(
    alloc: Global,
    function: &LetterFunction,
) -> Result<LetterFunction, OutOfMemory>
    ensures { IfOk result (λ copy. copy ≡ function.now) }
{
    let outputs = function.outputs(alloc)?;
    LetterFunction::of_states(alloc, function.dfa(), &outputs)
}
