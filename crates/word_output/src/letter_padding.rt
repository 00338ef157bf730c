//! The step `pad` of automatic words.

ghost use Rattle.std.specs.Prelude.{◌+◌, ◌≤◌, IfOk};
ghost use Rattle.std.specs.Result.{IsErrOf};
ghost use Rattle.digit_tuple.specs.Deterministic.{letters_of, states_of};
ghost use Rattle.digit_tuple.specs.Width.{HasApart, HasWidth};
ghost use Rattle.automaton_steps.specs.Makings.{DoesStep};
ghost use Rattle.word_output.specs.LetterPaddings.{IsLetterPadding, PaddedLettersAlike, letter_pad_step};

use crate::letter_function::LetterFunction;
use crate::lsd_letters::pad_lsd;
use crate::msd_letters::pad_msd;
use digit_tuple::direction::Direction;
use digit_tuple::faults::OpFault;
use digit_tuple::kind::Kind;
use digit_tuple::limit::Limit;
use digit_tuple::step_fault::StepFault;
use digit_tuple::stepped::Stepped;
use digit_tuple::steps::Steps;
use std::alloc::Global;

/// The function that gives each word the letter of the word without the zeros at the end of its most significant
/// letters, by the step `pad` as the next one. The width is, where the most significant digit comes first, that of
/// pairs of whether a word is all zeros and of what follows it without its leading zeros; else that of pairs of what
/// follows a word without its trailing zeros and with them. Time and memory follow the width and the transitions.
///
/// # Errors
/// `States` if and only if the width passes the limit. The steps are as before then, also if memory runs out.
pub fn pad_letters(
    alloc: Global,
    function: &LetterFunction,
    direction: Direction,
    steps: &mut Steps,
) -> Result<LetterFunction, StepFault>
    ensures { DoesStep (letter_pad_step direction function.now) steps.old result steps.new }
{
    let _ = function.dfa().alphabet().tracks();
    match padded(alloc, function, direction, steps.begin(Kind::Pad)) {
        Ok(Stepped { result, width }) => {
            steps.done(Kind::Pad, width, result.dfa().states())?;
            Ok(result)
        }
        Err(OpFault::States) => Err(StepFault::States(steps.next_number())),
        Err(_) => Err(StepFault::Memory),
    }
}

// The letters without those zeros.
fn padded(
    alloc: Global,
    function: &LetterFunction,
    direction: Direction,
    limit: Limit<'_>,
) -> Result<Stepped<LetterFunction>, OpFault>
    ensures padding { IfOk result (λ stepped. IsLetterPadding direction function.now stepped.result) }
    ensures width { IfOk result (λ stepped. HasWidth (PaddedLettersAlike direction function.now) (letters_of function.now.automaton) stepped.width) }
    ensures size { IfOk result (λ stepped. states_of stepped.result.automaton ≤ stepped.width) }
    ensures within { IfOk result (λ stepped. stepped.width ≤ limit.entry.most) }
    ensures states { IsErrOf result OpFault.States → HasApart (PaddedLettersAlike direction function.now) (letters_of function.now.automaton) (limit.entry.most + 1) }
{
    match direction {
        Direction::Msd => pad_msd(alloc, function, limit),
        Direction::Lsd => pad_lsd(alloc, function, limit),
    }
}
