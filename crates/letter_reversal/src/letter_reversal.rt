//! The step `reverse` of automatic words.

ghost use Rattle.std.specs.Prelude.{◌≡◌, ◌+◌, ◌≤◌, length, map, IfOk};
ghost use Rattle.std.specs.List.{All};
ghost use Rattle.std.specs.Result.{IsErrOf};
ghost use Rattle.digit_tuple.specs.Deterministic.{letters_of, states_of};
ghost use Rattle.digit_tuple.specs.Width.{HasApart, HasWidth};
ghost use Rattle.automaton_steps.specs.Makings.{DoesStep};
ghost use Rattle.word_output.specs.LetterFunctions.{letter_in};
ghost use Rattle.letter_reversal.specs.LetterReversals.{IsLetterReversal, ReversedLettersAlike, letter_reversal_step};

use class_reversal::reached::reverse_reached;
use digit_tuple::faults::{OpFault, OutOfMemory};
use digit_tuple::kind::Kind;
use digit_tuple::limit::Limit;
use digit_tuple::step_fault::StepFault;
use digit_tuple::stepped::Stepped;
use digit_tuple::steps::Steps;
use std::alloc::Global;
use word_output::letter_function::LetterFunction;

/// The function that gives each word the letter of the reversed word, by the step `reverse` as the next one. The width
/// is the number of residuals of this function, the one without letters among them where it occurs. Time and memory
/// are those of as many numbers as the function has states, for each letter of the alphabet and each state of the
/// result.
///
/// # Errors
/// `States` if and only if the width passes the limit. The steps are as before then, also if memory runs out.
pub fn reverse_letters(
    alloc: Global,
    function: &LetterFunction,
    steps: &mut Steps,
) -> Result<LetterFunction, StepFault>
    ensures { DoesStep (letter_reversal_step function.now) steps.old result steps.new }
{
    let _ = function.dfa().alphabet().tracks();
    match reversed(alloc, function, steps.begin(Kind::Reverse)) {
        Ok(Stepped { result, width }) => {
            steps.done(Kind::Reverse, width, result.dfa().states())?;
            Ok(result)
        }
        Err(OpFault::States) => Err(StepFault::States(steps.next_number())),
        Err(_) => Err(StepFault::Memory),
    }
}

// The letters of the reversed words.
fn reversed(
    alloc: Global,
    function: &LetterFunction,
    limit: Limit<'_>,
) -> Result<Stepped<LetterFunction>, OpFault>
    ensures reversal { IfOk result (λ stepped. IsLetterReversal function.now stepped.result) }
    ensures width { IfOk result (λ stepped. HasWidth (ReversedLettersAlike function.now) (letters_of function.now.automaton) stepped.width) }
    ensures size { IfOk result (λ stepped. states_of stepped.result.automaton ≤ stepped.width) }
    ensures within { IfOk result (λ stepped. stepped.width ≤ limit.entry.most) }
    ensures states { IsErrOf result OpFault.States → HasApart (ReversedLettersAlike function.now) (letters_of function.now.automaton) (limit.entry.most + 1) }
{
    let Stepped { result, width } = reverse_reached(
        alloc,
        function.dfa(),
        function.classes(),
        limit,
    )?;
    let (table, classes) = result;
    let letters = class_letters(alloc, function.letters(), &classes)?;
    let result = LetterFunction::of_states(alloc, &table, &letters)?;
    Ok(Stepped { result, width })
}

// The letter of each class.
fn class_letters(
    alloc: Global,
    letters: &[i32],
    classes: &[u32],
) -> Result<Vec<Option<i32>>, OutOfMemory>
    requires { All (λ class. class ≤ length letters.now) classes.now }
    ensures { IfOk result (λ found. found.items ≡ map (letter_in letters.now) classes.now) }
{
    let mut found = Vec::with_capacity(alloc, classes.len())?;
    for class in classes {
        found.push(letter_of_class(letters, *class))?;
    }
    Ok(found)
}

// The letter of a class; class 0 has none.
fn letter_of_class(letters: &[i32], class: u32) -> Option<i32>
    requires { class ≤ length letters.now }
    ensures { result ≡ letter_in letters.now class }
{
    if class == 0 {
        None
    } else {
        Some(letters[class as usize - 1])
    }
}
