//! The step `split`: from a base to its root.

ghost use Rattle.std.specs.Prelude.{◌≡◌, ◌≤◌, ◌+◌, ◌^◌, ◌∷◌, [], IfOk};
ghost use Rattle.std.specs.Result.{IsErrOf};
ghost use Rattle.digit_tuple.specs.Deterministic.{states_of};
ghost use Rattle.digit_tuple.specs.Letters.{product};
ghost use Rattle.digit_tuple.specs.Width.{HasApart, HasWidth};
ghost use Rattle.automaton_steps.specs.Makings.{DoesStep};
ghost use Rattle.base_change.specs.Splits.{IsSplit, SplitAlike, split_step};

use crate::key_letters::key_letters;
use crate::split_keys::SplitKeys;
use digit_tuple::alphabet::Alphabet;
use digit_tuple::exploration::{Explored, explore_keys};
use digit_tuple::faults::OpFault;
use digit_tuple::kind::Kind;
use digit_tuple::limit::Limit;
use digit_tuple::step_fault::StepFault;
use digit_tuple::stepped::Stepped;
use digit_tuple::steps::Steps;
use std::alloc::Global;
use word_output::letter_function::LetterFunction;

/// The letters of words over base `root ^ digits` as those of words over base `root`, the least significant digit
/// first in both, by the step `split` as the next one. The width is that of pairs of what follows the digits that the
/// whole groups of a word are, and of the digits after these. Time and memory follow the width times the root.
///
/// # Errors
/// `States` if and only if the width passes the limit. The steps are as before then, also if memory runs out.
pub fn split_letters(
    alloc: Global,
    function: &LetterFunction,
    root: u32,
    digits: u32,
    steps: &mut Steps,
) -> Result<LetterFunction, StepFault>
    requires root { 2 ≤ root }
    requires digits { 1 ≤ digits }
    requires base { function.now.automaton.sizes ≡ root ^ digits ∷ [] }
    ensures { DoesStep (split_step root digits function.now) steps.old result steps.new }
{
    let _ = function.dfa().alphabet().tracks();
    match split(alloc, function, root, digits, steps.begin(Kind::Split)) {
        Ok(Stepped { result, width }) => {
            steps.done(Kind::Split, width, result.dfa().states())?;
            Ok(result)
        }
        Err(OpFault::States) => Err(StepFault::States(steps.next_number())),
        Err(_) => Err(StepFault::Memory),
    }
}

// The letters of words over base `root`.
fn split(
    alloc: Global,
    function: &LetterFunction,
    root: u32,
    digits: u32,
    limit: Limit<'_>,
) -> Result<Stepped<LetterFunction>, OpFault>
    requires root { 2 ≤ root }
    requires digits { 1 ≤ digits }
    requires base { function.now.automaton.sizes ≡ root ^ digits ∷ [] }
    ensures split { IfOk result (λ stepped. IsSplit root digits function.now stepped.result) }
    ensures width { IfOk result (λ stepped. HasWidth (SplitAlike root digits function.now) (product (root ∷ [])) stepped.width) }
    ensures size { IfOk result (λ stepped. states_of stepped.result.automaton ≤ stepped.width) }
    ensures within { IfOk result (λ stepped. stepped.width ≤ limit.entry.most) }
    ensures states { IsErrOf result OpFault.States → HasApart (SplitAlike root digits function.now) (product (root ∷ [])) (limit.entry.most + 1) }
{
    let dfa = function.dfa();
    let _ = dfa.alphabet().tracks();
    let alphabet = Alphabet::fitting(alloc, &[root])?;
    let keys = SplitKeys { dfa, root, digits };
    let Stepped { result, width } = explore_keys(alloc, &keys, alphabet, limit)?;
    let Explored { dfa, keys } = result;
    let letters = key_letters(alloc, function, root, &keys)?;
    let result = LetterFunction::of_states(alloc, &dfa, &letters)?;
    Ok(Stepped { result, width })
}
