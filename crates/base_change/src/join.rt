//! The step `join`: from a base to a power of it.

ghost use Rattle.std.specs.Prelude.{◌≡◌, ◌≤◌, ◌+◌, ◌^◌, ◌∷◌, [], IfOk};
ghost use Rattle.std.specs.Result.{IsErrOf};
ghost use Rattle.digit_tuple.specs.Deterministic.{states_of};
ghost use Rattle.digit_tuple.specs.Letters.{product};
ghost use Rattle.digit_tuple.specs.Width.{HasApart, HasWidth};
ghost use Rattle.automaton_steps.specs.Makings.{DoesStep};
ghost use Rattle.base_change.specs.Joins.{IsJoin, JoinAlike, join_step};

use crate::join_keys::JoinKeys;
use crate::key_letters::key_letters;
use digit_tuple::alphabet::Alphabet;
use digit_tuple::exploration::{Explored, explore_keys};
use digit_tuple::faults::OpFault;
use digit_tuple::kind::Kind;
use digit_tuple::limit::Limit;
use digit_tuple::step_fault::StepFault;
use digit_tuple::stepped::Stepped;
use digit_tuple::steps::Steps;
use std::alloc::Global;
use word_output::letter_function::LetterFunction;

/// The letters of words over base `root` as those of words over base `root ^ digits`, the least significant digit
/// first in both, by the step `join` as the next one. The new base is at most 65,536. The width is
/// that of what follows a word, each letter of it read as its digits. Time and memory follow the width times the new
/// base.
///
/// # Errors
/// `States` if and only if the width passes the limit. The steps are as before then, also if memory runs out.
pub fn join_letters(
    alloc: Global,
    function: &LetterFunction,
    root: u32,
    digits: u32,
    steps: &mut Steps,
) -> Result<LetterFunction, StepFault>
    requires root { 2 ≤ root }
    requires base { function.now.automaton.sizes ≡ root ∷ [] }
    requires few { root ^ digits ≤ 65536 }
    ensures { DoesStep (join_step root digits function.now) steps.old result steps.new }
{
    let _ = function.dfa().alphabet().tracks();
    match join(alloc, function, root, digits, steps.begin(Kind::Join)) {
        Ok(Stepped { result, width }) => {
            steps.done(Kind::Join, width, result.dfa().states())?;
            Ok(result)
        }
        Err(OpFault::States) => Err(StepFault::States(steps.next_number())),
        Err(_) => Err(StepFault::Memory),
    }
}

// The letters of words over base `root ^ digits`.
fn join(
    alloc: Global,
    function: &LetterFunction,
    root: u32,
    digits: u32,
    limit: Limit<'_>,
) -> Result<Stepped<LetterFunction>, OpFault>
    requires root { 2 ≤ root }
    requires base { function.now.automaton.sizes ≡ root ∷ [] }
    requires few { root ^ digits ≤ 65536 }
    ensures join { IfOk result (λ stepped. IsJoin root digits function.now stepped.result) }
    ensures width { IfOk result (λ stepped. HasWidth (JoinAlike root digits function.now) (product (root ^ digits ∷ [])) stepped.width) }
    ensures size { IfOk result (λ stepped. states_of stepped.result.automaton ≤ stepped.width) }
    ensures within { IfOk result (λ stepped. stepped.width ≤ limit.entry.most) }
    ensures states { IsErrOf result OpFault.States → HasApart (JoinAlike root digits function.now) (product (root ^ digits ∷ [])) (limit.entry.most + 1) }
{
    let dfa = function.dfa();
    let _ = dfa.alphabet().tracks();
    let letters = power_of(root, digits);
    let alphabet = Alphabet::fitting(alloc, &[letters])?;
    let keys = JoinKeys {
        dfa,
        root,
        digits,
        letters,
    };
    let Stepped { result, width } = explore_keys(alloc, &keys, alphabet, limit)?;
    let Explored { dfa, keys } = result;
    let letters = key_letters(alloc, function, root, &keys)?;
    let result = LetterFunction::of_states(alloc, &dfa, &letters)?;
    Ok(Stepped { result, width })
}

// The power of the base.
fn power_of(base: u32, exponent: u32) -> u32
    requires base { 2 ≤ base }
    requires few { base ^ exponent ≤ 65536 }
    ensures { result ≡ base ^ exponent }
{
    let mut power = 1;
    for _place in 0..exponent {
        power *= base;
    }
    power
}
