//! The letters of a fixed point, as an automaton that gives them to words of digits.

ghost use Rattle.std.specs.Prelude.{◌≡◌, ◌+◌, ◌<◌, ◌≤◌, ◌∷◌, [], ℕ, pos, List, length, Some, IfOk};
ghost use Rattle.std.specs.List.{All};
ghost use Rattle.std.specs.Result.{IsErrOf};
ghost use Rattle.digit_tuple.specs.Deterministic.{states_of};
ghost use Rattle.digit_tuple.specs.Letters.{IsWord, product};
ghost use Rattle.digit_tuple.specs.StepResults.{ExceedsWidth};
ghost use Rattle.digit_tuple.specs.Width.{HasWidth};
ghost use Rattle.word_output.specs.LetterFunctions.{IsLetterFunction, letter_after};
ghost use Rattle.fixed_points.specs.LetterGraph.{letters_at, reached};
ghost use Rattle.morph_words.specs.MorphismKinds.{HasFixedPoint};
ghost use Rattle.fixed_points.specs.Promotion.{SamePlaceLetter, promote_step};

use crate::letter_graph::{LetterGraph, letter_of};
use base_k::laws::rank_is_positional;
use digit_tuple::alphabet::Alphabet;
use digit_tuple::exploration::{Explored, explore_keys};
use digit_tuple::faults::{OpFault, OutOfMemory};
use digit_tuple::limit::Limit;
use digit_tuple::numbering::Numbering;
use digit_tuple::stepped::Stepped;
use morph_words::Morphism;
use std::alloc::Global;
use word_output::letter_function::LetterFunction;

/// The function that gives each word of digits the letter to which they lead from the letter 0. The width is
/// the number of letters that occur in the fixed point. Time and memory follow that number times the base.
///
/// # Errors
/// `States` if and only if the width passes the limit.
pub(crate) fn fixed_letters(
    alloc: Global,
    morphism: &Morphism,
    base: u32,
    limit: Limit<'_>,
) -> Result<Stepped<LetterFunction>, OpFault>
    requires { HasFixedPoint morphism.now base }
    ensures sizes { IfOk result (λ stepped. stepped.result.automaton.sizes ≡ base ∷ []) }
    ensures function { IfOk result (λ stepped. IsLetterFunction stepped.result) }
    ensures letters { IfOk result (λ stepped. (w : List ℕ) → IsWord base w → letter_after stepped.result w ≡ Some (reached morphism.now (pos 0) w)) }
    ensures width { IfOk result (λ stepped. HasWidth (SamePlaceLetter morphism.now base) (product (base ∷ [])) stepped.width) }
    ensures size { IfOk result (λ stepped. states_of stepped.result.automaton ≤ stepped.width) }
    ensures within { IfOk result (λ stepped. stepped.width ≤ limit.entry.most) }
    ensures states { IsErrOf result OpFault.States → ExceedsWidth limit.entry.most (promote_step morphism.now base).step }
{
    rank_is_positional();
    let _image = morphism.image(0);
    let graph = LetterGraph { morphism, base };
    let alphabet = Alphabet::fitting(alloc, &[base])?;
    let Stepped { result, width } = explore_keys(alloc, &graph, alphabet, limit)?;
    let Explored { dfa, keys } = result;
    let letters = letters_at(alloc, &keys)?;
    let function = LetterFunction::of_states(alloc, &dfa, &letters)?;
    Ok(Stepped {
        result: function,
        width,
    })
}

// The letters of keys.
fn letters_at(alloc: Global, keys: &Numbering) -> Result<Vec<Option<i32>>, OutOfMemory>
    requires { All (λ key. 0 < length key) keys.now }
    ensures { IfOk result (λ letters. letters.items ≡ letters_at keys.now) }
{
    let mut letters = Vec::with_capacity(alloc, keys.len())?;
    for number in 0..keys.len() {
        letters.push(Some(letter_of(keys.key(number))))?;
    }
    Ok(letters)
}
