//! Fixed points of morphisms, as automatic words that are changed.

ghost use Rattle.std.specs.Prelude.{ℕ, ◌≡◌, ◌∷◌, []};
ghost use Rattle.base_k.specs.Positional.{base};
ghost use Rattle.num_system.specs.Tracks.{systems_of};

use crate::given::{given, no_answer};
use crate::letter_functions::made_text;
use crate::transducer_files::made_of;
use digit_tuple::step_fault::StepFault;
use digit_tuple::steps::Steps;
use fixed_points::promotion::promote;
use letter_reversal::letter_reversal::reverse_letters;
use morph_words::Morphism;
use std::alloc::Global;
use std::process::Abort;
use word_output::letter_function::LetterFunction;
use word_output::word::Word;
use word_transduce::transduction::transduce;

/// The rules of the word of Thue and Morse, in which the order of the digits does not matter.
pub(crate) const THUE_MORSE: &str = "0->01 1->10";

/// The rules of the word that doubles its period: the letter 1 is at the positions whose last digits are an odd number of ones.
pub(crate) const DOUBLING: &str = "0->01 1->00";

// No fixed point of a row has more letters.
const LETTERS: u32 = 10;

/// The fixed point of rules, by the first step.
pub(crate) fn promoted(rt: &impl Abort, alloc: Global, rules: &str, steps: &mut Steps) -> Word
    ensures { (k : ℕ) × (systems_of result.systems ≡ base k ∷ []) }
{
    let morphism = given(rt, Morphism::parse(alloc, rules.as_bytes()));
    match promote(alloc, &morphism, steps) {
        Ok(word) => word,
        Err(_) => no_answer(rt),
    }
}

/// The fixed point of rules.
pub(crate) fn fixed_word(rt: &impl Abort, alloc: Global, rules: &str) -> Word {
    promoted(rt, alloc, rules, &mut Steps::new(alloc, LETTERS))
}

/// How the function of a fixed point is changed.
#[derive(Clone, Copy)]
pub(crate) enum Change<'a> {
    /// By a transducer with this text.
    Transduced(&'a str),
    /// Its words are read from their other end.
    Reversed,
    /// The same there and back.
    ReversedTwice,
}

// The function that a change makes, or the fault.
fn made_by(
    rt: &impl Abort,
    alloc: Global,
    change: Change<'_>,
    function: &LetterFunction,
    steps: &mut Steps,
) -> Result<LetterFunction, StepFault> {
    match change {
        Change::Transduced(text) => {
            let transducer = given(rt, made_of(alloc, text));
            transduce(alloc, &transducer, function, steps)
        }
        Change::Reversed => reverse_letters(alloc, function, steps),
        Change::ReversedTwice => {
            let there = reverse_letters(alloc, function, steps)?;
            reverse_letters(alloc, &there, steps)
        }
    }
}

/// The lines of the steps and the function that they make of a fixed point, or the lines and the fault.
pub(crate) fn changed(
    rt: &impl Abort,
    alloc: Global,
    change: Change<'_>,
    rules: &str,
    limit: u32,
) -> String {
    let word = fixed_word(rt, alloc, rules);
    let mut steps = Steps::new(alloc, limit);
    let made = made_by(rt, alloc, change, word.function(), &mut steps);
    made_text(rt, alloc, &steps, &made)
}
