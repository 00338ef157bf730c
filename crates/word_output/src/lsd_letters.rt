//! Letters of words without their trailing zeros.

ghost use Rattle.std.specs.Prelude.{◌≡◌, ◌≢◌, ◌+◌, ◌≤◌, IfOk};
ghost use Rattle.std.specs.Result.{IsErrOf};
ghost use Rattle.digit_tuple.specs.Deterministic.{letters_of, states_of};
ghost use Rattle.digit_tuple.specs.Width.{HasApart, HasWidth};
ghost use Rattle.digit_tuple.specs.declared.direction.Direction.TheVariants.{Lsd};
ghost use Rattle.residual_classes.specs.Classes.{first_of};
ghost use Rattle.word_output.specs.LetterPaddings.{IsLetterPadding, PaddedLettersAlike};

use crate::head_letters::head_letters;
use crate::letter_function::LetterFunction;
use digit_tuple::alphabet::Alphabet;
use digit_tuple::exploration::{Explored, explore_keys};
use digit_tuple::faults::OpFault;
use digit_tuple::limit::Limit;
use digit_tuple::no_words::no_words_within;
use digit_tuple::stepped::Stepped;
use minimise::sink::initial_state;
use pad_rename::padded_pairs::PaddedPairs;
use std::alloc::Global;

/// The letters of words without their trailing zeros. `pad_letters` says more.
pub(crate) fn pad_lsd(
    alloc: Global,
    function: &LetterFunction,
    limit: Limit<'_>,
) -> Result<Stepped<LetterFunction>, OpFault>
    ensures padding { IfOk result (λ stepped. IsLetterPadding Lsd function.now stepped.result) }
    ensures width { IfOk result (λ stepped. HasWidth (PaddedLettersAlike Lsd function.now) (letters_of function.now.automaton) stepped.width) }
    ensures size { IfOk result (λ stepped. states_of stepped.result.automaton ≤ stepped.width) }
    ensures within { IfOk result (λ stepped. stepped.width ≤ limit.entry.most) }
    ensures states { IsErrOf result OpFault.States → HasApart (PaddedLettersAlike Lsd function.now) (letters_of function.now.automaton) (limit.entry.most + 1) }
{
    let dfa = function.dfa();
    let alphabet = dfa.alphabet().copy(alloc)?;
    if initial_state(dfa) == dfa.states() {
        no_letters(alloc, function, alphabet, limit)
    } else {
        explore_pairs(alloc, function, alphabet, limit)
    }
}

// No letters, as no word has one.
fn no_letters(
    alloc: Global,
    function: &LetterFunction,
    alphabet: Alphabet,
    limit: Limit<'_>,
) -> Result<Stepped<LetterFunction>, OpFault>
    requires alphabet { alphabet ≡ function.now.automaton.sizes }
    requires none { first_of function.now.automaton ≡ states_of function.now.automaton }
    ensures padding { IfOk result (λ stepped. IsLetterPadding Lsd function.now stepped.result) }
    ensures width { IfOk result (λ stepped. HasWidth (PaddedLettersAlike Lsd function.now) (letters_of function.now.automaton) stepped.width) }
    ensures size { IfOk result (λ stepped. states_of stepped.result.automaton ≤ stepped.width) }
    ensures within { IfOk result (λ stepped. stepped.width ≤ limit.entry.most) }
    ensures states { IsErrOf result OpFault.States → HasApart (PaddedLettersAlike Lsd function.now) (letters_of function.now.automaton) (limit.entry.most + 1) }
{
    let _letters = function.letters();
    let Stepped { result, width } = no_words_within(alloc, alphabet, limit)?;
    let letters = vec![in alloc; None]?;
    let result = LetterFunction::of_states(alloc, &result, &letters)?;
    Ok(Stepped { result, width })
}

// The letters of the first states of pairs.
fn explore_pairs(
    alloc: Global,
    function: &LetterFunction,
    alphabet: Alphabet,
    limit: Limit<'_>,
) -> Result<Stepped<LetterFunction>, OpFault>
    requires alphabet { alphabet ≡ function.now.automaton.sizes }
    requires some { first_of function.now.automaton ≢ states_of function.now.automaton }
    ensures padding { IfOk result (λ stepped. IsLetterPadding Lsd function.now stepped.result) }
    ensures width { IfOk result (λ stepped. HasWidth (PaddedLettersAlike Lsd function.now) (letters_of function.now.automaton) stepped.width) }
    ensures size { IfOk result (λ stepped. states_of stepped.result.automaton ≤ stepped.width) }
    ensures within { IfOk result (λ stepped. stepped.width ≤ limit.entry.most) }
    ensures states { IsErrOf result OpFault.States → HasApart (PaddedLettersAlike Lsd function.now) (letters_of function.now.automaton) (limit.entry.most + 1) }
{
    let pairs = PaddedPairs {
        dfa: function.dfa(),
        flags: &[],
        letters: alphabet.letters(),
    };
    let Stepped { result, width } = explore_keys(alloc, &pairs, alphabet, limit)?;
    let Explored { dfa, keys } = result;
    let letters = head_letters(alloc, function, &keys)?;
    let result = LetterFunction::of_states(alloc, &dfa, &letters)?;
    Ok(Stepped { result, width })
}
