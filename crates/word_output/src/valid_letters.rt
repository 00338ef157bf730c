//! The step `valid` of automatic words.

ghost use Rattle.std.specs.Prelude.{◌≡◌, ◌<◌, length, map, slice_index, IfOk};
ghost use Rattle.std.specs.List.{All};
ghost use Rattle.std.specs.Rc.{rc_value};
ghost use Rattle.product_op.specs.Readings.{readings_in};
ghost use Rattle.product_op.specs.Validity.{AreLanguages};
ghost use Rattle.automaton_steps.specs.Makings.{DoesStep};
ghost use Rattle.word_output.specs.ValidLetters.{tuple_letters, valid_letter, valid_letters_step};

use crate::letter_function::LetterFunction;
use digit_tuple::dfa::Dfa;
use digit_tuple::exploration::Explored;
use digit_tuple::faults::{OpFault, OutOfMemory};
use digit_tuple::kind::Kind;
use digit_tuple::numbering::Numbering;
use digit_tuple::step_fault::StepFault;
use digit_tuple::stepped::Stepped;
use digit_tuple::steps::Steps;
use product_op::argument_readers::validity_readers;
use product_op::reader::Reader;
use product_op::reader_states::all_accept;
use product_op::tuples::explore_tuples;
use std::alloc::Global;
use std::rc::Rc;

/// The function that gives the words whose tracks are each in the track's language the letters that they have, and
/// other words none, by the step `valid` as the next one. There is a canonical language for each track. The width is
/// that of tuples of what follows a word and of the residuals of all languages. Time and memory follow the width and
/// the transitions.
///
/// # Errors
/// `States` if and only if the width passes the limit. The steps are as before then, also if memory runs out.
pub fn valid_letters(
    alloc: Global,
    function: &LetterFunction,
    languages: &[Rc<Dfa>],
    steps: &mut Steps,
) -> Result<LetterFunction, StepFault>
    requires { AreLanguages function.now.automaton.sizes (map rc_value languages.now) }
    ensures { DoesStep (valid_letters_step (map rc_value languages.now) function.now) steps.old result steps.new }
{
    let dfa = function.dfa();
    let alphabet = dfa.alphabet().copy(alloc)?;
    let _ = alphabet.tracks();
    let readers = validity_readers(alloc, &alphabet, dfa, languages)?;
    match explore_tuples(alloc, alphabet, &readers, steps.begin(Kind::Valid)) {
        Ok(Stepped { result, width }) => {
            let Explored { dfa, keys } = result;
            let letters = tuple_letters(alloc, function, &readers, &keys)?;
            let valid = LetterFunction::of_states(alloc, &dfa, &letters)?;
            steps.done(Kind::Valid, width, valid.dfa().states())?;
            Ok(valid)
        }
        Err(OpFault::States) => Err(StepFault::States(steps.next_number())),
        Err(_) => Err(StepFault::Memory),
    }
}

// The letters of tuples.
fn tuple_letters(
    alloc: Global,
    function: &LetterFunction,
    readers: &[Reader<'_>],
    keys: &Numbering,
) -> Result<Vec<Option<i32>>, OutOfMemory>
    requires some { 0 < length readers.now }
    requires keys { All (λ key. length key ≡ length readers.now) keys.now }
    ensures { IfOk result (λ letters. letters.items ≡ tuple_letters function.now (readings_in readers.now) keys.now) }
{
    let mut letters = Vec::with_capacity(alloc, keys.len())?;
    for number in 0..keys.len() {
        letters.push(tuple_letter(function, readers, keys.key(number)))?;
    }
    Ok(letters)
}

// The letter of the first state of a tuple, where the languages accept at the others.
fn tuple_letter(function: &LetterFunction, readers: &[Reader<'_>], key: &[u32]) -> Option<i32>
    requires some { 0 < length readers.now }
    requires key { length key.now ≡ length readers.now }
    ensures { result ≡ valid_letter function.now (readings_in readers.now) key.now }
{
    if all_accept(readers, key, 1) {
        function.letter_of(key[0])
    } else {
        None
    }
}
