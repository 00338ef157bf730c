//! Automatic words read from what files list.

ghost use Rattle.std.specs.Prelude.{◌≡◌, ◌<◌, length, map};
ghost use Rattle.std.specs.List.{AllByRecursion};
ghost use Rattle.std.specs.Rc.{rc_value};
ghost use Rattle.dfa_reading.specs.WordFiles.{IsWordListed};
ghost use Rattle.dfa_reading.specs.Headers.{digits_in};
ghost use Rattle.num_system.specs.Sealed.{IsSealed};
ghost use Rattle.num_system.specs.Tracks.{ShareDirection, languages_of as languages_of_systems};
ghost use Rattle.word_output.specs.WordReadings.{DoesWord, DoesWordSteps};

use crate::letter_function::LetterFunction;
use crate::letter_padding::pad_letters;
use crate::letter_reading::read_letters;
use crate::valid_letters::valid_letters;
use crate::word::Word;
use dfa_reading::Listed;
use digit_tuple::dfa::Dfa;
use digit_tuple::step_fault::StepFault;
use digit_tuple::steps::Steps;
use num_system::sealed::are_sealed;
use num_system::system::System;
use num_system::tracks::{digits_of, direction_of, languages_of, shared};
use std::alloc::Global;
use std::rc::Rc;

/// The word whose letter at each position is that which a word's file lists there: where the path of the position's
/// representation without leading zeros ends. A position has no letter where this path breaks or ends at a state without
/// one. The word is made by the steps `read`, `pad` and `valid` as the next ones. There
/// is a system for each track of the header, and all have one direction. The widths and the costs are those of the
/// steps.
///
/// # Errors
/// `Letters` and `States` exactly at the first step that passes a limit.
pub fn read_word_steps(
    alloc: Global,
    listed: &Listed,
    systems: &[Rc<System>],
    steps: &mut Steps,
) -> Result<Word, StepFault>
    requires states { 0 < length listed.now.outputs }
    requires word { IsWordListed listed.now }
    requires tracks { length systems.now ≡ length (digits_in listed.now.header) }
    requires direction { ShareDirection (map rc_value systems.now) }
    ensures { DoesWord (map rc_value systems.now) listed.now steps.old result steps.new }
{
    are_sealed(systems);
    let kept = shared(alloc, systems)?;
    let languages = languages_of(alloc, systems)?;
    let function = letter_steps(alloc, listed, systems, &languages, steps)?;
    Ok(Word::from_parts(function, kept))
}

// The letters of the valid words, by the three steps.
fn letter_steps(
    alloc: Global,
    listed: &Listed,
    systems: &[Rc<System>],
    languages: &[Rc<Dfa>],
    steps: &mut Steps,
) -> Result<LetterFunction, StepFault>
    requires states { 0 < length listed.now.outputs }
    requires word { IsWordListed listed.now }
    requires tracks { length systems.now ≡ length (digits_in listed.now.header) }
    requires sealed { AllByRecursion IsSealed (map rc_value systems.now) }
    requires languages { map rc_value languages.now ≡ languages_of_systems (map rc_value systems.now) }
    ensures { DoesWordSteps (map rc_value systems.now) listed.now steps.old result steps.new }
{
    let digits = digits_of(alloc, systems)?;
    let read = read_letters(alloc, listed, &digits, steps)?;
    let padded = pad_letters(alloc, &read, direction_of(systems), steps)?;
    valid_letters(alloc, &padded, languages, steps)
}
