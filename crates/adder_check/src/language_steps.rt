//! The automaton of a file, and whether it is that of a language of a numeration system.

ghost use Rattle.std.specs.Prelude.{IfOk};
ghost use Rattle.minimise.specs.Canonical.{IsCanonical};
ghost use Rattle.adder_check.specs.LanguageSteps.{IsOfFile, DoesFile, ChecksLanguage};

use crate::admit_fault::{AdmitFault, Law};
use crate::keeps_zeros::keeps_zeros;
use automaton_steps::read_step::read_step;
use automaton_steps::reverse_step::reverse_step;
use digit_tuple::dfa::Dfa;
use digit_tuple::direction::Direction;
use digit_tuple::nfa::Nfa;
use digit_tuple::step_fault::StepFault;
use digit_tuple::steps::Steps;
use endless::endless::is_endless;
use std::alloc::Global;

/// The canonical automaton of the words that a file lists, each reversed where they are of the other
/// direction, by the step `read` and then the step `reverse` as the next ones. The widths and the costs
/// are those of the steps.
///
/// # Errors
/// `States` exactly at the first of them whose width passes the limit.
pub fn file_steps(
    alloc: Global,
    listed: &Nfa,
    reversed: bool,
    steps: &mut Steps,
) -> Result<Dfa, StepFault>
    ensures steps { DoesFile listed.now reversed steps.old result steps.new }
    ensures file { IfOk result (IsOfFile listed.now reversed) }
{
    let read = read_step(alloc, listed, steps)?;
    if reversed {
        reverse_step(alloc, &read, steps)
    } else {
        Ok(read)
    }
}

/// Whether the language of a canonical automaton of one track is that of a numeration system. Words are read in the
/// direction. The time follows the number of transitions.
///
/// # Errors
/// `NotAdmitted` with the first law that does not hold, of `NoZero` and `Endless`, if and only if one does not.
pub fn check_language(alloc: Global, language: &Dfa, direction: Direction) -> Result<(), AdmitFault>
    requires canonical { IsCanonical language.now }
    ensures { ChecksLanguage direction language.now result }
{
    if !keeps_zeros(language, direction) {
        return Err(AdmitFault::NotAdmitted(Law::NoZero));
    }
    if !is_endless(alloc, language, direction)? {
        return Err(AdmitFault::NotAdmitted(Law::Endless));
    }
    Ok(())
}
