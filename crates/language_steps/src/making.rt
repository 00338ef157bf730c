//! The steps of a language command.

ghost use Rattle.std.specs.Prelude.{◌≢◌, ℤ, List, []};
ghost use Rattle.std.specs.List.{AllByRecursion};
ghost use Rattle.language_steps.specs.LanguageSteps.{DoesLanguage};
ghost use Rattle.language_steps.specs.Operands.{ArePlainTables, HasTable, RunsOutOr};

use crate::op::LanguageOp;
use crate::operating::operated;
use crate::reading::read_languages;
use dfa_loading::Loaded;
use digit_tuple::dfa::Dfa;
use digit_tuple::name::Name;
use digit_tuple::step_fault::StepFault;
use digit_tuple::steps::Steps;
use std::alloc::Global;

/// The canonical automaton of what an operation makes of the languages of these names, at least one, whose tables are over
/// the same sets. Each table is read by a step; then, from the left, each further language takes a step, and a star and a
/// reversal, which are of the first, take one. The widths and the costs are those of `read_step`, `product_step`,
/// `concat_step`, `star_step` and `reverse_step`.
///
/// # Errors
/// `Letters` and `States` exactly at the first step that passes a limit, with its number. Only a step that reads has too many
/// letters.
pub fn language_of(
    alloc: Global,
    op: LanguageOp,
    names: &[Name],
    tables: &[Loaded],
    steps: &mut Steps,
) -> Result<Dfa, StepFault>
    requires some { names.now ≢ [] }
    requires tables { (sets : List (List ℤ)) × ArePlainTables sets tables.now }
    requires named { AllByRecursion (HasTable tables.now) names.now }
    ensures { RunsOutOr (DoesLanguage op names.now tables.now) steps.old result steps.new }
{
    let languages = read_languages(alloc, tables, steps)?;
    operated(alloc, op, names, &languages, steps)
}
