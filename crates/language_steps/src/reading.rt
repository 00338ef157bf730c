//! Languages read from tables.

ghost use Rattle.std.specs.Prelude.{◌≡◌, ◌<◌, [], length, Some, IfOk};
ghost use Rattle.std.specs.List.{AllByRecursion};
ghost use Rattle.dfa_reading.specs.Branching.{AreGiven};
ghost use Rattle.language_steps.specs.LanguageSteps.{DoesPlainTable, language_named};
ghost use Rattle.language_steps.specs.Operands.{HasLanguage, IsPlainTable, ReadsLanguages};

use automaton_steps::read_step::read_step;
use dfa_loading::Loaded;
use dfa_reading::Listed;
use digit_tuple::dfa::Dfa;
use digit_tuple::faults::{OpFault, OutOfMemory};
use digit_tuple::name::Name;
use digit_tuple::step_fault::StepFault;
use digit_tuple::steps::Steps;
use std::alloc::Global;

/// The canonical automaton of a language, under the name of its file.
#[derive(Drop)]
pub struct NamedLanguage {
    pub name: Name,
    pub language: Dfa,
}

/// The languages of tables over sets, each under the name of its file, by a step each.
///
/// # Errors
/// `Letters` and `States` exactly at the first step that passes a limit, with its number.
pub fn read_languages(
    alloc: Global,
    tables: &[Loaded],
    steps: &mut Steps,
) -> Result<Vec<NamedLanguage>, StepFault>
    requires { AllByRecursion IsPlainTable tables.now }
    ensures { ReadsLanguages tables.now steps.old result steps.new }
{
    let mut languages = Vec::new(alloc);
    for table in tables {
        let language = read_language(alloc, &table.listed, steps)?;
        languages.push(named(alloc, table.name(), language)?)?;
    }
    Ok(languages)
}

// A language under a name.
fn named(alloc: Global, name: &Name, language: Dfa) -> Result<NamedLanguage, OutOfMemory>
    ensures { IfOk result (λ named. named ≡ record { name = name.now; language = language }) }
{
    Ok(NamedLanguage {
        name: name.copy(alloc)?,
        language,
    })
}

/// The language of what is listed over sets, as a canonical automaton, by the step `read` as the next one.
///
/// # Errors
/// `Letters` and `States` exactly where the step passes a limit, with its number.
pub fn read_language(alloc: Global, listed: &Listed, steps: &mut Steps) -> Result<Dfa, StepFault>
    requires states { 0 < length listed.now.outputs }
    requires given { AreGiven listed.now.header [] }
    ensures { DoesPlainTable listed.now steps.old result steps.new }
{
    match listed.nfa(alloc, &[]) {
        Ok(branching) => read_step(alloc, &branching, steps),
        Err(OpFault::Letters) => Err(StepFault::Letters(steps.next_number())),
        Err(OpFault::States) => unreachable!(),
        Err(OpFault::Memory) => Err(StepFault::Memory),
    }
}

/// The language under a name, under which there is one.
pub fn language_under<'a>(languages: &'a [NamedLanguage], name: &Name) -> &'a Dfa
    requires { HasLanguage languages.now name.now }
    ensures { language_named languages.now name.now ≡ Some result.now }
{
    for named in languages {
        if named.name.as_bytes() == name.as_bytes() {
            return &named.language;
        }
    }
    unreachable!()
}
