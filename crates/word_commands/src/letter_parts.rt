//! The relations of the letters, one after another.

ghost use Rattle.std.specs.Prelude.{◌≡◌, ◌⊎◌, IfErr, IfOk};
ghost use Rattle.digit_tuple.specs.declared.step_fault.StepFault.TheVariants.{Memory};
ghost use Rattle.formula_build.specs.Solutions.{BuildsFormula};
ghost use Rattle.word_commands.specs.ImageSteps.{letter_plan};
ghost use Rattle.word_commands.specs.LetterParts.{AreBuilt, AreLetterParts, IsLetterRelation, IsLetterStopped, IsUsable};
ghost use Rattle.word_commands.specs.LetterSettings.{library_in};

use crate::setting::Setting;
use combinations::part::Part;
use digit_tuple::name::Name;
use digit_tuple::step_fault::StepFault;
use digit_tuple::steps::Steps;
use formula_build::{build, resolve};
use formula_resolve::ResolveFault;
use number_relations::relation::Relation;
use std::alloc::Global;
use std::rc::Rc;
use word_images::image_formula::image_formula;

/// What the formulas of letters are made of.
#[derive(Clone, Copy)]
pub struct Formulas<'a> {
    /// What their names mean.
    pub setting: &'a Setting,
    /// The system's name.
    pub system: &'a Name,
    /// The length of the images.
    pub length: usize,
}

/// The relations of these letters, made one after another.
pub fn letter_parts(
    alloc: Global,
    formulas: Formulas<'_>,
    letters: &[i32],
    steps: &mut Steps,
) -> Result<Vec<Part>, StepFault>
    requires { IsUsable formulas.setting.now formulas.system.now formulas.length }
    ensures built { IfOk result (λ parts. AreBuilt (library_in formulas.entry.setting.now) formulas.entry.system.now formulas.entry.length steps.old letters.now parts.items steps.new) }
    ensures parts { IfOk result (λ parts. AreLetterParts formulas.entry.setting.now formulas.entry.system.now formulas.entry.length parts.items) }
    ensures stopped { IfErr result (λ fault. (fault ≡ Memory) ⊎ IsLetterStopped (library_in formulas.entry.setting.now) formulas.entry.system.now formulas.entry.length steps.old letters.now fault steps.new) }
{
    let mut parts = Vec::with_capacity(alloc, letters.len())?;
    for letter in letters {
        let relation = letter_relation(alloc, formulas, *letter, steps)?;
        parts.push(Part::new(Rc::new(alloc, relation)?, *letter))?;
    }
    Ok(parts)
}

// The relation of the places at which a letter is.
fn letter_relation(
    alloc: Global,
    formulas: Formulas<'_>,
    letter: i32,
    steps: &mut Steps,
) -> Result<Relation, StepFault>
    requires { IsUsable formulas.setting.now formulas.system.now formulas.length }
    ensures steps { BuildsFormula (library_in formulas.entry.setting.now) (letter_plan formulas.entry.system.now formulas.entry.length letter) steps.old result steps.new }
    ensures relation { IfOk result (IsLetterRelation formulas.entry.setting.now formulas.entry.system.now formulas.entry.length letter) }
{
    let Formulas {
        setting,
        system,
        length,
    } = formulas;
    let formula = image_formula(alloc, system, length, letter)?;
    match resolve(alloc, &formula, &setting.names) {
        Ok(resolved) => build(alloc, &resolved, &setting.words, steps),
        Err(ResolveFault::Memory) => Err(StepFault::Memory),
        Err(ResolveFault::Plain(_)) => unreachable!(),
        Err(ResolveFault::Arity(_, _, _)) => unreachable!(),
        Err(ResolveFault::Clash(_, _, _)) => unreachable!(),
        Err(ResolveFault::Direction(_, _)) => unreachable!(),
    }
}
