//! Operations on languages under names.

ghost use Rattle.std.specs.Prelude.{◌≡◌, ◌≢◌, [], List, ℕ};
ghost use Rattle.std.specs.List.{AllByRecursion};
ghost use Rattle.minimise.specs.Canonical.{IsCanonical};
ghost use Rattle.automaton_steps.specs.Makings.{DoesStep};
ghost use Rattle.language_steps.specs.declared.op.LanguageOp.TheVariants.{Pair};
ghost use Rattle.language_steps.specs.LanguageSteps.{DoesOperation, languages_named, pair_step};
ghost use Rattle.language_steps.specs.Operands.{AreCanonicalOver, HasLanguage, IsFirst, RunsOutOr};

use crate::op::{LanguageOp, OneOp, PairOp};
use crate::reading::{NamedLanguage, language_under};
use automaton_steps::reverse_step::reverse_step;
use digit_tuple::dfa::Dfa;
use digit_tuple::name::Name;
use digit_tuple::step_fault::StepFault;
use digit_tuple::steps::Steps;
use lang_ops::concat_step::concat_step;
use lang_ops::product_step::product_step;
use lang_ops::star_step::star_step;
use product_op::op::Op;
use std::alloc::Global;

/// What an operation makes of the languages under these names, of which there is at least one. A star and a reversal are of the
/// first.
pub fn operated(
    alloc: Global,
    op: LanguageOp,
    names: &[Name],
    languages: &[NamedLanguage],
    steps: &mut Steps,
) -> Result<Dfa, StepFault>
    requires some { names.now ≢ [] }
    requires named { AllByRecursion (HasLanguage languages.now) names.now }
    requires canonical { (sizes : List ℕ) × AreCanonicalOver sizes languages.now }
    ensures { RunsOutOr (DoesOperation op (languages_named languages.now names.now)) steps.old result steps.new }
{
    match op {
        LanguageOp::Pair(pair) => chained(alloc, pair, names, languages, steps),
        LanguageOp::One(OneOp::Star) => star_step(alloc, first_of(names, languages), steps),
        LanguageOp::One(OneOp::Reversal) => {
            reverse_step(alloc, first_of(names, languages), steps)
        }
    }
}

// The language under the first name.
fn first_of<'a>(names: &[Name], languages: &'a [NamedLanguage]) -> &'a Dfa
    requires some { names.now ≢ [] }
    requires named { AllByRecursion (HasLanguage languages.now) names.now }
    ensures { IsFirst result.now (languages_named languages.now names.now) }
{
    let [first, ..] = names else { unreachable!() };
    language_under(languages, first)
}

// One step for each language after the first, from the left.
fn chained(
    alloc: Global,
    op: PairOp,
    names: &[Name],
    languages: &[NamedLanguage],
    steps: &mut Steps,
) -> Result<Dfa, StepFault>
    requires some { names.now ≢ [] }
    requires named { AllByRecursion (HasLanguage languages.now) names.now }
    requires canonical { (sizes : List ℕ) × AreCanonicalOver sizes languages.now }
    ensures { RunsOutOr (DoesOperation (Pair op) (languages_named languages.now names.now)) steps.old result steps.new }
{
    let [first, others @ ..] = names else {
        unreachable!()
    };
    let mut made = language_under(languages, first).copy(alloc)?;
    for name in others {
        made = joined(alloc, op, &made, language_under(languages, name), steps)?;
    }
    Ok(made)
}

// What an operation makes of two languages, by the next step.
fn joined(alloc: Global, op: PairOp, a: &Dfa, b: &Dfa, steps: &mut Steps) -> Result<Dfa, StepFault>
    requires first { IsCanonical a.now }
    requires second { IsCanonical b.now }
    requires sizes { b.now.sizes ≡ a.now.sizes }
    ensures { DoesStep (pair_step op a.now b.now) steps.old result steps.new }
{
    match op {
        PairOp::Union => product_step(alloc, a, b, Op::Or, steps),
        PairOp::Intersection => product_step(alloc, a, b, Op::And, steps),
        PairOp::Concatenation => concat_step(alloc, a, b, steps),
    }
}
