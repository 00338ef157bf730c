//! Words of several relations.

ghost use Rattle.std.specs.Prelude.{◌≡◌, ◌+◌, ◌≤◌, ◌↔◌, ℕ, map, List, IfOk, OnOk};
ghost use Rattle.std.specs.Rc.{rc_value};
ghost use Rattle.std.specs.Result.{IsErrOf};
ghost use Rattle.digit_tuple.specs.Deterministic.{states_of};
ghost use Rattle.digit_tuple.specs.Letters.{IsAlphabet, IsTooLarge};
ghost use Rattle.digit_tuple.specs.StepResults.{ExceedsWidth};
ghost use Rattle.digit_tuple.specs.Width.{HasWidth};
ghost use Rattle.numeration.specs.Representation.{letters_in, sizes_of};
ghost use Rattle.num_system.specs.Tracks.{systems_of};
ghost use Rattle.automaton_steps.specs.Makings.{DoesStep};
ghost use Rattle.combinations.specs.Combined.{AreSystemsFor, IsCombination};
ghost use Rattle.combinations.specs.CombineSteps.{CombineAlike, DoesCombine, combine_step as the_step};
ghost use Rattle.combinations.specs.Shapes.{HaveOneShape};

use crate::combine_fault::CombineFault;
use crate::held_letters::{combined_readers, tuple_letters};
use crate::part::{Part, are_relations};
use crate::shape::shape_fault;
use digit_tuple::alphabet::Alphabet;
use digit_tuple::exploration::Explored;
use digit_tuple::faults::OpFault;
use digit_tuple::kind::Kind;
use digit_tuple::limit::Limit;
use digit_tuple::step_fault::StepFault;
use digit_tuple::stepped::Stepped;
use digit_tuple::steps::Steps;
use num_system::sealed::are_sealed;
use num_system::system::System;
use num_system::tracks::{digits_of, languages_of, shared};
use product_op::tuples::explore_tuples;
use std::alloc::Global;
use std::rc::Rc;
use word_output::letter_function::LetterFunction;
use word_output::word::Word;

/// The word whose letter at each tuple of numbers is the value of the first listed relation that holds of
/// it, by the step `combine` as the next one. Where none holds its letter is `rest`, and without that it has
/// none. The systems are those of the first relation; without one there is at least one system, and all have one direction. Tracks are matched by
/// their places, and their names do not count. A relation may be listed more than once. The width is that
/// of tuples of what follows a word in each relation and in the language of each track. Time and memory
/// follow the width and the letters by which some residual of a tuple leads to one that is not empty.
///
/// # Errors
/// `Shape` if and only if the relations have not the same tracks, or have none: it is looked at first. Then `Letters`
/// if and only if there are too many tracks or letters, and `States` if and only if the width passes the limit, each
/// with the number of the step. The steps are as before then, also if memory runs out.
pub fn combine(
    alloc: Global,
    parts: &[Part],
    systems: &[Rc<System>],
    rest: Option<i32>,
    steps: &mut Steps,
) -> Result<Word, CombineFault>
    requires { AreSystemsFor parts.now (map rc_value systems.now) }
    ensures { DoesCombine rest parts.now (map rc_value systems.now) steps.old result steps.new }
{
    match shape_fault(parts) {
        Some((first, other)) => Err(CombineFault::Shape(first, other)),
        None => Ok(combine_step(alloc, parts, systems, rest, steps)?),
    }
}

// The word of relations that have the same tracks.
fn combine_step(
    alloc: Global,
    parts: &[Part],
    systems: &[Rc<System>],
    rest: Option<i32>,
    steps: &mut Steps,
) -> Result<Word, StepFault>
    requires systems { AreSystemsFor parts.now (map rc_value systems.now) }
    requires shape { HaveOneShape parts.now }
    ensures { DoesStep (the_step rest parts.now (map rc_value systems.now)) steps.old result steps.new }
{
    let kept = shared(alloc, systems)?;
    match combined(alloc, parts, systems, rest, steps.begin(Kind::Combine)) {
        Ok(Stepped { result, width }) => {
            steps.done(Kind::Combine, width, result.dfa().states())?;
            Ok(Word::from_parts(result, kept))
        }
        Err(OpFault::Letters) => Err(StepFault::Letters(steps.next_number())),
        Err(OpFault::States) => Err(StepFault::States(steps.next_number())),
        Err(OpFault::Memory) => Err(StepFault::Memory),
    }
}

// The letters of the word, with the width of the step.
fn combined(
    alloc: Global,
    parts: &[Part],
    systems: &[Rc<System>],
    rest: Option<i32>,
    limit: Limit<'_>,
) -> Result<Stepped<LetterFunction>, OpFault>
    requires systems { AreSystemsFor parts.now (map rc_value systems.now) }
    requires shape { HaveOneShape parts.now }
    ensures combination { IfOk result (λ stepped. IsCombination rest parts.now (map rc_value systems.now) (record { systems = map rc_value systems.now; function = stepped.result })) }
    ensures alphabet { OnOk result (IsAlphabet (sizes_of (systems_of (map rc_value systems.now)))) }
    ensures width { IfOk result (λ stepped. HasWidth (CombineAlike parts.now (map rc_value systems.now)) (letters_in (systems_of (map rc_value systems.now))) stepped.width) }
    ensures size { IfOk result (λ stepped. states_of stepped.result.automaton ≤ stepped.width) }
    ensures within { IfOk result (λ stepped. stepped.width ≤ limit.entry.most) }
    ensures letters { IsErrOf result OpFault.Letters → IsTooLarge (sizes_of (systems_of (map rc_value systems.now))) }
    ensures states { IsErrOf result OpFault.States → ExceedsWidth limit.entry.most (the_step rest parts.now (map rc_value systems.now)).step }
{
    are_sealed(systems);
    are_relations(parts);
    let digits = digits_of(alloc, systems)?;
    let languages = languages_of(alloc, systems)?;
    let alphabet = Alphabet::new(alloc, &digits)?;
    let readers = combined_readers(alloc, &alphabet, parts, &languages)?;
    let Stepped { result, width } = explore_tuples(alloc, alphabet, &readers, limit)?;
    let Explored { dfa, keys } = result;
    let letters = tuple_letters(alloc, rest, parts, &readers, &keys)?;
    let function = LetterFunction::of_states(alloc, &dfa, &letters)?;
    Ok(Stepped {
        result: function,
        width,
    })
}
