//! Relations made of words.

ghost use Rattle.std.specs.Prelude.{◌≡◌, map, length, IfOk};
ghost use Rattle.std.specs.Rc.{rc_value};
ghost use Rattle.automaton_steps.specs.Makings.{DoesStep};
ghost use Rattle.num_system.specs.Tracks.{AgreeUnder};
ghost use Rattle.plan_relations.specs.LetterRelations.{IsLetterRelation};
ghost use Rattle.plan_relations.specs.PairRelations.{MayPairWords, relation_pair_step, pair_systems as pair_systems_of};
ghost use Rattle.plan_relations.specs.MadeOf.{name_of, placed_at};

use crate::track_names::track_names;
use digit_tuple::faults::OutOfMemory;
use digit_tuple::name::Name;
use digit_tuple::names::joint_names;
use digit_tuple::step_fault::StepFault;
use digit_tuple::steps::Steps;
use num_system::comparison::Comparison;
use num_system::system::System;
use num_system::tracks::shared;
use number_relations::placed::systems_for;
use number_relations::relation::Relation;
use std::alloc::Global;
use std::rc::Rc;
use term_plans::Track;
use word_output::letter_set::letter_set;
use word_output::pair::{Placed, pair_step};
use word_output::word::Word;

/// A word, and a track for each of its indices.
#[derive(Clone, Copy)]
pub(crate) struct WordAt<'a> {
    pub(crate) word: &'a Word,
    pub(crate) tracks: &'a [Track],
}

/// The positions at which the word's letter compares so with a given one, the word's on the left.
pub(crate) fn lettered(
    alloc: Global,
    at: WordAt<'_>,
    comparison: Comparison,
    letter: i32,
) -> Result<Relation, OutOfMemory>
    requires count { length at.tracks.now ≡ length at.word.now.systems }
    requires agree { AgreeUnder (map name_of at.tracks.now) at.word.now.systems }
    ensures { IfOk result (IsLetterRelation comparison letter (placed_at at.entry.word.now at.entry.tracks.now)) }
{
    let under = track_names(alloc, at.tracks)?;
    let places = letter_set(alloc, at.word.function(), comparison, letter)?;
    Relation::placed(alloc, &places, at.word.systems(), &under)
}

/// The positions at which the letters of two words compare so, by the step `product`.
pub(crate) fn paired(
    alloc: Global,
    first: WordAt<'_>,
    comparison: Comparison,
    second: WordAt<'_>,
    steps: &mut Steps,
) -> Result<Relation, StepFault>
    requires { MayPairWords (placed_at first.word.now first.tracks.now) (placed_at second.word.now second.tracks.now) }
    ensures { DoesStep (relation_pair_step comparison (placed_at first.entry.word.now first.entry.tracks.now) (placed_at second.entry.word.now second.entry.tracks.now)) steps.old result steps.new }
{
    let under = track_names(alloc, first.tracks)?;
    let others = track_names(alloc, second.tracks)?;
    let systems = pair_systems(alloc, first, second)?;
    let left = Placed {
        function: first.word.function(),
        under: &under,
    };
    let right = Placed {
        function: second.word.function(),
        under: &others,
    };
    let tracked = pair_step(alloc, left, comparison, right, steps)?;
    Ok(Relation::from_parts(tracked, systems))
}

// The systems of the tracks of both, in byte order of their names.
fn pair_systems(
    alloc: Global,
    first: WordAt<'_>,
    second: WordAt<'_>,
) -> Result<Vec<Rc<System>>, OutOfMemory>
    requires first { length first.tracks.now ≡ length first.word.now.systems }
    requires second { length second.tracks.now ≡ length second.word.now.systems }
    ensures { IfOk result (λ systems. map rc_value systems.items ≡ pair_systems_of (placed_at first.entry.word.now first.entry.tracks.now) (placed_at second.entry.word.now second.entry.tracks.now)) }
{
    let mut under = track_names(alloc, first.tracks)?;
    let mut others = track_names(alloc, second.tracks)?;
    let names = joint_names(alloc, &under, &others)?;
    under.append(&mut others)?;
    let mut systems = shared(alloc, first.word.systems())?;
    systems.append(&mut shared(alloc, second.word.systems())?)?;
    systems_for(alloc, &systems, &under, &names)
}
