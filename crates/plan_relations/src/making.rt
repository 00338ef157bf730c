//! One relation, made of earlier ones.

ghost use Rattle.std.specs.Prelude.{◌≡◌, ◌≢◌, ℕ, length, map, IfOk, Some};
ghost use Rattle.std.specs.List.{Contains};
ghost use Rattle.digit_tuple.specs.declared.step_fault.StepFault.TheVariants.{Memory};
ghost use Rattle.formula_parse.specs.Views.{relation_view, connective_view};
ghost use Rattle.num_system.specs.Sealed.{SystemValue};
ghost use Rattle.number_relations.specs.Relations.{RelationValue, system_named};
ghost use Rattle.num_system.specs.Tracks.{AgreeUnder};
ghost use Rattle.number_relations.specs.Placed.{IsPlaced, IsRenamed};
ghost use Rattle.number_relations.specs.Comparisons.{IsAnyNumber, IsComparison, IsSumRelation};
ghost use Rattle.automaton_steps.specs.Makings.{DoesStep};
ghost use Rattle.number_relations.specs.Constants.{relation_constant_step};
ghost use Rattle.number_relations.specs.Projections.{relation_project_step};
ghost use Rattle.word_output.specs.Words.{WordValue};
ghost use Rattle.plan_relations.specs.Libraries.{IsSystemIn, IsRelationIn, IsWordIn};
ghost use Rattle.plan_relations.specs.KnownViews.{known_value};
ghost use Rattle.plan_relations.specs.Makings.{comparison_of as comparison_by, op_of as op_by};
ghost use Rattle.plan_relations.specs.MadeOf.{DoesMaking, MayMake, name_of};

use crate::known::Known;
use crate::track_names::{track_name, track_names};
use crate::word_making::{WordAt, lettered, paired};
use digit_tuple::faults::OutOfMemory;
use digit_tuple::name::Name;
use digit_tuple::step_fault::StepFault;
use digit_tuple::steps::Steps;
use formula_parse::tree::{Connective, Relation as Comparing};
use num_system::comparison::Comparison;
use num_system::system::System;
use number_relations::complement::complement_step;
use number_relations::constant::constant_step;
use number_relations::join::join_step;
use number_relations::projection::project_step;
use number_relations::relation::Relation;
use product_op::op::Op;
use std::alloc::Global;
use std::rc::Rc;
use term_plans::{Making, Track};

/// The relation that is made so, of those at its places, by the next step where it has one.
pub(crate) fn make(
    alloc: Global,
    making: &Making,
    made: &[Relation],
    known: Known<'_>,
    steps: &mut Steps,
) -> Result<Relation, StepFault>
    requires { MayMake (known_value known) made.now making.now }
    ensures { DoesMaking steps.old (known_value known.entry) made.now making.now result steps.new }
{
    match making {
        Making::Compared(system, relation, left, right) => {
            let over = system_of(known, system);
            Ok(compared(alloc, over, *relation, left, right)?)
        }
        Making::Added(system, x, y, z) => Ok(added(alloc, system_of(known, system), x, y, z)?),
        Making::Number(system, track) => Ok(number(alloc, system_of(known, system), track)?),
        Making::Called(name, tracks) => Ok(called(alloc, relation_of(known, name), tracks)?),
        Making::Renamed(from, to, argument) => Ok(renamed(alloc, &made[*argument], from, to)?),
        Making::Constant(system, value, track) => {
            constant(alloc, system_of(known, system), *value, track, steps)
        }
        Making::Joined(connective, first, second) => {
            let op = op_of(*connective);
            join_step(alloc, &made[*first], &made[*second], op, steps)
        }
        Making::Complement(argument) => complement_step(alloc, &made[*argument], steps),
        Making::Projected(track, argument) => projected(alloc, &made[*argument], track, steps),
        Making::Lettered(name, tracks, relation, letter) => {
            let at = word_at(known, name, tracks);
            Ok(lettered(alloc, at, comparison_of(*relation), *letter)?)
        }
        Making::Paired(first, tracks, relation, second, others) => {
            let left = word_at(known, first, tracks);
            let right = word_at(known, second, others);
            paired(alloc, left, comparison_of(*relation), right, steps)
        }
    }
}

// The system of a name.
fn system_of<'a>(known: Known<'a>, name: &Name) -> &'a Rc<System>
    requires { (system : SystemValue) × IsSystemIn (known_value known) name.now system }
    ensures { IsSystemIn (known_value known.entry) name.now result.now.value }
{
    match known.systems.get(name) {
        Some(system) => system,
        None => unreachable!(),
    }
}

// The relation of a name.
fn relation_of<'a>(known: Known<'a>, name: &Name) -> &'a Relation
    requires { (r : RelationValue) × IsRelationIn (known_value known) name.now r }
    ensures { IsRelationIn (known_value known.entry) name.now result.now }
{
    match known.read.relation(name) {
        Some(relation) => relation.as_ref(),
        None => unreachable!(),
    }
}

// The word of a name, with its tracks.
fn word_at<'a>(known: Known<'a>, name: &Name, tracks: &'a [Track]) -> WordAt<'a>
    requires { (w : WordValue) × IsWordIn (known_value known) name.now w }
    ensures word { IsWordIn (known_value known.entry) name.now result.word.now }
    ensures tracks { result.tracks.now ≡ tracks.now }
{
    match known.read.word(name) {
        Some(word) => WordAt {
            word: word.as_ref(),
            tracks,
        },
        None => unreachable!(),
    }
}

// The numbers on two tracks that compare so.
fn compared(
    alloc: Global,
    system: &Rc<System>,
    relation: Comparing,
    left: &Track,
    right: &Track,
) -> Result<Relation, OutOfMemory>
    ensures { IfOk result (IsComparison system.now.value (comparison_by (relation_view relation)) (name_of left.now) (name_of right.now)) }
{
    let first = track_name(alloc, left)?;
    let second = track_name(alloc, right)?;
    Relation::comparison(alloc, system, comparison_of(relation), &first, &second)
}

// The comparison of a formula's relation.
fn comparison_of(relation: Comparing) -> Comparison
    ensures { result ≡ comparison_by (relation_view relation) }
{
    match relation {
        Comparing::Equal => Comparison::Equal,
        Comparing::Unequal => Comparison::Unequal,
        Comparing::Less => Comparison::Less,
        Comparing::Greater => Comparison::Greater,
        Comparing::AtMost => Comparison::AtMost,
        Comparing::AtLeast => Comparison::AtLeast,
    }
}

// The connective of a formula's.
fn op_of(connective: Connective) -> Op
    ensures { result ≡ op_by (connective_view connective) }
{
    match connective {
        Connective::And => Op::And,
        Connective::Or => Op::Or,
        Connective::Xor => Op::Xor,
        Connective::Implies => Op::Implies,
        Connective::Iff => Op::Iff,
    }
}

// The numbers on three tracks of which the third is the sum of the others.
fn added(
    alloc: Global,
    system: &Rc<System>,
    x: &Track,
    y: &Track,
    z: &Track,
) -> Result<Relation, OutOfMemory>
    ensures { IfOk result (IsSumRelation system.now.value (name_of x.now) (name_of y.now) (name_of z.now)) }
{
    let first = track_name(alloc, x)?;
    let second = track_name(alloc, y)?;
    let third = track_name(alloc, z)?;
    Relation::sum(alloc, system, &first, &second, &third)
}

// Any number on a track.
fn number(alloc: Global, system: &Rc<System>, track: &Track) -> Result<Relation, OutOfMemory>
    ensures { IfOk result (IsAnyNumber system.now.value (name_of track.now)) }
{
    let name = track_name(alloc, track)?;
    Relation::number(alloc, system, &name)
}

// A known relation on these tracks.
fn called(alloc: Global, relation: &Relation, tracks: &[Track]) -> Result<Relation, OutOfMemory>
    requires count { length tracks.now ≡ length relation.now.names }
    requires agree { AgreeUnder (map name_of tracks.now) relation.now.systems }
    ensures { IfOk result (IsPlaced relation.now.automaton relation.now.systems (map name_of tracks.now)) }
{
    let under = track_names(alloc, tracks)?;
    Relation::placed(alloc, relation.dfa(), relation.systems(), &under)
}

// A relation with one track under the name of another.
fn renamed(
    alloc: Global,
    relation: &Relation,
    from: &Track,
    to: &Track,
) -> Result<Relation, OutOfMemory>
    requires { Contains relation.now.names (name_of from.now) → Contains relation.now.names (name_of to.now)
        → system_named relation.now (name_of from.now) ≡ system_named relation.now (name_of to.now) }
    ensures { IfOk result (IsRenamed relation.now (name_of from.now) (name_of to.now)) }
{
    let first = track_name(alloc, from)?;
    let second = track_name(alloc, to)?;
    relation.renamed(alloc, &first, &second)
}

// The number on a track, by the step `const`.
fn constant(
    alloc: Global,
    system: &Rc<System>,
    value: u64,
    track: &Track,
    steps: &mut Steps,
) -> Result<Relation, StepFault>
    ensures { DoesStep (relation_constant_step system.now.value value (name_of track.now)) steps.old result steps.new }
{
    let name = track_name(alloc, track)?;
    constant_step(alloc, system, value, &name, steps)
}

// A relation without one track, by the step `project`.
fn projected(
    alloc: Global,
    relation: &Relation,
    track: &Track,
    steps: &mut Steps,
) -> Result<Relation, StepFault>
    requires { Contains relation.now.names (name_of track.now) }
    ensures { DoesStep (relation_project_step (name_of track.now) relation.now) steps.old result steps.new }
{
    let name = track_name(alloc, track)?;
    project_step(alloc, relation, &name, steps)
}
