//! Relations joined by a connective.

ghost use Rattle.num_system.specs.Joined.{IsBound};
ghost use Rattle.automaton_steps.specs.Makings.{DoesStep};
ghost use Rattle.number_relations.specs.Joins.{AgreeOnSystems, HaveOneDirection, relation_join_step};

use crate::relation::Relation;
use crate::track_systems::joint_systems;
use automaton_steps::join_step::{Joining, join_step as join_automata};
use digit_tuple::names::joint_names;
use digit_tuple::step_fault::StepFault;
use digit_tuple::steps::Steps;
use num_system::tracks::languages_of;
use product_op::op::Op;
use std::alloc::Global;

/// The relation of which the connective says that it holds, by the step `product` as the next one. Its tracks are those
/// of both, in byte order of their names; tracks of one name are one track, and are over one system. All systems have
/// one direction; a relation without tracks joins with relations of either. For `and not`, each track of the second is
/// one of the first.
///
/// By the law `join_holds` it holds of numbers as the connective says of the relations on their parts.
/// The width and the cost are those of the step on automata.
///
/// # Errors
/// `Letters` if and only if there are too many tracks or letters, looked at first; `States` if and only if the width
/// passes the limit. The steps are as before then, also if memory runs out.
pub fn join_step(
    alloc: Global,
    a: &Relation,
    b: &Relation,
    op: Op,
    steps: &mut Steps,
) -> Result<Relation, StepFault>
    requires agree { AgreeOnSystems a.now b.now }
    requires direction { HaveOneDirection a.now b.now }
    requires bound { IsBound op a.now.names b.now.names }
    ensures { DoesStep (relation_join_step op a.now b.now) steps.old result steps.new }
{
    let names = joint_names(alloc, a.names(), b.names())?;
    let systems = joint_systems(alloc, a, b, &names)?;
    let languages = languages_of(alloc, &systems)?;
    let joining = Joining {
        op,
        languages: &languages,
    };
    let joined = join_automata(alloc, a.tracked(), b.tracked(), joining, steps)?;
    Ok(Relation::from_parts(joined, systems))
}
