//! Formulas built.

ghost use Rattle.std.specs.Prelude.{IfOk};
ghost use Rattle.formula_build.specs.KnownNames.{AreKnownIn};
ghost use Rattle.formula_build.specs.Resolved.{plan_headers};
ghost use Rattle.formula_build.specs.ResolvedViews.{IsPlanned, formula_of, headers_in, library_of};
ghost use Rattle.formula_build.specs.Solutions.{BuildsFormula, IsSolution, formula_plan, direction_named};
ghost use Rattle.formula_build.specs.TrackSystems.{Fits};
ghost use Rattle.formula_build.specs.VariableTracks.{IsOverVariables};

use crate::ordering::in_order;
use crate::resolving::Resolved;
use digit_tuple::step_fault::StepFault;
use digit_tuple::steps::Steps;
use number_relations::relation::Relation;
use plan_relations::{Known, Library, make_plans};
use std::alloc::Global;

/// The relation that holds of the numbers for which a resolved formula is true. Its tracks are the free variables, in
/// their order, each over its system; of a sentence there are none, and the verdict is its truth. It is made by the
/// steps of the formula's plan. Each name of the formula means something: systems have the directions of their
/// names, and relations and words are over the systems of their headers.
///
/// # Errors
/// `Letters` and `States` exactly at the first step that passes a limit, with its number; letters are
/// looked at before states.
pub fn build(
    alloc: Global,
    resolved: &Resolved<'_>,
    read: &Library,
    steps: &mut Steps,
) -> Result<Relation, StepFault>
    requires planned { IsPlanned resolved.now }
    requires fits { Fits (library_of resolved.now read.now) (plan_headers (headers_in resolved.now)) direction_named }
    requires known { AreKnownIn (library_of resolved.now read.now) (formula_of resolved.now) }
    ensures steps { BuildsFormula (library_of resolved.now read.now) (formula_plan (headers_in resolved.now) (formula_of resolved.now)) steps.old result steps.new }
    ensures tracks { IfOk result (IsOverVariables (library_of resolved.now read.now) resolved.now.variables.items) }
    ensures solution { IfOk result (IsSolution (library_of resolved.now read.now) (formula_of resolved.now)) }
{
    read.is_read();
    resolved.names.systems.are_sealed();
    let known = Known {
        systems: &resolved.names.systems,
        read,
    };
    let plan = &resolved.plan;
    let made = make_plans(alloc, &plan.plans, plan.last, known, steps)?;
    Ok(in_order(alloc, made)?)
}
