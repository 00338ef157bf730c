//! Formulas resolved.

ghost use Rattle.std.specs.Prelude.{◌≡◌, IfOk};
ghost use Rattle.formula_parse.specs.Views.{formula_view};
ghost use Rattle.formula_resolve.specs.Answers.{Reports};
ghost use Rattle.formula_resolve.specs.Resolving.{fault_of};
ghost use Rattle.formula_build.specs.Resolved.{AreDirections};
ghost use Rattle.formula_build.specs.ResolvedViews.{IsPlanned};
ghost use Rattle.formula_build.specs.Solutions.{IsFormed, direction_named};

use crate::names::Names;
use formula_parse::tree::Formula;
use formula_plan::{FormulaPlan, plan};
use formula_resolve::{ResolveFault, Variable, resolve as resolve_names};
use std::alloc::Global;

/// A formula that may be built: its free variables, and its plan.
#[derive(Drop)]
pub struct Resolved<'a> {
    /// The formula.
    pub formula: &'a Formula,
    /// What its names are over.
    pub names: &'a Names,
    /// The free variables in byte order, with their systems.
    pub variables: Vec<Variable>,
    /// The steps by which it is built.
    pub plan: FormulaPlan,
}

/// The resolution of a formula that was read from a text, where the systems of each header have one
/// direction, that of their names. Its time and memory are those of `formula_resolve::resolve` and of
/// `formula_plan::plan`.
///
/// # Errors
/// Those of `formula_resolve::resolve`: `Plain` or `Arity` at the first misuse of a name from the left,
/// else `Clash`, else `Direction`.
pub fn resolve<'a>(
    alloc: Global,
    formula: &'a Formula,
    names: &'a Names,
) -> Result<Resolved<'a>, ResolveFault>
    requires formed { IsFormed (formula_view formula.now) }
    requires directions { AreDirections names.now.headers direction_named }
    ensures reported { Reports (fault_of names.now.headers (formula_view formula.now)) result }
    ensures formula { IfOk result (λ r. r.formula.now ≡ formula.now) }
    ensures names { IfOk result (λ r. r.names.now ≡ names.now) }
    ensures planned { IfOk result IsPlanned }
{
    let resolved = resolve_names(alloc, formula, &names.headers)?;
    let plan = plan(alloc, formula, &names.headers)?;
    Ok(Resolved {
        formula,
        names,
        variables: resolved.variables,
        plan,
    })
}
