//! The resolution of a formula.

ghost use Rattle.std.specs.Prelude.{◌≡◌, IfOk, [], None};
ghost use Rattle.std.specs.Option.{option_map};
ghost use Rattle.std.specs.FinMap as finite;
ghost use Rattle.formula_parse.specs.Views.{formula_view};
ghost use Rattle.formula_resolve.specs.Answers.{Reports};
ghost use Rattle.formula_resolve.specs.Occurrences.{all_occurrences};
ghost use Rattle.formula_resolve.specs.Directions.{first_conflict};
ghost use Rattle.formula_resolve.specs.FreeOccurrences.{free_system as free_system_of};
ghost use Rattle.formula_resolve.specs.Resolving.{direction_fault, Resolves};

use crate::arity::check_uses;
use crate::clash::check_systems;
use crate::direction::Conflict;
use crate::fault::ResolveFault;
use crate::headers::Headers;
use crate::mention::mentions;
use crate::scope::Scope;
use crate::variable::{Variable, first_free, free_variables};
use crate::walk::{Walk, walk_formula};
use digit_tuple::faults::OutOfMemory;
use digit_tuple::name::Name;
use formula_parse::tree::Formula;
use std::alloc::Global;

/// What a formula is built with.
#[derive(Drop)]
pub struct Resolved {
    /// The free variables in byte order, with their systems.
    pub variables: Vec<Variable>,
}

/// The resolution of a formula: its free variables in byte order with their systems, where its names,
/// systems and directions are as they may be. A name without a header has no tracks.
///
/// It takes time in the length of the formula times its nesting and the logarithm of the number of
/// names, and calls itself no deeper than the nesting.
///
/// # Errors
/// The first misuse of a name from the left: `Plain` where an automaton over sets is called, `Arity`
/// where a name has another number of tracks than is given. Else `Clash`: the first occurrence of a
/// variable whose system is not that of the first one under the same binding. Else `Direction`: the
/// first chain or atom, inner before outer and left before right, whose free variables or two words
/// have systems of two directions. `Memory` where there is not enough.
pub fn resolve(
    alloc: Global,
    formula: &Formula,
    headers: &Headers,
) -> Result<Resolved, ResolveFault>
    ensures { Resolves headers.now (formula_view formula.now) result }
{
    let mentioned = mentions(alloc, formula)?;
    check_uses(alloc, &mentioned, headers)?;
    let Walk {
        occurrences,
        conflict,
        ..
    } = walk_whole(alloc, formula, headers)?;
    check_systems(alloc, &occurrences)?;
    check_directions(conflict)?;
    let variables = free_variables(alloc, &occurrences)?;
    Ok(Resolved { variables })
}

/// The system at the first free occurrence of a variable of a formula, from the left; none where the variable does not
/// occur free. A name without a header has no tracks.
///
/// It takes the time of `resolve`.
///
/// # Errors
/// None apart from out of memory.
pub fn free_system(
    alloc: Global,
    formula: &Formula,
    headers: &Headers,
    variable: &Name,
) -> Result<Option<Name>, OutOfMemory>
    ensures { IfOk result (λ system. system ≡ free_system_of headers.now (formula_view formula.now) variable.now) }
{
    let walk = walk_whole(alloc, formula, headers)?;
    match first_free(&walk.occurrences, variable) {
        Some(system) => Ok(Some(system.copy(alloc)?)),
        None => Ok(None),
    }
}

/// The walk through a whole formula.
fn walk_whole(alloc: Global, formula: &Formula, headers: &Headers) -> Result<Walk, OutOfMemory>
    ensures occurrences { IfOk result (λ w. w.occurrences.items ≡ all_occurrences headers.now (formula_view formula.now)) }
    ensures conflict { IfOk result (λ w. w.conflict ≡ first_conflict headers.now (formula_view formula.now)) }
{
    let mut walk = Walk {
        scope: Scope::new(alloc),
        next: 1,
        occurrences: Vec::new(alloc),
        conflict: None,
    };
    walk_formula(alloc, formula, headers, &mut walk)?;
    Ok(walk)
}

/// Ok where no two directions meet.
fn check_directions(conflict: Option<Conflict>) -> Result<(), ResolveFault>
    ensures { Reports (option_map direction_fault conflict) result }
{
    match conflict {
        Some(Conflict { first, other }) => Err(ResolveFault::Direction(first, other)),
        None => Ok(()),
    }
}
