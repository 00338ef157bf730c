//! The free variables of a formula, with their systems.

ghost use Rattle.std.specs.Prelude.{◌≡◌, ◌==◌, ◌&&◌, ◌++◌, ◌∷◌, [], List, map, IfOk, OnOk};
ghost use Rattle.std.specs.Str.{bytes_eq};
ghost use Rattle.std.specs.Option.{option_copied};
ghost use Rattle.formula_resolve.specs.Occurrences.{free_of};
ghost use Rattle.formula_resolve.specs.FreeOccurrences.{named, system_among};
ghost use Rattle.formula_resolve.specs.FreeVariables.{IsKept, free_variables as free_variables_of};
ghost use Rattle.formula_resolve.specs.declared.occurrence.Occurrence.{Occurrence as OccurrenceOf};

use crate::occurrence::Occurrence;
use digit_tuple::faults::OutOfMemory;
use digit_tuple::name::Name;
use std::alloc::Global;
use std::collections::BTreeMap;

/// A free variable, and its system.
#[derive(Drop)]
pub struct Variable {
    pub name: Name,
    pub system: Name,
}

/// Whether the occurrence is one of the variable, and no quantifier binds it.
fn is_free(occurrence: &Occurrence, variable: &Name) -> bool
    ensures { result ≡ ((occurrence.now.binder == 0) && bytes_eq variable.now occurrence.now.name) }
{
    occurrence.binder == 0 && variable.as_bytes() == occurrence.name.as_bytes()
}

/// The system of the first occurrence of a variable that no quantifier binds.
pub(crate) fn first_free<'a>(occurrences: &'a [Occurrence], variable: &Name) -> Option<&'a Name>
    ensures { option_copied result ≡ system_among (map named (free_of 1 occurrences.now)) variable.now }
{
    for occurrence in occurrences {
        if is_free(occurrence, variable) {
            return Some(&occurrence.system);
        }
    }
    None
}

/// The variables of the occurrences that no quantifier binds, in byte order, each with the system of
/// its first such occurrence.
pub(crate) fn free_variables(
    alloc: Global,
    occurrences: &[Occurrence],
) -> Result<Vec<Variable>, OutOfMemory>
    ensures { IfOk result (λ variables. variables.items ≡ free_variables_of occurrences.now) }
{
    let mut variables = BTreeMap::new(alloc);
    for occurrence in occurrences {
        if occurrence.binder == 0 {
            add_variable(alloc, &mut variables, occurrence)?;
        }
    }
    Ok(variables.into_values().collect(alloc)?)
}

/// Adds the variable of an occurrence, unless it is there.
fn add_variable(
    alloc: Global,
    variables: &mut BTreeMap<Vec<u8>, Variable>,
    occurrence: &Occurrence,
) -> Result<(), OutOfMemory>
    ensures { OnOk result ((os : List OccurrenceOf) → IsKept os variables.old.entries → IsKept (os ++ occurrence.now ∷ []) variables.new.entries) }
{
    if variables.contains_key(occurrence.name.as_bytes()) {
        return Ok(());
    }
    let key = Vec::from_slice(alloc, occurrence.name.as_bytes())?;
    let variable = Variable {
        name: occurrence.name.copy(alloc)?,
        system: occurrence.system.copy(alloc)?,
    };
    variables.insert(key, variable)?;
    Ok(())
}
