//! Whether all occurrences of a variable under one binding have one system.

ghost use Rattle.std.specs.Prelude.{◌≡◌, Some, IfOk, OnOk};
ghost use Rattle.std.specs.Option.{option_copied};
ghost use Rattle.std.specs.FinMap as finite;
ghost use Rattle.formula_resolve.specs.Answers.{Reports};
ghost use Rattle.formula_resolve.specs.Clashes.{first_clash, clash_with};
ghost use Rattle.formula_resolve.specs.Firsts.{binding as binding_of, with_absent};

use crate::fault::ResolveFault;
use crate::occurrence::Occurrence;
use digit_tuple::faults::OutOfMemory;
use digit_tuple::name::Name;
use std::alloc::Global;
use std::collections::BTreeMap;
use std::marker::Model;

/// The system of the first occurrence under each binding.
#[derive(Drop)]
struct FirstSystems {
    systems: BTreeMap<Vec<u64>, Name>,
}

impl Model for FirstSystems {
    ghost use Rattle.std.specs.FinMap as finite;
    ghost use Rattle.formula_parse.specs.Tokens.{Name as NameOf};
    ghost use Rattle.formula_resolve.specs.Headers.{Named, coded_name};
    ghost use Rattle.formula_resolve.specs.HeaderViews.{named_view};

    ghost Value = { Named NameOf };

    ghost coded = { finite.code coded_name coded_name };

    ghost view = { λ a. named_view (λ s. s) a.systems.entries };
}

impl FirstSystems {
    /// No occurrence.
    fn new(alloc: Global) -> FirstSystems
        ensures { result ≡ finite.empty }
    {
        FirstSystems {
            systems: BTreeMap::new(alloc),
        }
    }

    /// The system of the first occurrence under a binding.
    fn get(&self, binding: &[u64]) -> Option<&Name>
        ensures { option_copied result ≡ finite.get self.now binding.now }
    {
        self.systems.get(binding)
    }

    /// Adds the first occurrence under a binding.
    fn add(&mut self, binding: Vec<u64>, system: Name) -> Result<(), OutOfMemory>
        ensures { OnOk result (self.new ≡ finite.insert self.old binding.items system) }
    {
        self.systems.insert(binding, system)?;
        Ok(())
    }
}

/// Ok where all occurrences under each binding have one system; else the first that differs from the
/// first one under its binding.
pub(crate) fn check_systems(alloc: Global, occurrences: &[Occurrence]) -> Result<(), ResolveFault>
    ensures { Reports (first_clash occurrences.now) result }
{
    let mut firsts = FirstSystems::new(alloc);
    for occurrence in occurrences {
        check_system(alloc, occurrence, &mut firsts)?;
    }
    Ok(())
}

/// Ok where an occurrence has the system of the first one under its binding, or is the first.
fn check_system(
    alloc: Global,
    occurrence: &Occurrence,
    firsts: &mut FirstSystems,
) -> Result<(), ResolveFault>
    ensures clash_is { Reports (clash_with (finite.get firsts.old (binding_of occurrence.now)) occurrence.now) result }
    ensures firsts { OnOk result (firsts.new ≡ with_absent (finite.get firsts.old (binding_of occurrence.now)) firsts.old (binding_of occurrence.now) occurrence.now.system) }
{
    let key = binding(alloc, occurrence)?;
    match firsts.get(&key) {
        Some(first) => check_same(alloc, first, occurrence),
        None => {
            firsts.add(key, occurrence.system.copy(alloc)?)?;
            Ok(())
        }
    }
}

/// Ok where an occurrence has this system.
fn check_same(alloc: Global, first: &Name, occurrence: &Occurrence) -> Result<(), ResolveFault>
    ensures { Reports (clash_with (Some first.now) occurrence.now) result }
{
    if first.as_bytes() == occurrence.system.as_bytes() {
        return Ok(());
    }
    Err(ResolveFault::Clash(
        occurrence.name.copy(alloc)?,
        first.copy(alloc)?,
        occurrence.system.copy(alloc)?,
    ))
}

/// What determines the binding of an occurrence.
fn binding(alloc: Global, occurrence: &Occurrence) -> Result<Vec<u64>, OutOfMemory>
    ensures { IfOk result (λ key. key.items ≡ binding_of occurrence.now) }
{
    let mut key = Vec::new(alloc);
    key.push(occurrence.binder)?;
    for byte in occurrence.name.as_bytes() {
        key.push(u64::from(*byte))?;
    }
    Ok(key)
}
