//! The quantifiers that bind variables at a place of a formula.

ghost use Rattle.std.specs.Prelude.{◌≡◌, map, length, IfOk, OnOk, if◌then◌else◌};
ghost use Rattle.std.specs.FinMap as finite;
ghost use Rattle.formula_parse.specs.Views.{names_view};
ghost use Rattle.formula_resolve.specs.Occurrences.{Binders, bound_by, is_listed};
ghost use Rattle.formula_resolve.specs.Scopes.{binders_of};

use digit_tuple::faults::OutOfMemory;
use digit_tuple::name::Name;
use std::alloc::Global;
use std::collections::BTreeMap;
use std::marker::Model;

/// For each variable the number of the quantifier that binds it; 0 where none does.
#[derive(Drop)]
pub(crate) struct Scope {
    alloc: Global,
    binders: BTreeMap<Vec<u8>, u64>,
}

impl Model for Scope {
    ghost use Rattle.std.specs.Prelude.{ℕ};
    ghost use Rattle.std.specs.Coded.{coded_ℕ};
    ghost use Rattle.std.specs.FinMap as finite;
    ghost use Rattle.formula_resolve.specs.Headers.{Named, coded_name};
    ghost use Rattle.formula_resolve.specs.HeaderViews.{named_view};

    ghost Value = { Named ℕ };

    ghost coded = { finite.code coded_name coded_ℕ };

    ghost view = { λ a. named_view (λ k. k) a.binders.entries };
}

impl Scope {
    /// No variable is bound.
    pub fn new(alloc: Global) -> Scope
        ensures { result ≡ finite.empty }
    {
        Scope {
            alloc,
            binders: BTreeMap::new(alloc),
        }
    }

    /// The number of the quantifier that binds the variable, or 0.
    pub fn binder(&self, name: &Name) -> u64
        ensures { result ≡ binders_of self.now name.now }
    {
        match self.binders.get(name.as_bytes()) {
            Some(binder) => *binder,
            None => 0,
        }
    }

    /// The quantifier of this number binds the variable.
    fn bind(&mut self, name: &Name, binder: u64) -> Result<(), OutOfMemory>
        ensures { OnOk result (self.new ≡ finite.insert self.old name.now binder) }
    {
        let key = Vec::from_slice(self.alloc, name.as_bytes())?;
        self.binders.insert(key, binder)?;
        Ok(())
    }

    /// The numbers of the quantifiers that bind the variables.
    pub fn binders(&self, alloc: Global, names: &[Name]) -> Result<Vec<u64>, OutOfMemory>
        ensures { IfOk result (λ binders. binders.items ≡ map (binders_of self.now) names.now) }
    {
        let mut binders = Vec::with_capacity(alloc, names.len())?;
        for name in names {
            binders.push(self.binder(name))?;
        }
        Ok(binders)
    }

    /// The quantifier of this number binds the variables.
    pub fn bind_all(&mut self, names: &[Name], binder: u64) -> Result<(), OutOfMemory>
        ensures { OnOk result (binders_of self.new ≡ bound_by binder (names_view names.now) (binders_of self.old)) }
    {
        for name in names {
            self.bind(name, binder)?;
        }
        Ok(())
    }

    /// The variables are bound as they were when these were their quantifiers.
    pub fn restore(&mut self, names: &[Name], binders: &[u64]) -> Result<(), OutOfMemory>
        requires { length binders.now ≡ length names.now }
        ensures { OnOk result ((b : Binders) → binders.now ≡ map b names.now
            → binders_of self.new ≡ (λ m. if is_listed m (names_view names.now) then b m else binders_of self.old m)) }
    {
        for (place, name) in names.iter().enumerate() {
            self.bind(name, binders[place])?;
        }
        Ok(())
    }
}
