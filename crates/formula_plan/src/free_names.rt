//! Free variables of a part of a formula, as an ordered set.

ghost use Rattle.std.specs.Prelude.{◌≡◌, [], ◌∷◌, ◌++◌, IfOk, string_bytes};
ghost use Rattle.formula_parse.specs.Views.{names_view};
ghost use Rattle.formula_plan.specs.OwnNames.{has_name, has_any as has_any_of, without_name, HaveSame};

use digit_tuple::faults::OutOfMemory;
use digit_tuple::name::Name;
use std::alloc::Global;
use std::collections::BTreeSet;
use std::marker::Model;

/// Names, each once. To look for one, to add one and to take one out costs the logarithm of their number.
#[derive(Drop)]
pub(crate) struct FreeNames {
    alloc: Global,
    names: BTreeSet<String>,
}

impl Model for FreeNames {
    ghost use Rattle.std.specs.Prelude.{List, map, string_bytes};
    ghost use Rattle.formula_parse.specs.Tokens.{Name as NameOf};

    ghost Value = { List NameOf };

    ghost view = { λ a. map string_bytes a.names.keys };
}

impl FreeNames {
    /// No name.
    pub fn new(alloc: Global) -> FreeNames
        ensures { result ≡ [] }
    {
        FreeNames {
            alloc,
            names: BTreeSet::new(alloc),
        }
    }

    /// Whether the name is there.
    pub fn has(&self, name: &Name) -> bool
        ensures { result ≡ has_name self.now name.now }
    {
        self.names.contains(name.as_str())
    }

    /// Whether one of some names is there.
    pub fn has_any(&self, names: &[Name]) -> bool
        ensures { result ≡ has_any_of (names_view names.now) self.now }
    {
        for name in names {
            if self.has(name) {
                return true;
            }
        }
        false
    }

    /// Adds a name.
    pub fn add(&mut self, name: &Name) -> Result<(), OutOfMemory>
        ensures { IfOk result (λ _. HaveSame self.new (self.old ++ name.now ∷ [])) }
    {
        let text = String::from_str(self.alloc, name.as_str())?;
        self.insert(text)
    }

    /// Adds the names of another set.
    pub fn add_all(&mut self, more: FreeNames) -> Result<(), OutOfMemory>
        ensures { IfOk result (λ _. HaveSame self.new (self.old ++ more)) }
    {
        for text in more.names {
            self.insert(text)?;
        }
        Ok(())
    }

    /// Takes the name out.
    pub fn remove(&mut self, name: &Name)
        ensures { HaveSame self.new (without_name name.now self.old) }
    {
        self.names.remove(name.as_str());
    }

    /// Adds the name with this text.
    fn insert(&mut self, text: String) -> Result<(), OutOfMemory>
        ensures { IfOk result (λ _. HaveSame self.new (self.old ++ string_bytes text ∷ [])) }
    {
        self.names.insert(text)?;
        Ok(())
    }
}
