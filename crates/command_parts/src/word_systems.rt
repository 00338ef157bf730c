//! The systems of a word, by name.

ghost use Rattle.std.specs.Prelude.{◌≡◌, IfOk};

use digit_tuple::faults::OutOfMemory;
use digit_tuple::name::Name;
use std::alloc::Global;
use std::marker::Model;

/// The names of the systems of a word's tracks, seen as the list of them.
#[derive(Drop)]
pub struct WordSystems {
    names: Vec<Name>,
}

impl Model for WordSystems {
    ghost use Rattle.std.specs.Prelude.{ℕ, List};

    ghost Value = { List (List ℕ) };

    ghost view = { λ systems. systems.names.items };
}

impl WordSystems {
    /// The same names, in memory of their own.
    pub fn of(alloc: Global, names: &[Name]) -> Result<Self, OutOfMemory>
        ensures { IfOk result (λ systems. systems ≡ names.now) }
    {
        let mut copies = Vec::with_capacity(alloc, names.len())?;
        for name in names {
            copies.push(name.copy(alloc)?)?;
        }
        Ok(WordSystems { names: copies })
    }

    /// The names in their order.
    pub fn as_slice(&self) -> &[Name]
        ensures { result.now ≡ self.now }
    {
        &self.names
    }
}
