//! The classes by which others are still to be parted.

ghost use Rattle.std.specs.Prelude.{◌≡◌, ◌↔◌, ℕ, ◌∷◌, ◌++◌, ◌+◌, ◌≤◌, [], false, length, slice_index_or, IfOk, IsTrue, OnOk, MatchOption};
ghost use Rattle.std.specs.List.{Contains};

use digit_tuple::faults::OutOfMemory;
use std::alloc::Global;
use std::marker::Model;

/// Classes that are pending, the last of which is the next.
#[derive(Drop)]
pub struct PendingClasses {
    classes: Vec<u32>,
    // Whether each class is among them.
    flags: Vec<bool>,
}

impl Model for PendingClasses {
    ghost use Rattle.std.specs.Prelude.{ℕ, List};
    ghost use Rattle.residual_classes.specs.Pending.{AreMarked};

    ghost Value = { List ℕ };

    ghost view = { λ pending. pending.classes.items };

    ghost invariant = { λ pending. AreMarked pending.classes.items pending.flags.items };
}

impl PendingClasses {
    /// None yet of so many classes. Memory follows their number.
    pub fn new(alloc: Global, count: usize) -> Result<Self, OutOfMemory>
        ensures { IfOk result (λ pending. pending ≡ []) }
    {
        Ok(PendingClasses {
            classes: Vec::new(alloc),
            flags: vec![in alloc; false; count]?,
        })
    }

    /// Whether a class is pending.
    pub fn has(&self, class: u32) -> bool
        ensures { IsTrue result ↔ Contains self.now class }
    {
        self.flags.get(class as usize).copied().unwrap_or(false)
    }

    /// Makes a class pending.
    pub fn push(&mut self, class: u32) -> Result<(), OutOfMemory>
        requires { ¬ Contains self.old class }
        ensures { OnOk result (self.new ≡ self.old ++ class ∷ []) }
    {
        widen(&mut self.flags, class as usize + 1)?;
        self.classes.push(class)?;
        self.flags[class as usize] = true;
        Ok(())
    }

    /// Takes the class that is next, which is no longer pending.
    pub fn pop(&mut self) -> Option<u32>
        ensures taken { MatchOption result (self.new ≡ self.old) (λ class. self.old ≡ self.new ++ class ∷ []) }
        ensures once { MatchOption result (self.new ≡ []) (λ class. ¬ Contains self.new class) }
    {
        let class = self.classes.pop()?;
        self.flags[class as usize] = false;
        Some(class)
    }
}

// Adds flags that are not set, so that there are so many at least.
fn widen(flags: &mut Vec<bool>, count: usize) -> Result<(), OutOfMemory>
    ensures same { (class : ℕ) → slice_index_or flags.new.items class false ≡ slice_index_or flags.old.items class false }
    ensures room { OnOk result (count ≤ length flags.new.items) }
{
    for _ in flags.len()..count {
        flags.push(false)?;
    }
    Ok(())
}
