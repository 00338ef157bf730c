//! Letters, a digit for each track.

ghost use Rattle.std.specs.Prelude.{◌≡◌, [], ◌∷◌, ◌++◌, OnOk, OnErr};

use digit_tuple::faults::OutOfMemory;
use std::alloc::Global;
use std::marker::Model;

/// A letter, seen as the list of its digits.
#[derive(Drop)]
pub struct Letter {
    digits: Vec<i32>,
}

impl Model for Letter {
    ghost use Rattle.std.specs.Prelude.{ℤ, List};

    ghost Value = { List ℤ };

    ghost view = { λ letter. letter.digits.items };
}

impl Letter {
    /// The letter without digits.
    pub fn new(alloc: Global) -> Self
        ensures { result ≡ [] }
    {
        Letter {
            digits: Vec::new(alloc),
        }
    }

    /// Adds a digit at the end. Out of memory leaves the letter as it was.
    pub fn push(&mut self, digit: i32) -> Result<(), OutOfMemory>
        ensures ok { OnOk result (self.new ≡ self.old ++ digit ∷ []) }
        ensures err { OnErr result (self.new ≡ self.old) }
    {
        self.digits.push(digit)?;
        Ok(())
    }

    /// The digits, from the first track to the last.
    pub fn digits(&self) -> &[i32]
        ensures { result.now ≡ self.now }
    {
        &self.digits
    }
}
