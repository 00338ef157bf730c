//! Lists of zeros, whose memory is used again.

ghost use Rattle.std.specs.Prelude.{◌≡◌, length, replicate, IfOk};

use crate::faults::OutOfMemory;
use std::alloc::Global;
use std::marker::Model;

/// Lists of zeros that are not in use, seen as how many there are.
#[derive(Drop)]
pub struct Blanks {
    lists: Vec<Vec<u32>>,
}

impl Model for Blanks {
    ghost use Rattle.std.specs.Prelude.{ℕ, length};
    ghost use Rattle.digit_tuple.specs.Blanks.{AreBlank};

    ghost Value = { ℕ };

    ghost view = { λ b. length b.lists.items };

    ghost invariant = { λ b. AreBlank b.lists.items };
}

impl Blanks {
    /// No lists.
    pub fn new(alloc: Global) -> Self
        ensures { result ≡ 0 }
    {
        Blanks {
            lists: Vec::new(alloc),
        }
    }

    /// A list of so many zeros. It is the list that was given back last, if there is one, of which only the zeros that
    /// it lacks are written.
    pub fn take(&mut self, alloc: Global, count: usize) -> Result<Vec<u32>, OutOfMemory>
        ensures { IfOk result (λ list. list.items ≡ replicate count 0) }
    {
        let mut list = match self.lists.pop() {
            Some(list) => list,
            None => Vec::new(alloc),
        };
        list.resize(count, 0)?;
        Ok(list)
    }

    /// Gives a list of zeros back.
    pub fn give(&mut self, list: Vec<u32>) -> Result<(), OutOfMemory>
        requires { list.items ≡ replicate (length list.items) 0 }
    {
        self.lists.push(list)?;
        Ok(())
    }
}
