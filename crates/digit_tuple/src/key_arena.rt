//! Keys, one after another in one buffer.

ghost use Rattle.std.specs.Prelude.{◌≡◌, ◌-◌, ◌<◌, ◌^◌, ◌++◌, ◌∷◌, [], length, take, OnOk, OnErr};
ghost use Rattle.digit_tuple.specs.Explored.{key_at};

use crate::faults::OutOfMemory;
use crate::key_ends::KeyEnds;
use std::alloc::Global;
use std::marker::Model;

/// Lists of numbers, one after another in one buffer. What follows the last one's end is not in use.
#[derive(Drop)]
pub struct KeyArena {
    numbers: Vec<u32>,
    ends: KeyEnds,
}

impl Model for KeyArena {
    ghost use Rattle.std.specs.Prelude.{ℕ, List, length};
    ghost use Rattle.digit_tuple.specs.KeyParts.{parts_from, AreEnds};

    ghost Value = { List (List ℕ) };

    ghost view = { λ a. parts_from a.numbers.items 0 a.ends };

    ghost invariant = { λ a. AreEnds (length a.numbers.items) 0 a.ends };
}

impl KeyArena {
    /// No keys.
    pub fn new(alloc: Global) -> Self
        ensures { result ≡ [] }
    {
        KeyArena {
            numbers: Vec::new(alloc),
            ends: KeyEnds::new(alloc),
        }
    }

    /// How many keys there are.
    pub fn len(&self) -> usize
        ensures len { result ≡ length self.now }
        ensures small { result < 2 ^ 63 }
    {
        self.ends.len()
    }

    /// The key with the number.
    pub fn key(&self, number: usize) -> &[u32]
        requires { number < length self.now }
        ensures { result.now ≡ key_at self.now number }
    {
        let start = self.ends.start(number);
        let end = self.ends.end(number);
        &self.numbers[start..end]
    }

    /// Adds a key. A refused call leaves the keys. OutOfMemory comes too where there are 2^32 - 1 keys.
    pub fn push(&mut self, key: &[u32]) -> Result<(), OutOfMemory>
        ensures ok { OnOk result (self.new ≡ self.old ++ key.now ∷ []) }
        ensures err { OnErr result (self.new ≡ self.old) }
    {
        let used = self.ends.start(self.ends.len());
        self.numbers.truncate(used);
        self.numbers.extend_from_slice(key)?;
        self.ends.push(self.numbers.len())?;
        Ok(())
    }

    /// Takes the last key away.
    pub fn pop(&mut self)
        requires { 0 < length self.old }
        ensures { self.new ≡ take (length self.old - 1) self.old }
    {
        self.ends.pop();
    }
}
