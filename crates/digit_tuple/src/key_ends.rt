//! Where keys end that are one after another.

ghost use Rattle.std.specs.Prelude.{◌≡◌, ◌-◌, ◌<◌, ◌≤◌, ◌^◌, ◌++◌, ◌∷◌, [], length, slice_index, take, OnOk, OnErr};
ghost use Rattle.digit_tuple.specs.KeyParts.{start_of};

use crate::faults::OutOfMemory;
use std::alloc::Global;
use std::marker::Model;

/// Where keys end, fewer than 2^32 of them. Of the first, which have one width, only that and their number
/// are kept.
#[derive(Drop)]
pub struct KeyEnds {
    width: usize,
    even: usize,
    ends: Vec<usize>,
}

impl Model for KeyEnds {
    ghost use Rattle.std.specs.Prelude.{ℕ, List, ◌+◌, ◌*◌, ◌<◌, ◌^◌, ◌++◌, length};
    ghost use Rattle.digit_tuple.specs.KeyParts.{even_ends};

    ghost Value = { List ℕ };

    ghost view = { λ e. even_ends e.width e.even ++ e.ends.items };

    ghost invariant = { λ e. (e.even * e.width < 2 ^ 64) × (e.even + length e.ends.items < 2 ^ 32) };
}

impl KeyEnds {
    /// No ends.
    pub fn new(alloc: Global) -> Self
        ensures { result ≡ [] }
    {
        KeyEnds {
            width: 0,
            even: 0,
            ends: Vec::new(alloc),
        }
    }

    /// How many ends there are.
    pub fn len(&self) -> usize
        ensures len { result ≡ length self.now }
        ensures small { result < 2 ^ 32 }
    {
        self.even + self.ends.len()
    }

    /// Where the key with the number starts: where the one before it ends.
    pub fn start(&self, number: usize) -> usize
        requires { number ≤ length self.now }
        ensures { result ≡ start_of self.now number }
    {
        if number <= self.even {
            number * self.width
        } else {
            self.ends[number - 1 - self.even]
        }
    }

    /// Where the key with the number ends.
    pub fn end(&self, number: usize) -> usize
        requires { number < length self.now }
        ensures { result ≡ slice_index self.now number }
    {
        if number < self.even {
            (number + 1) * self.width
        } else {
            self.ends[number - self.even]
        }
    }

    /// Adds an end. A refused call leaves the ends. OutOfMemory comes too where there are 2^32 - 1 ends.
    pub fn push(&mut self, end: usize) -> Result<(), OutOfMemory>
        ensures ok { OnOk result (self.new ≡ self.old ++ end ∷ []) }
        ensures err { OnErr result (self.new ≡ self.old) }
    {
        if self.len() >= u32::MAX as usize {
            return Err(OutOfMemory);
        }
        let used = self.even * self.width;
        let width = if self.even == 0 { end } else { self.width };
        if self.ends.is_empty() && used <= end && end - used == width {
            self.width = width;
            self.even += 1;
        } else {
            self.ends.push(end)?;
        }
        Ok(())
    }

    /// Takes the last end away.
    pub fn pop(&mut self)
        requires { 0 < length self.old }
        ensures { self.new ≡ take (length self.old - 1) self.old }
    {
        if self.ends.is_empty() {
            self.even -= 1;
        } else {
            self.ends.pop();
        }
    }
}
