//! Words of letters.

ghost use Rattle.std.specs.Prelude.{◌≡◌, ℤ, List, ◌∷◌, [], ◌++◌, OnOk, OnErr};

use digit_tuple::faults::OutOfMemory;
use std::alloc::Global;
use std::marker::Model;

/// The image of a letter: a word of letters.
#[derive(Drop)]
pub struct Image {
    letters: Vec<i32>,
}

impl Model for Image {
    ghost use Rattle.std.specs.Prelude.{ℤ, List};

    ghost Value = { List ℤ };

    ghost view = { λ image. image.letters.items };
}

impl Image {
    /// The empty word.
    pub fn new(alloc: Global) -> Self
        ensures { result ≡ [] }
    {
        Image {
            letters: Vec::new(alloc),
        }
    }

    /// Adds a letter at the end. Out of memory leaves the word as it was.
    pub fn push(&mut self, letter: i32) -> Result<(), OutOfMemory>
        ensures ok { OnOk result (self.new ≡ self.old ++ letter ∷ []) }
        ensures err { OnErr result (self.new ≡ self.old) }
    {
        self.letters.push(letter)?;
        Ok(())
    }

    /// The letters, from the first to the last.
    pub fn letters(&self) -> &[i32]
        ensures { result.now ≡ self.now }
    {
        &self.letters
    }
}
