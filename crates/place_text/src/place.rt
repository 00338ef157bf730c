//! Places: words of letters.

ghost use Rattle.std.specs.Prelude.{◌≡◌, [], ◌∷◌, ◌++◌, length, MatchResult, OnOk, OnErr, ⊤};
ghost use Rattle.place_text.specs.Faults.{Parses, IsWithin};
ghost use Rattle.place_text.specs.Readings.{Reads};
ghost use Rattle.place_text.specs.Stages.{place_at};

use crate::fault::PlaceFault;
use crate::letter::Letter;
use crate::lexing::spot_at;
use crate::stage::Stage;
use digit_tuple::faults::OutOfMemory;
use std::alloc::Global;
use std::marker::Model;

/// A word of letters, seen as the list of them.
#[derive(Drop)]
pub struct Place {
    letters: Vec<Letter>,
}

impl Model for Place {
    ghost use Rattle.std.specs.Prelude.{ℤ, List};

    ghost Value = { List (List ℤ) };

    ghost view = { λ place. place.letters.items };
}

impl Place {
    /// The empty word.
    pub fn new(alloc: Global) -> Self
        ensures { result ≡ [] }
    {
        Place {
            letters: Vec::new(alloc),
        }
    }

    /// Adds a letter at the end. Out of memory leaves the word as it was.
    pub fn push(&mut self, letter: Letter) -> Result<(), OutOfMemory>
        ensures ok { OnOk result (self.new ≡ self.old ++ letter ∷ []) }
        ensures err { OnErr result (self.new ≡ self.old) }
    {
        self.letters.push(letter)?;
        Ok(())
    }

    /// The letters, from the first to the last.
    pub fn letters(&self) -> &[Letter]
        ensures { result.now ≡ self.now }
    {
        &self.letters
    }

    /// The place of the text, by this grammar:
    ///
    /// ```text
    /// place := "[]" | letter { letter }
    /// letter := "[" number { "," number } "]"
    /// ```
    ///
    /// A number is digits, as many as there are, with or without a `-` before them.
    ///
    /// `Syntax` answers the first byte with which no place goes on, or the end of a text that ends too early; after a `-`
    /// where a number may be, the byte after it. `Number` answers the first byte of a number that does not fit 32 bits,
    /// signed, where a number may be. The first of all these decides. `Memory` answers a refused growth.
    ///
    /// It takes time in proportion to the text.
    pub fn parse(alloc: Global, text: &[u8]) -> Result<Place, PlaceFault>
        ensures place { Parses text.now result }
        ensures within { MatchResult result (λ _. ⊤) (IsWithin (length text.now)) }
    {
        read(alloc, text)
    }
}

/// The place of a text.
fn read(alloc: Global, text: &[u8]) -> Result<Place, PlaceFault>
    ensures place { Reads (λ place. place) result (place_at text.now) }
    ensures within { MatchResult result (λ _. ⊤) (IsWithin (length text.now)) }
{
    let mut stage = Stage::AtStart;
    let mut at = 0;
    while at < text.len() {
        let spot = spot_at(text, at);
        stage = stage.step(alloc, spot)?;
        at = spot.after;
    }
    stage.end(alloc, text.len())
}
