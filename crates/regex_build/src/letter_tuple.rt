//! Letters: tuples of members of sets.

ghost use Rattle.std.specs.Prelude.{◌≡◌, ℤ, List, ◌∷◌, [], ◌++◌, length, OnOk, OnErr, ◌==◌};

use digit_tuple::faults::OutOfMemory;
use smallvec::SmallVec;
use std::alloc::Global;
use std::marker::Model;

/// A letter: a member for each track. Up to four are in the value itself.
#[derive(Drop)]
pub struct LetterTuple {
    tracks: SmallVec<i32, 4>,
}

impl Model for LetterTuple {
    ghost use Rattle.std.specs.Prelude.{ℤ, List};

    ghost Value = { List ℤ };

    ghost view = { λ t. t.tracks.items };
}

impl LetterTuple {
    /// The letter of no track.
    pub fn new(alloc: Global) -> Self
        ensures { result ≡ [] }
    {
        LetterTuple {
            tracks: SmallVec::new(alloc),
        }
    }

    /// Adds the member of one track more. Out of memory leaves the letter as it was.
    pub fn push(&mut self, member: i32) -> Result<(), OutOfMemory>
        ensures ok { OnOk result (self.new ≡ self.old ++ member ∷ []) }
        ensures err { OnErr result (self.new ≡ self.old) }
    {
        self.tracks.push(member)?;
        Ok(())
    }

    /// How many tracks there are.
    pub fn len(&self) -> usize
        ensures { result ≡ length self.now }
    {
        self.tracks.len()
    }

    /// Whether there is no track.
    pub fn is_empty(&self) -> bool
        ensures { result ≡ (length self.now == 0) }
    {
        self.tracks.is_empty()
    }

    /// The members, one for each track.
    pub fn members(&self) -> &[i32]
        ensures { result.now ≡ self.now }
    {
        self.tracks.as_slice()
    }
}
