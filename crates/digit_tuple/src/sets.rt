//! Lists of sets, one for each track.

ghost use Rattle.std.specs.Prelude.{◌≡◌, ℕ, ℤ, List, [], ◌∷◌, ◌++◌, length, IfOk, OnOk, OnErr, ◌==◌};
ghost use Rattle.std.specs.List.{All};
ghost use Rattle.digit_tuple.specs.Sets.{IsLetterSet};

use crate::faults::OutOfMemory;
use crate::letter_set::LetterSet;
use std::alloc::Global;
use std::marker::Model;

/// A set for each track, seen as the list of their lists of members.
#[derive(Drop)]
pub struct Sets {
    tracks: Vec<LetterSet>,
}

impl Model for Sets {
    ghost use Rattle.std.specs.Prelude.{ℤ, List};
    ghost use Rattle.std.specs.List.{All};
    ghost use Rattle.digit_tuple.specs.Sets.{IsLetterSet};

    ghost Value = { List (List ℤ) };

    ghost view = { λ s. s.tracks.items };

    ghost invariant = { λ s. All IsLetterSet s.tracks.items };
}

impl Sets {
    /// No track.
    pub fn new(alloc: Global) -> Self
        ensures { result ≡ [] }
    {
        Sets {
            tracks: Vec::new(alloc),
        }
    }

    /// Adds a track over the set. Out of memory leaves the tracks as they were.
    pub fn push(&mut self, set: LetterSet) -> Result<(), OutOfMemory>
        ensures ok { OnOk result (self.new ≡ self.old ++ set ∷ []) }
        ensures err { OnErr result (self.new ≡ self.old) }
    {
        let _count = set.len();
        self.tracks.push(set)?;
        Ok(())
    }

    /// The sets, one for each track.
    pub fn as_slice(&self) -> &[LetterSet]
        ensures value { result.now ≡ self.now }
        ensures sets { All IsLetterSet self.now }
    {
        &self.tracks
    }

    /// How many tracks there are.
    pub fn len(&self) -> usize
        ensures { result ≡ length self.now }
    {
        self.tracks.len()
    }

    /// Whether there is no track.
    pub fn is_empty(&self) -> bool
        ensures { result ≡ (length self.now == 0) }
    {
        self.tracks.is_empty()
    }

    /// The same sets, in memory of their own.
    pub fn copy(&self, alloc: Global) -> Result<Self, OutOfMemory>
        ensures { IfOk result (λ sets. sets ≡ self.now) }
    {
        let mut copied = Sets::new(alloc);
        for set in &self.tracks {
            copied.push(set.copy(alloc)?)?;
        }
        Ok(copied)
    }
}
