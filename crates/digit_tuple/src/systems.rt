//! Lists of numeration systems, one for each track.

ghost use Rattle.std.specs.Prelude.{◌≡◌, ◌<◌, ℕ, [], ◌∷◌, ◌++◌, length, IfOk, OnOk, OnErr, ◌==◌};
ghost use Rattle.std.specs.List.{All};
ghost use Rattle.digit_tuple.specs.Systems.{IsDigitCount, HasDigitCount, digit_set, digit_sets, with_system};

use crate::faults::OutOfMemory;
use crate::letter_set::LetterSet;
use crate::name::Name;
use crate::sets::Sets;
use std::alloc::Global;
use std::marker::Model;

/// A track over a numeration system: the system's name, and its number of digits.
#[derive(Drop)]
pub struct SystemTrack {
    pub name: Name,
    pub digits: u32,
}

/// A numeration system for each track, seen as the list of them. Each has at least one digit, and at
/// most 2^31, so that each digit is a signed number of 32 bits.
#[derive(Drop)]
pub struct Systems {
    tracks: Vec<SystemTrack>,
}

impl Model for Systems {
    ghost use Rattle.std.specs.Prelude.{List};
    ghost use Rattle.std.specs.List.{All};
    ghost use Rattle.digit_tuple.specs.declared.systems.SystemTrack.{SystemTrack};
    ghost use Rattle.digit_tuple.specs.Systems.{HasDigitCount};

    ghost Value = { List SystemTrack };

    ghost view = { λ s. s.tracks.items };

    ghost invariant = { λ s. All HasDigitCount s.tracks.items };
}

impl Systems {
    /// No track.
    pub fn new(alloc: Global) -> Self
        ensures { result ≡ [] }
    {
        Systems {
            tracks: Vec::new(alloc),
        }
    }

    /// Adds a track over the system of this name, which has so many digits: at least 1 and at most
    /// 2^31. Out of memory leaves the tracks as they were.
    pub fn push(&mut self, name: Name, digits: u32) -> Result<(), OutOfMemory>
        requires { IsDigitCount digits }
        ensures ok { OnOk result (self.new ≡ with_system self.old name digits) }
        ensures err { OnErr result (self.new ≡ self.old) }
    {
        self.tracks.push(SystemTrack { name, digits })?;
        Ok(())
    }

    /// The systems, one for each track.
    pub fn as_slice(&self) -> &[SystemTrack]
        ensures value { result.now ≡ self.now }
        ensures digits { All HasDigitCount self.now }
    {
        &self.tracks
    }

    /// How many tracks there are.
    pub fn len(&self) -> usize
        ensures { result ≡ length self.now }
    {
        self.tracks.len()
    }

    /// Whether there is no track.
    pub fn is_empty(&self) -> bool
        ensures { result ≡ (length self.now == 0) }
    {
        self.tracks.is_empty()
    }

    /// The set of each track's digits.
    pub fn digit_sets(&self, alloc: Global) -> Result<Sets, OutOfMemory>
        ensures { IfOk result (λ sets. sets ≡ digit_sets self.now) }
    {
        let mut sets = Sets::new(alloc);
        for track in &self.tracks {
            sets.push(digits_below(alloc, track.digits)?)?;
        }
        Ok(sets)
    }

    /// The same systems, in memory of their own.
    pub fn copy(&self, alloc: Global) -> Result<Self, OutOfMemory>
        ensures { IfOk result (λ systems. systems ≡ self.now) }
    {
        let mut copied = Systems::new(alloc);
        for track in &self.tracks {
            copied.push(track.name.copy(alloc)?, track.digits)?;
        }
        Ok(copied)
    }
}

// The digits 0, 1, .., as many as that.
fn digits_below(alloc: Global, count: u32) -> Result<LetterSet, OutOfMemory>
    requires { IsDigitCount count }
    ensures { IfOk result (λ set. set ≡ digit_set count) }
{
    let mut digits: Vec<i32> = Vec::new(alloc);
    for digit in 0..count {
        digits.push(digit as i32)?;
    }
    Ok(LetterSet::new(digits))
}
