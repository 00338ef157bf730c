//! Letters of several tracks.

ghost use Rattle.std.specs.Prelude.{◌≡◌, ℕ, ◌<◌, ◌↔◌, List, length, slice_index, IfOk, OnOk, min};
ghost use Rattle.std.specs.Result.{IsErrOf};
ghost use Rattle.digit_tuple.specs.Letters.{product, code_of, AreDigits, IsAlphabet, IsTooLarge};
ghost use Rattle.digit_tuple.specs.Sets.{sizes_of};
ghost use Rattle.digit_tuple.specs.Systems.{digit_sets};
ghost use Rattle.digit_tuple.specs.Headers.{sets_of};

use crate::faults::{OpFault, OutOfMemory};
use crate::header::Header;
use crate::letter_set::LetterSet;
use crate::sets::Sets;
use crate::systems::SystemTrack;
use std::alloc::Global;
use std::marker::Model;

/// The most tracks that an alphabet has.
pub const MOST_TRACKS: usize = 16;

/// The most letters that an alphabet has.
pub const MOST_LETTERS: u32 = 65536;

/// Tracks, each with a number of digits, seen as the list of these numbers. A letter has a digit on
/// each track.
#[derive(Drop)]
pub struct Alphabet {
    digit_counts: Vec<u32>,
    letter_count: u32,
}

impl Model for Alphabet {
    ghost use Rattle.std.specs.Prelude.{◌≡◌, ℕ, List};
    ghost use Rattle.digit_tuple.specs.Letters.{product, IsAlphabet};

    ghost Value = { List ℕ };

    ghost view = { λ a. a.digit_counts.items };

    ghost invariant = { λ a. (a.letter_count ≡ product a.digit_counts.items) × IsAlphabet a.digit_counts.items };
}

impl Alphabet {
    /// The letters of tracks of these sizes. `Letters` comes if and only if there are more than 16 tracks or more than
    /// 65,536 letters, and `States` never.
    pub fn new(alloc: Global, sizes: &[u32]) -> Result<Self, OpFault>
        ensures value { IfOk result (λ alphabet. alphabet ≡ sizes.now) }
        ensures fits { OnOk result (IsAlphabet sizes.now) }
        ensures letters { IsErrOf result OpFault.Letters ↔ IsTooLarge sizes.now }
        ensures states { ¬ IsErrOf result OpFault.States }
    {
        let letter_count = count_letters(sizes)?;
        Ok(Alphabet {
            digit_counts: Vec::from_slice(alloc, sizes)?,
            letter_count,
        })
    }

    /// The letters of tracks of these sizes, of which there are not too many.
    pub fn fitting(alloc: Global, sizes: &[u32]) -> Result<Self, OutOfMemory>
        requires { IsAlphabet sizes.now }
        ensures { IfOk result (λ alphabet. alphabet ≡ sizes.now) }
    {
        Ok(Alphabet {
            digit_counts: Vec::from_slice(alloc, sizes)?,
            letter_count: capped_product(sizes),
        })
    }

    /// The letters of a header's tracks. `Letters` comes if and only if there are more than 16 tracks or more than
    /// 65,536 letters, and `States` never.
    pub fn of_header(alloc: Global, header: &Header) -> Result<Self, OpFault>
        ensures value { IfOk result (λ alphabet. alphabet ≡ sizes_of (sets_of header.now)) }
        ensures fits { OnOk result (IsAlphabet (sizes_of (sets_of header.now))) }
        ensures too_large { IsErrOf result OpFault.Letters → IsTooLarge (sizes_of (sets_of header.now)) }
        ensures states { ¬ IsErrOf result OpFault.States }
    {
        match header {
            Header::Sets(sets) => Alphabet::of_sets(alloc, sets),
            Header::Systems(systems) => {
                let sizes = digit_counts(alloc, systems.as_slice())?;
                Alphabet::new(alloc, &sizes)
            }
        }
    }

    /// The letters of tracks over these sets. `Letters` comes if and only if there are more than 16 tracks or more than
    /// 65,536 letters, and `States` never.
    pub fn of_sets(alloc: Global, sets: &Sets) -> Result<Self, OpFault>
        ensures value { IfOk result (λ alphabet. alphabet ≡ sizes_of sets.now) }
        ensures fits { OnOk result (IsAlphabet (sizes_of sets.now)) }
        ensures too_large { IsErrOf result OpFault.Letters → IsTooLarge (sizes_of sets.now) }
        ensures states { ¬ IsErrOf result OpFault.States }
    {
        let sizes = sizes_in(alloc, sets.as_slice())?;
        Alphabet::new(alloc, &sizes)
    }

    /// How many tracks there are.
    pub fn tracks(&self) -> u32
        ensures value { result ≡ length self.now }
        ensures alphabet { IsAlphabet self.now }
    {
        self.digit_counts.len() as u32
    }

    /// How many digits a track has.
    pub fn size(&self, track: u32) -> u32
        requires { track < length self.now }
        ensures { result ≡ slice_index self.now track }
    {
        self.digit_counts[track as usize]
    }

    /// How many digits each track has.
    pub fn sizes(&self) -> &[u32]
        ensures sizes { result.now ≡ self.now }
        ensures alphabet { IsAlphabet self.now }
    {
        &self.digit_counts
    }

    /// How many letters there are.
    pub fn letters(&self) -> u32
        ensures value { result ≡ product self.now }
        ensures alphabet { IsAlphabet self.now }
    {
        self.letter_count
    }

    /// The letter with these digits, one for each track and below the track's size.
    pub fn letter_of(&self, digits: &[u32]) -> u32
        requires { AreDigits self.now digits.now }
        ensures letter { result ≡ code_of self.now digits.now }
        ensures in_range { result < product self.now }
    {
        let mut letter = 0;
        for (track, size) in self.digit_counts.iter().enumerate() {
            letter = letter * *size + digits[track];
        }
        letter
    }

    /// Writes the digits of a letter, one for each track.
    pub fn digits_of(&self, letter: u32, out: &mut [u32])
        requires letter { letter < product self.now }
        requires room { length out.old ≡ length self.now }
        ensures digits { AreDigits self.now out.new }
        ensures letter { code_of self.now out.new ≡ letter }
    {
        let mut weight = self.letter_count;
        let mut rest = letter;
        for (track, size) in self.digit_counts.iter().enumerate() {
            weight /= *size;
            out[track] = rest / weight;
            rest %= weight;
        }
    }

    /// The same alphabet, in memory of its own.
    pub fn copy(&self, alloc: Global) -> Result<Self, OutOfMemory>
        ensures { IfOk result (λ alphabet. alphabet ≡ self.now) }
    {
        Ok(Alphabet {
            digit_counts: Vec::from_slice(alloc, &self.digit_counts)?,
            letter_count: self.letter_count,
        })
    }
}

// The number of letters of tracks of these sizes, unless they are too many.
fn count_letters(sizes: &[u32]) -> Result<u32, OpFault>
    ensures value { IfOk result (λ count. count ≡ product sizes.now) }
    ensures fits { OnOk result (IsAlphabet sizes.now) }
    ensures letters { IsErrOf result OpFault.Letters ↔ IsTooLarge sizes.now }
    ensures states { ¬ IsErrOf result OpFault.States }
{
    if sizes.len() > MOST_TRACKS {
        return Err(OpFault::Letters);
    }
    let count = capped_product(sizes);
    if count > MOST_LETTERS {
        return Err(OpFault::Letters);
    }
    Ok(count)
}

// The product of the numbers, or one above the most letters where it passes these.
fn capped_product(numbers: &[u32]) -> u32
    ensures { result ≡ min (product numbers.now) 65537 }
{
    let mut count: u64 = 1;
    for number in numbers {
        count = (count * u64::from(*number)).min(u64::from(MOST_LETTERS) + 1);
    }
    count as u32
}

// How many members each set has.
fn sizes_in(alloc: Global, sets: &[LetterSet]) -> Result<Vec<u32>, OutOfMemory>
    ensures { IfOk result (λ sizes. sizes.items ≡ sizes_of sets.now) }
{
    let mut sizes = Vec::new(alloc);
    for set in sets {
        sizes.push(set.len())?;
    }
    Ok(sizes)
}

// How many digits each track's system has.
fn digit_counts(alloc: Global, systems: &[SystemTrack]) -> Result<Vec<u32>, OutOfMemory>
    ensures { IfOk result (λ sizes. sizes.items ≡ sizes_of (digit_sets systems.now)) }
{
    let mut sizes = Vec::new(alloc);
    for track in systems {
        sizes.push(track.digits)?;
    }
    Ok(sizes)
}
