//! The parts of letters, and the letters of each part.

ghost use Rattle.std.specs.Prelude.{◌≡◌, ◌==◌, ◌++◌, ◌<◌, length, filter, slice_index, IfOk, OnOk};
ghost use Rattle.std.specs.List.{All};
ghost use Rattle.digit_tuple.specs.PartIndex.{letters_with};
ghost use Rattle.digit_tuple.specs.Parts.{parts_of_letters, picked};

use crate::letters_in::letters_in;
use crate::run::Run;
use crate::run_list::{part_by, runs_at};
use crate::span_list::spans_of;
use digit_tuple::alphabet::Alphabet;
use digit_tuple::faults::OutOfMemory;
use digit_tuple::part_index::PartIndex;
use std::alloc::Global;
use std::marker::Model;

/// The part of each letter on some of the tracks, as the list of parts. No list of all letters is kept, unless one is
/// asked for.
#[derive(Drop)]
pub struct TrackParts {
    alphabet: Alphabet,
    places: Vec<u32>,
    own: Alphabet,
    runs: Vec<Run>,
    index: Option<PartIndex>,
}

impl Model for TrackParts {
    ghost use Rattle.std.specs.Prelude.{◌≡◌, ℕ, List, IfSome};
    ghost use Rattle.digit_tuple.specs.Parts.{parts_of_letters};
    ghost use Rattle.track_parts.specs.TrackParts.{AreTrackParts};

    ghost Value = { List ℕ };

    ghost view = { λ t. parts_of_letters t.alphabet t.places.items };

    ghost invariant = { λ t. AreTrackParts t.alphabet t.places.items t.own t.runs.items × IfSome t.index (λ index. index ≡ parts_of_letters t.alphabet t.places.items) };
}

impl TrackParts {
    /// The parts on the tracks at these places, counted from 0, whose alphabet is `own`. Time and memory follow the
    /// tracks.
    pub fn new(
        alloc: Global,
        alphabet: &Alphabet,
        places: &[u32],
        own: &Alphabet,
    ) -> Result<Self, OutOfMemory>
        requires places { All (λ place. place < length alphabet.now) places.now }
        requires own { own.now ≡ picked places.now alphabet.now }
        ensures { IfOk result (λ parts. parts ≡ parts_of_letters alphabet.now places.now) }
    {
        let runs = runs_at(alloc, alphabet, places, own)?;
        // The number of letters fits 32 bits.
        let _letters = own.letters();
        Ok(TrackParts {
            alphabet: alphabet.copy(alloc)?,
            places: Vec::from_slice(alloc, places)?,
            own: own.copy(alloc)?,
            runs,
            index: None,
        })
    }

    /// Lists the parts of all letters, and the letters by their parts, if there are no more letters than this. Time and
    /// memory then follow the letters.
    pub fn list_within(&mut self, alloc: Global, most: u64) -> Result<(), OutOfMemory>
        ensures { OnOk result (self.new ≡ self.old) }
    {
        if self.index.is_none() && u64::from(self.alphabet.letters()) <= most {
            let parts = self.listed(alloc)?;
            self.index = Some(PartIndex::new(alloc, parts, self.own.letters())?);
        }
        Ok(())
    }

    /// How many letters there are.
    pub fn letters(&self) -> u32
        ensures { result ≡ length self.now }
    {
        self.alphabet.letters()
    }

    /// The part of a letter.
    pub fn part(&self, letter: u32) -> u32
        requires { letter < length self.now }
        ensures { result ≡ slice_index self.now letter }
    {
        match &self.index {
            Some(index) => index.part(letter),
            None => part_by(&self.runs, letter),
        }
    }

    /// Adds the letters that have a part, in order. Time follows their number, but for the tracks.
    pub fn add_letters(&self, part: u32, letters: &mut Vec<u32>) -> Result<(), OutOfMemory>
        ensures { OnOk result (letters.new.items ≡ letters.old.items ++ letters_with self.now part) }
    {
        if let Some(index) = &self.index {
            letters.extend_from_slice(index.letters(part))?;
            return Ok(());
        }
        self.add_found(part, letters)
    }

    // Adds the letters that have a part, of which no list is kept.
    fn add_found(&self, part: u32, letters: &mut Vec<u32>) -> Result<(), OutOfMemory>
        ensures { OnOk result (letters.new.items ≡ letters.old.items ++ letters_with self.now part) }
    {
        let parts = self.own.letters();
        if part >= parts {
            return Ok(());
        }
        let count = self.alphabet.letters();
        if count == 0 {
            return Ok(());
        }
        let alloc = *letters.allocator();
        let spans = spans_of(alloc, &self.alphabet, &self.places, &self.own, part)?;
        let found = letters_in(alloc, &self.alphabet, &spans)?;
        self.add_having(part, &found, letters)?;
        Ok(())
    }

    // Adds those of the letters that have a part.
    fn add_having(&self, part: u32, some: &[u32], letters: &mut Vec<u32>) -> Result<(), OutOfMemory>
        requires { All (λ letter. letter < length self.now) some.now }
        ensures { OnOk result (letters.new.items ≡ letters.old.items ++ filter (λ letter. slice_index self.now letter == part) some.now) }
    {
        for letter in some {
            if self.part(*letter) == part {
                letters.push(*letter)?;
            }
        }
        Ok(())
    }

    // The parts of all letters.
    fn listed(&self, alloc: Global) -> Result<Vec<u32>, OutOfMemory>
        ensures { IfOk result (λ parts. parts.items ≡ self.now) }
    {
        let letters = self.alphabet.letters();
        let mut parts = Vec::with_capacity(alloc, letters as usize)?;
        for letter in 0..letters {
            parts.push(part_by(&self.runs, letter))?;
        }
        Ok(parts)
    }
}
