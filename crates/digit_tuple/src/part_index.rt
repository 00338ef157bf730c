//! The parts of letters, and the letters of each part.

ghost use Rattle.std.specs.Prelude.{◌≡◌, ◌++◌, ℕ, List, ◌<◌, ◌^◌, length, slice_index, IfOk, OnOk};
ghost use Rattle.std.specs.List.{All};
ghost use Rattle.digit_tuple.specs.PartIndex.{letters_with};
ghost use Rattle.digit_tuple.specs.PartChains.{AreChains, IsChain};

use crate::faults::OutOfMemory;
use std::alloc::Global;
use std::marker::Model;

/// The part of each letter, as the list of parts, from which the letters of a part are found.
#[derive(Drop)]
pub struct PartIndex {
    parts: Vec<u32>,
    // The letters by their parts, and those of one part in order.
    letters: Vec<u32>,
    // Where the letters of each part begin, and after the last part where they all end.
    starts: Vec<usize>,
}

impl Model for PartIndex {
    ghost use Rattle.std.specs.Prelude.{ℕ, List};
    ghost use Rattle.digit_tuple.specs.PartIndex.{AreByPart};

    ghost Value = { List ℕ };

    ghost view = { λ index. index.parts.items };

    ghost invariant = { λ index. AreByPart index.parts.items index.letters.items index.starts.items };
}

impl PartIndex {
    /// The index of these parts, one for each letter, each below the count. Time and memory follow
    /// the letters and the count.
    pub fn new(alloc: Global, parts: Vec<u32>, count: u32) -> Result<Self, OutOfMemory>
        requires below { All (λ part. part < count) parts.items }
        requires few { length parts.items < 2 ^ 32 }
        ensures { IfOk result (λ index. index ≡ parts.items) }
    {
        let chains = chained(alloc, &parts, count)?;
        let mut letters = Vec::with_capacity(alloc, parts.len())?;
        let mut starts = vec![in alloc; 0]?;
        for first in &chains.first {
            add_chain(&chains.next, *first, &mut letters)?;
            starts.push(letters.len())?;
        }
        Ok(PartIndex {
            parts,
            letters,
            starts,
        })
    }

    /// The part of a letter.
    pub fn part(&self, letter: u32) -> u32
        requires { letter < length self.now }
        ensures { result ≡ slice_index self.now letter }
    {
        self.parts[letter as usize]
    }

    /// The letters that have a part, in order.
    pub fn letters(&self, part: u32) -> &[u32]
        ensures { result.now ≡ letters_with self.now part }
    {
        let place = part as usize;
        if place + 1 < self.starts.len() {
            &self.letters[self.starts[place]..self.starts[place + 1]]
        } else {
            &self.letters[..0]
        }
    }
}

// For each part its first letter, and for each letter the next one of its part. Where there is none is the number of
// letters.
#[derive(Drop)]
struct Chains {
    first: Vec<u32>,
    next: Vec<u32>,
}

// The chains of the letters of each part.
fn chained(alloc: Global, parts: &[u32], count: u32) -> Result<Chains, OutOfMemory>
    requires below { All (λ part. part < count) parts.now }
    requires few { length parts.now < 2 ^ 32 }
    ensures { IfOk result (λ chains. AreChains parts.now count chains.first.items chains.next.items 0) }
{
    let letters = parts.len() as u32;
    let mut first = vec![in alloc; letters; count as usize]?;
    let mut next = vec![in alloc; letters; parts.len()]?;
    for letter in (0..letters).rev() {
        let part = parts[letter as usize] as usize;
        next[letter as usize] = first[part];
        first[part] = letter;
    }
    Ok(Chains { first, next })
}

// Adds the letters of the chain that begins with this one.
fn add_chain(next: &[u32], first: u32, letters: &mut Vec<u32>) -> Result<(), OutOfMemory>
    requires { (chain : List ℕ) × IsChain next.now first chain }
    ensures { (chain : List ℕ) → IsChain next.now first chain → OnOk result (letters.new.items ≡ letters.old.items ++ chain) }
{
    let mut letter = first;
    while (letter as usize) < next.len() {
        letters.push(letter)?;
        letter = next[letter as usize];
    }
    Ok(())
}
