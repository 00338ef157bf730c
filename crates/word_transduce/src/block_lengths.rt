//! What depends on the length of a block alone, and not on the position.

ghost use Rattle.std.specs.Prelude.{◌≡◌, ◌<◌, ◌^◌, ◌++◌, [], length, map, slice_index, IfOk, OnOk, Some};
ghost use Rattle.std.specs.List.{All};
ghost use Rattle.digit_tuple.specs.Keys.{AreKeyTransitions};
ghost use Rattle.word_transduce.specs.BlockMaps.{IsBlockGraph};
ghost use Rattle.word_transduce.specs.BlockLengths.{AreBlockLengths, AreListedLengths, IsBlockLength, gathered, rows_of};

use crate::block_maps::BlockMaps;
use crate::listed_ends::{ends_part, list_ends};
use crate::packed_outputs::{are_packed, gather, packed_len};
use digit_tuple::faults::OutOfMemory;
use digit_tuple::key_transitions::KeyTransitions;
use digit_tuple::numbering::Numbering;
use std::alloc::Global;

// At most how many lengths are listed.
const MOST_LENGTHS: usize = 256;

// At most how many positions are listed in all.
const MOST_PLACES: usize = 1 << 20;

/// What blocks with the same ends lead to by a digit more: for each digit the positions at which the outputs are among those
/// of the blocks, the ends as they are in a key, and whether the outputs are packed there.
#[derive(Drop)]
pub struct BlockLength {
    pub is_packed: bool,
    pub places: Vec<Vec<usize>>,
    pub ends: Vec<u32>,
}

/// The ends of blocks of the first lengths, and what each leads to.
#[derive(Drop)]
pub struct BlockLengths {
    pub ends: Numbering,
    pub lengths: Vec<BlockLength>,
}

impl BlockLengths {
    /// The lengths up to that of which the ends come again, or so many as there is room for. Time and memory are those of
    /// a number for each pair, each digit and each length.
    pub fn new(alloc: Global, maps: &BlockMaps<'_>) -> Result<Self, OutOfMemory>
        requires { IsBlockGraph maps.now.transducer.now maps.now.function.now maps.now.targets.now }
        ensures { IfOk result (AreBlockLengths maps.now.transducer.now maps.now.function.now) }
    {
        let ends = list_ends(alloc, maps, most_lengths(maps))?;
        let lengths = list_lengths(alloc, maps, &ends)?;
        Ok(BlockLengths { ends, lengths })
    }
}

// What the listed ends lead to.
fn list_lengths(
    alloc: Global,
    maps: &BlockMaps<'_>,
    list: &Numbering,
) -> Result<Vec<BlockLength>, OutOfMemory>
    requires graph { IsBlockGraph maps.now.transducer.now maps.now.function.now maps.now.targets.now }
    requires few { length list.now < 2 ^ 32 }
    ensures { IfOk result (λ lengths. AreListedLengths maps.now.transducer.now maps.now.function.now list.now lengths.items) }
{
    let mut lengths = Vec::with_capacity(alloc, list.len())?;
    for number in 0..list.len() {
        let length = BlockLength::new(alloc, maps, list, list.key(number))?;
        lengths.push(length)?;
    }
    Ok(lengths)
}

// How many lengths there is room for.
fn most_lengths(maps: &BlockMaps<'_>) -> usize
    requires { IsBlockGraph maps.now.transducer.now maps.now.function.now maps.now.targets.now }
    ensures { result < 2 ^ 32 }
{
    let letters = maps.function.dfa().alphabet().letters() as usize;
    let room = MOST_PLACES / maps.pairs().max(1) / letters.max(1);
    room.min(MOST_LENGTHS)
}

impl BlockLength {
    /// What blocks with these ends lead to.
    pub fn new(
        alloc: Global,
        maps: &BlockMaps<'_>,
        list: &Numbering,
        ends: &[u32],
    ) -> Result<Self, OutOfMemory>
        requires graph { IsBlockGraph maps.now.transducer.now maps.now.function.now maps.now.targets.now }
        requires few { length list.now < 2 ^ 32 }
        ensures { IfOk result (IsBlockLength maps.now.transducer.now maps.now.function.now list.now ends.now) }
    {
        let letters = maps.function.dfa().alphabet().letters();
        let mut places = Vec::with_capacity(alloc, letters as usize)?;
        let mut states = maps.first_states(alloc)?;
        for digit in 0..letters {
            let row = maps.places(alloc, digit, &states)?;
            places.push(row)?;
            maps.advance(ends, digit, &mut states);
        }
        let ends = ends_part(alloc, list, &states)?;
        let is_packed = are_packed(maps.transducer);
        Ok(BlockLength {
            is_packed,
            places,
            ends,
        })
    }

    /// Adds for each digit the key that it leads to from one with these outputs.
    pub fn push_keys(
        &self,
        alloc: Global,
        letters: u32,
        outputs: &[u32],
        out: &mut KeyTransitions,
    ) -> Result<(), OutOfMemory>
        requires letters { length (rows_of self.now) ≡ letters }
        requires rows { All (λ row. length row ≡ length outputs.now) (rows_of self.now) }
        requires empty { out.old ≡ [] }
        ensures { OnOk result (AreKeyTransitions letters (λ digit. Some (gathered outputs.now self.now digit)) out.new) }
    {
        let mut found = Vec::new(alloc);
        found.resize(packed_len(self.is_packed, outputs.len()), 0)?;
        let mut key = out.take_spare(alloc);
        for digit in 0..letters {
            let places = &self.places[digit as usize];
            gather(self.is_packed, outputs, places, &mut found);
            write_key(&found, &self.ends, &mut key)?;
            out.push(digit, &key)?;
        }
        out.give_spare(key);
        Ok(())
    }
}

// Writes outputs and ends in place of what the key held.
fn write_key(outputs: &[u32], ends: &[u32], key: &mut Vec<u32>) -> Result<(), OutOfMemory>
    ensures { OnOk result (key.new.items ≡ outputs.now ++ ends.now) }
{
    key.clear();
    key.extend_from_slice(outputs)?;
    key.extend_from_slice(ends)?;
    Ok(())
}
