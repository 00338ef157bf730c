//! The maps of blocks of letters, as a graph of keys.

ghost use Rattle.std.specs.Prelude.{false};
ghost use Rattle.digit_tuple.specs.Deterministic.{letters_of};
ghost use Rattle.word_transduce.specs.BlockMaps.{IsBlockGraph};
ghost use Rattle.word_transduce.specs.BlockLengths.{AreBlockLengths, HasEnds, first_block_key, key_after};
ghost use Rattle.word_transduce.specs.BlockLaws.{after_has_ends, first_has_ends};

use crate::block_lengths::{BlockLength, BlockLengths};
use crate::block_maps::BlockMaps;
use crate::listed_ends::ends_part;
use crate::packed_outputs::{are_packed, packed_len, push_packed, unpacked};
use digit_tuple::faults::OutOfMemory;
use digit_tuple::key_graph::KeyGraph;
use digit_tuple::key_transitions::KeyTransitions;
use std::alloc::Global;

/// A key is the outputs of a block, at each pair, and the number of its length: that of the first length with the same
/// ends. Four outputs are in one number of the key where they fit. Where the ends are not listed they come after the number. So a digit leads to the outputs at the positions that are
/// listed for the length, and no run is made.
#[derive(Clone, Copy)]
pub struct BlockGraph<'a> {
    pub maps: BlockMaps<'a>,
    pub lengths: &'a BlockLengths,
}

impl KeyGraph for BlockGraph<'_> {
    ghost letters = { λ g. letters_of g.maps.function.now.automaton };

    ghost is_graph = { λ g. IsBlockGraph g.maps.transducer.now g.maps.function.now g.maps.targets.now × AreBlockLengths g.maps.transducer.now g.maps.function.now g.lengths.now };

    ghost is_key = { λ g. HasEnds g.maps.transducer.now g.maps.function.now };

    ghost start = { λ g. first_block_key g.maps.transducer.now g.maps.function.now g.lengths.now.ends };

    ghost after = { λ g. key_after g.maps.transducer.now g.maps.function.now g.lengths.now.ends };

    ghost accepts = { λ g key. false };

    ghost start_is_key = { λ g graph. first_has_ends g.maps.transducer.now g.maps.function.now g.lengths.now.ends };

    ghost after_is_key = { λ g key letter graph is_key small. after_has_ends g.maps.transducer.now g.maps.function.now g.lengths.now.ends key letter };

    fn first_key(&self, alloc: Global) -> Result<Vec<u32>, OutOfMemory> {
        let ends = self.maps.first_ends(alloc)?;
        let part = ends_part(alloc, &self.lengths.ends, &ends)?;
        let mut outputs = Vec::new(alloc);
        self.maps.push_first_outputs(&mut outputs)?;
        let mut key = Vec::new(alloc);
        push_packed(are_packed(self.maps.transducer), &outputs, &mut key)?;
        key.extend_from_slice(&part)?;
        Ok(key)
    }

    fn transitions(
        &self,
        alloc: Global,
        key: &[u32],
        out: &mut KeyTransitions,
    ) -> Result<(), OutOfMemory> {
        let letters = self.maps.function.dfa().alphabet().letters();
        let pairs = self.maps.pairs();
        let is_packed = are_packed(self.maps.transducer);
        let outputs = unpacked(alloc, is_packed, pairs, key)?;
        let place = packed_len(is_packed, pairs);
        let number = key[place] as usize;
        if number < self.lengths.lengths.len() {
            return self.lengths.lengths[number].push_keys(alloc, letters, &outputs, out);
        }
        let ends = &key[place + 1..];
        let length = BlockLength::new(alloc, &self.maps, &self.lengths.ends, ends)?;
        length.push_keys(alloc, letters, &outputs, out)
    }

    fn is_accepting(&self, _key: &[u32]) -> bool {
        false
    }
}
