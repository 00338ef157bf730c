//! Ends of blocks in a list, and their numbers in it.

ghost use Rattle.std.specs.Prelude.{◌≡◌, ◌<◌, ◌^◌, ◌≤◌, length, IfOk};
ghost use Rattle.word_transduce.specs.BlockMaps.{IsBlockGraph};
ghost use Rattle.word_transduce.specs.BlockLengths.{AreFirstEnds, ends_number, ends_part};

use crate::block_maps::BlockMaps;
use digit_tuple::faults::OutOfMemory;
use digit_tuple::numbering::Numbering;
use std::alloc::Global;

/// The ends of blocks of no digit, of one, of two and so on, until ends come again, and at most so many.
pub fn list_ends(alloc: Global, maps: &BlockMaps<'_>, most: usize) -> Result<Numbering, OutOfMemory>
    requires { IsBlockGraph maps.now.transducer.now maps.now.function.now maps.now.targets.now }
    ensures few { IfOk result (λ list. length list ≤ most) }
    ensures ends { IfOk result (AreFirstEnds maps.now.transducer.now maps.now.function.now) }
{
    let mut list = Numbering::new(alloc);
    let mut ends = maps.first_ends(alloc)?;
    for digits in 0..most {
        list.number_of(&ends)?;
        if list.len() == digits {
            return Ok(list);
        }
        ends = maps.ends_after(alloc, &ends)?;
    }
    Ok(list)
}

/// The ends in a key: their number in the list, and the ends themselves where they are not in it.
pub fn ends_part(alloc: Global, list: &Numbering, ends: &[u32]) -> Result<Vec<u32>, OutOfMemory>
    requires { length list.now < 2 ^ 32 }
    ensures { IfOk result (λ part. part.items ≡ ends_part list.now ends.now) }
{
    let number = ends_number(list, ends);
    let mut part = Vec::new(alloc);
    part.push(number as u32)?;
    if number >= list.len() {
        part.extend_from_slice(ends)?;
    }
    Ok(part)
}

// The number of ends in the list, and how many it has where they are not in it.
fn ends_number(list: &Numbering, ends: &[u32]) -> usize
    ensures number { result ≡ ends_number list.now ends.now }
    ensures within { result ≤ length list.now }
{
    for number in 0..list.len() {
        if list.key(number) == ends {
            return number;
        }
    }
    list.len()
}
