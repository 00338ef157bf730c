//! Sets of numbers as bits, and rows of bits of which only some words are kept.

ghost use Rattle.std.specs.Prelude.{◌≡◌, ℕ, ◌*◌, ◌<◌, ◌↔◌, length, IfOk, IsTrue};
ghost use Rattle.std.specs.List.{All};
ghost use Rattle.determinise.specs.Bits.{HasBit, AreSet, bits_of};

use digit_tuple::faults::OutOfMemory;
use std::alloc::Global;

/// Some bits of the word at a place among the words of a row.
#[derive(Clone, Copy)]
pub struct BitWord {
    pub place: u32,
    pub bits: u32,
}

/// The numbers as bits of so many words.
pub fn bits_of(alloc: Global, width: usize, numbers: &[u32]) -> Result<Vec<u32>, OutOfMemory>
    requires { All (λ number. number < 32 * width) numbers.now }
    ensures { IfOk result (λ words. words.items ≡ bits_of width numbers.now) }
{
    let mut words = vec![in alloc; 0; width]?;
    for number in numbers {
        words[(*number / 32) as usize] |= 1 << (*number % 32);
    }
    Ok(words)
}

/// Sets the bits that the row has.
pub fn set_row(words: &mut [u32], row: &[BitWord])
    requires { All (λ word. word.place < length words.old) row.now }
    ensures { AreSet words.old row.now words.new }
{
    for word in row {
        words[word.place as usize] |= word.bits;
    }
}

/// Whether the lists have a bit in common.
pub fn meet(words: &[u32], others: &[u32]) -> bool
    requires { length words.now ≡ length others.now }
    ensures { IsTrue result ↔ ((place : ℕ) × (bit : ℕ) × HasBit words.now place bit × HasBit others.now place bit) }
{
    for place in 0..words.len() {
        if words[place] & others[place] != 0 {
            return true;
        }
    }
    false
}
