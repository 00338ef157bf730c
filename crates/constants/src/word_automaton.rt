//! Automata of the paddings of one word.

ghost use Rattle.std.specs.Prelude.{◌≡◌, ◌<◌, ◌^◌, ◌↔◌, ℕ, List, length, IfOk, IsTrue};
ghost use Rattle.digit_tuple.specs.Deterministic.{accepts_of};
ghost use Rattle.digit_tuple.specs.Letters.{IsWord, product};
ghost use Rattle.digit_tuple.specs.Paddings.{in_order, without_zeros};
ghost use Rattle.numeration.specs.Words.{is_plain};
ghost use Rattle.constants.specs.WordPaths.{IsPathTo, IsPaddingPath, padding_prefix};

use digit_tuple::alphabet::Alphabet;
use digit_tuple::dfa::Dfa;
use digit_tuple::dfa_builder::DfaBuilder;
use digit_tuple::direction::Direction;
use digit_tuple::faults::OutOfMemory;
use std::alloc::Global;

/// The automaton of the paddings of a word, which has its most significant digit first, and no zero there. There is a
/// state for each prefix of the word as the direction reads it. OutOfMemory comes too where 2^32 - 1 states are not
/// enough.
pub fn paddings_of(
    alloc: Global,
    alphabet: Alphabet,
    word: &[u32],
    direction: Direction,
) -> Result<Dfa, OutOfMemory>
    requires letters { IsWord (product alphabet) word.now }
    requires some { 0 < product alphabet }
    requires plain { IsTrue (is_plain word.now) }
    requires short { length word.now < 2 ^ 32 }
    ensures sizes { IfOk result (λ dfa. dfa.sizes ≡ alphabet) }
    ensures paddings { IfOk result (λ dfa. (w : List ℕ) → IsTrue (accepts_of dfa w) ↔ (without_zeros (in_order direction w) ≡ word.now)) }
    ensures path { IfOk result (λ dfa. IsPaddingPath direction word.now dfa) }
{
    let letters = in_reading_order(alloc, word, direction)?;
    let mut builder = path_of(alloc, alphabet, &letters)?;
    let padded = padding_state(direction, letters.len() as u32);
    builder.set(padded, 0, padded)?;
    builder.finish()
}

// The word as the direction reads it.
fn in_reading_order(
    alloc: Global,
    word: &[u32],
    direction: Direction,
) -> Result<Vec<u32>, OutOfMemory>
    ensures { IfOk result (λ letters. letters.items ≡ in_order direction word.now) }
{
    let mut letters = Vec::from_slice(alloc, word)?;
    match direction {
        Direction::Msd => Ok(letters),
        Direction::Lsd => {
            letters.reverse();
            Ok(letters)
        }
    }
}

// The prefix of a word of this length at which its padding zeros are.
fn padding_state(direction: Direction, length: u32) -> u32
    ensures { result ≡ padding_prefix direction length }
{
    match direction {
        Direction::Msd => 0,
        Direction::Lsd => length,
    }
}

// A state for each prefix of the word, from which its next letter leads to the next one.
fn path_of(alloc: Global, alphabet: Alphabet, letters: &[u32]) -> Result<DfaBuilder, OutOfMemory>
    requires letters { IsWord (product alphabet) letters.now }
    ensures sizes { IfOk result (λ builder. builder.sizes ≡ alphabet) }
    ensures path { IfOk result (λ builder. IsPathTo letters.now (length letters.now) builder) }
{
    let mut builder = DfaBuilder::new(alloc, alphabet)?;
    builder.add_state(letters.is_empty())?;
    for (place, letter) in letters.iter().enumerate() {
        let next = builder.add_state(place + 1 == letters.len())?;
        builder.set(next - 1, *letter, next)?;
    }
    Ok(builder)
}
