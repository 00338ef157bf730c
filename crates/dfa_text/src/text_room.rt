//! Room for the text of an automaton.

ghost use Rattle.std.specs.Prelude.{◌≡◌, [], IfOk};

use digit_tuple::dfa::Dfa;
use digit_tuple::faults::OutOfMemory;
use itoa::Buffer;
use std::alloc::Global;

/// An empty text with memory for about as much as the text of the automaton, at most for `most` bytes.
///
/// The memory is asked for twice, since allocators such as glibc's give a block that is larger than all that they got back
/// a mapping of its own, and leave free what the steps before gave back. Where such a block is given back once, the next
/// takes what is free.
pub fn text_room(alloc: Global, d: &Dfa, most: usize) -> Result<Vec<u8>, OutOfMemory>
    ensures { IfOk result (λ text. text.items ≡ []) }
{
    let likely = likely_length(d).min(most);
    let first: Vec<u8> = Vec::with_capacity(alloc, likely)?;
    drop(first);
    Ok(Vec::with_capacity(alloc, likely)?)
}

// About as many bytes as the text has: as many as it would have after the header if outputs and members had one digit, and all
// states as many as the greatest number.
fn likely_length(d: &Dfa) -> usize {
    let digits = decimal_digits(d.states());
    let state = digits.saturating_add(4);
    let transition = (d.alphabet().tracks() as usize * 2)
        .saturating_add(digits)
        .saturating_add(4);
    let states = (d.states() as usize).saturating_mul(state);
    (d.transitions() as usize)
        .saturating_mul(transition)
        .saturating_add(states)
}

// How many decimal digits a number has.
fn decimal_digits(number: u32) -> usize {
    let mut buffer = Buffer::new();
    buffer.format(number).len()
}
