//! Numbers of outputs with their states, and the letters of keys.

ghost use Rattle.std.specs.Prelude.{◌≡◌, ◌-◌, ◌<◌, ◌^◌, length, map, IfOk, Some};
ghost use Rattle.word_transduce.specs.BlockMaps.{is_output, key_letter, numbered_output, output_number};

use crate::packed_outputs::{are_packed, key_output};
use digit_tuple::faults::OutOfMemory;
use digit_tuple::numbering::Numbering;
use std::alloc::Global;
use transducer_reading::{Transducer, TransducerLine};

/// The number of an output with its state: one more than the position of the first line that has both.
pub fn output_number(lines: &[TransducerLine], state: usize, output: i32) -> u32
    requires { length lines.now < 2 ^ 32 - 1 }
    ensures { result ≡ output_number lines.now (Some (state, output)) }
{
    for (place, line) in lines.iter().enumerate() {
        if has_output(line, state, output) {
            return place as u32 + 1;
        }
    }
    lines.len() as u32 + 1
}

// Whether a line is from the state and has the output.
fn has_output(line: &TransducerLine, state: usize, output: i32) -> bool
    ensures { result ≡ is_output state output line.now }
{
    line.state == state && line.output == output
}

/// The letter of each key.
pub fn key_letters(
    alloc: Global,
    transducer: &Transducer,
    keys: &Numbering,
) -> Result<Vec<Option<i32>>, OutOfMemory>
    ensures { IfOk result (λ letters. letters.items ≡ map (key_letter transducer.now) keys.now) }
{
    let mut letters = Vec::with_capacity(alloc, keys.len())?;
    for number in 0..keys.len() {
        letters.push(key_letter(transducer, keys.key(number)))?;
    }
    Ok(letters)
}

// The letter of a key: that of its first output.
fn key_letter(transducer: &Transducer, key: &[u32]) -> Option<i32>
    ensures { result ≡ key_letter transducer.now key.now }
{
    let number = key_output(are_packed(transducer), key, 0);
    numbered_output(transducer.lines(), number)
}

// The output of a number.
fn numbered_output(lines: &[TransducerLine], number: u32) -> Option<i32>
    ensures { result ≡ numbered_output lines.now number }
{
    if number == 0 {
        return None;
    }
    match lines.get(number as usize - 1) {
        Some(line) => Some(line.output),
        None => None,
    }
}
