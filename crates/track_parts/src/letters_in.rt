//! Letters whose digits are in spans.

ghost use Rattle.std.specs.Prelude.{◌≡◌, ◌++◌, ◌+◌, ◌*◌, ◌<◌, ◌^◌, map, IfOk, OnOk};
ghost use Rattle.std.specs.List.{All, flat_map, range_with_len};
ghost use Rattle.digit_tuple.specs.Letters.{product};
ghost use Rattle.track_parts.specs.Spans.{AreSpans, letters_in, with_digit};

use crate::span::Span;
use digit_tuple::alphabet::Alphabet;
use digit_tuple::faults::OutOfMemory;
use std::alloc::Global;

/// The letters whose digits are in the spans, one for each track, in order. There is some letter.
pub fn letters_in(
    alloc: Global,
    alphabet: &Alphabet,
    spans: &[Span],
) -> Result<Vec<u32>, OutOfMemory>
    requires some { 0 < product alphabet.now }
    requires spans { AreSpans alphabet.now spans.now }
    ensures { IfOk result (λ letters. letters.items ≡ letters_in alphabet.now spans.now) }
{
    let mut letters = vec![in alloc; 0; 1]?;
    let mut weight = 1;
    for track in (0..alphabet.tracks()).rev() {
        let mut more = Vec::new(alloc);
        add_digits(&letters, spans[track as usize], weight, &mut more)?;
        letters = more;
        weight *= alphabet.size(track);
    }
    Ok(letters)
}

// Adds the letters that have a digit of the span on a track, and on those after it the digits of a letter.
fn add_digits(
    letters: &[u32],
    span: Span,
    weight: u32,
    out: &mut Vec<u32>,
) -> Result<(), OutOfMemory>
    requires letters { All (λ letter. letter < weight) letters.now }
    requires digits { span.from + span.count < 2 ^ 32 }
    requires small { (span.from + span.count) * weight < 2 ^ 32 }
    ensures { OnOk result (out.new.items ≡ out.old.items ++ flat_map (with_digit letters.now weight) (range_with_len span.from span.count)) }
{
    for number in 0..span.count {
        add_higher(letters, (span.from + number) * weight, out)?;
    }
    Ok(())
}

// Adds the letters, each higher by a number.
fn add_higher(letters: &[u32], by: u32, out: &mut Vec<u32>) -> Result<(), OutOfMemory>
    requires { All (λ letter. by + letter < 2 ^ 32) letters.now }
    ensures { OnOk result (out.new.items ≡ out.old.items ++ map (λ letter. by + letter) letters.now) }
{
    for letter in letters {
        out.push(by + *letter)?;
    }
    Ok(())
}
