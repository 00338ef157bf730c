//! The digits that letters with a part have on each track.

ghost use Rattle.std.specs.Prelude.{◌≡◌, ◌<◌, ℕ, length, IfOk};
ghost use Rattle.std.specs.List.{All, AllZip};
ghost use Rattle.digit_tuple.specs.Letters.{product};
ghost use Rattle.digit_tuple.specs.Parts.{digits_of, letter_part, picked};
ghost use Rattle.track_parts.specs.Spans.{AreSpans, IsInSpan};

use crate::span::{Span, span_of};
use digit_tuple::alphabet::Alphabet;
use digit_tuple::faults::OutOfMemory;
use std::alloc::Global;

/// The digits of the letters that have a part at these places, counted from 0, whose alphabet is `own`: a span for each
/// track.
pub fn spans_of(
    alloc: Global,
    alphabet: &Alphabet,
    places: &[u32],
    own: &Alphabet,
    part: u32,
) -> Result<Vec<Span>, OutOfMemory>
    requires places { All (λ place. place < length alphabet.now) places.now }
    requires own { own.now ≡ picked places.now alphabet.now }
    requires part { part < product own.now }
    ensures spans { IfOk result (λ spans. AreSpans alphabet.now spans.items) }
    ensures fit { IfOk result (λ spans. (letter : ℕ) → letter < product alphabet.now → letter_part alphabet.now places.now letter ≡ part
        → AllZip IsInSpan (digits_of alphabet.now letter) spans.items) }
{
    let mut digits = vec![in alloc; 0; own.tracks() as usize]?;
    own.digits_of(part, &mut digits);
    let mut spans = Vec::with_capacity(alloc, alphabet.tracks() as usize)?;
    for track in 0..alphabet.tracks() {
        spans.push(span_of(places, &digits, track, alphabet.size(track)))?;
    }
    Ok(spans)
}
