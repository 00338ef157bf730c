//! Heads of commands about the words of an automaton.
ghost use Rattle.std.specs.Prelude.{◌≡◌, ◌<◌, ◌+◌, ◌^◌, length, true, MatchResult};
ghost use Rattle.command_head.specs.Parts.{is_name as is_name_part};
ghost use Rattle.command_head.specs.Grammar.{DerivesName, DerivesCount, DerivesPlace};
ghost use Rattle.command_head.specs.HeadViews.{test_view};
ghost use Rattle.command_head.specs.Breaks.{HasHead};
ghost use Rattle.command_head.specs.TestBreaks.{HasTest};
ghost use Rattle.command_head.specs.TestParts.{RefusesCount, RefusesPlace};

use crate::fault::HeadFault;
use crate::head::TestParts;
use crate::kinds::{after_word, at_end, body_in, name_in};
use crate::rest::FirstPart;
use crate::stage::name_of;
use digit_tuple::name::Name;
use place_text::{Place, PlaceFault};
use std::alloc::Global;
use text_grammar::{are_digits, value_within};

/// The name in `WORD NAME`, for a word of the form of a name. Blanks are between the parts.
///
/// # Errors
/// `Syntax` gives the first byte of the first part that does not go on so, or the text's length where it ends too
/// early; `Number` is never given, since no number may be in such a head.
pub fn name_after(alloc: Global, word: &[u8], text: &[u8]) -> Result<Name, HeadFault>
    requires { is_name_part word.now ≡ true }
    ensures { HasHead (DerivesName word.now) (λ name. name) text.now result }
{
    let rest = after_word(word, text)?;
    let part = rest.first_part();
    let name = name_in(&part)?;
    at_end(&part.rest)?;
    name_of(alloc, name)
}

/// The number of words that a part has to be: digits alone.
fn count_in(part: &FirstPart<'_>) -> Result<u64, HeadFault>
    ensures { MatchResult result (DerivesCount part.now.bytes.now) (RefusesCount part.now.bytes.now part.now.at) }
{
    if !are_digits(part.bytes) {
        return Err(HeadFault::Syntax(part.at));
    }
    match value_within(u64::MAX, part.bytes) {
        Some(count) => Ok(count),
        None => Err(HeadFault::Number(part.at)),
    }
}

/// The place in quotes that a part has to be.
fn place_in(alloc: Global, part: &FirstPart<'_>) -> Result<Place, HeadFault>
    requires { part.now.at + length part.now.bytes.now < 2 ^ 64 }
    ensures { MatchResult result (DerivesPlace part.now.bytes.now) (RefusesPlace part.now.bytes.now part.now.at) }
{
    let body = body_in(part)?;
    let begin = part.at + 1;
    match Place::parse(alloc, body) {
        Ok(place) => Ok(place),
        Err(PlaceFault::Syntax(at)) => Err(HeadFault::Syntax(begin + at)),
        Err(PlaceFault::Number(at)) => Err(HeadFault::Number(begin + at)),
        Err(PlaceFault::Memory) => Err(HeadFault::Memory),
    }
}

/// The parts of `test NAME NUM` or `test NAME NUM "PLACE"`. Blanks may be between the parts, and one comes before the name.
/// NUM is digits alone, and less than 2^64; PLACE is as `Place::parse` reads it.
///
/// # Errors
/// `Syntax` gives the first byte of the first part that does not go on so, or the text's length where it ends too early;
/// where this part is a text in quotes that may be a place, the byte in it with which no place goes on, or its closing
/// quote. `Number` gives the first byte of a NUM of 2^64 or more, or of a digit of the place that does not fit 32 bits,
/// signed. The first such part decides.
pub fn test_parts(alloc: Global, text: &[u8]) -> Result<TestParts, HeadFault>
    ensures { HasTest test_view text.now result }
{
    let rest = after_word(b"test", text)?;
    let first = rest.first_part();
    let name = name_in(&first)?;
    let second = first.rest.first_part();
    let count = count_in(&second)?;
    if second.rest.bytes.is_empty() {
        return Ok(TestParts {
            name: name_of(alloc, name)?,
            count,
            place: None,
        });
    }
    let third = second.rest.first_part();
    let place = place_in(alloc, &third)?;
    at_end(&third.rest)?;
    Ok(TestParts {
        name: name_of(alloc, name)?,
        count,
        place: Some(place),
    })
}
