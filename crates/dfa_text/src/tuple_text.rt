//! The text of a tuple in a line.

ghost use Rattle.std.specs.Prelude.{◌≡◌, ◌<◌, ◌==◌, pos, [], ◌++◌, length, slice_index_or, codes, if◌then◌else◌, OnOk};
ghost use Rattle.std.specs.List.{join_by};
ghost use Rattle.std.specs.Fmt.{signed_decimal};
ghost use Rattle.digit_tuple.specs.Letters.{product, AreDigits};
ghost use Rattle.digit_tuple.specs.Sets.{sizes_of, members_at};
ghost use Rattle.digit_tuple.specs.Headers.{sets_of};
ghost use Rattle.dfa_text.specs.LinePrefixes.{letter_prefix};

use crate::numbers::{push_integer, push_number};
use digit_tuple::alphabet::Alphabet;
use digit_tuple::faults::OutOfMemory;
use digit_tuple::header::Header;

/// Appends the tuple of a letter and the arrow after it. The places, one for each track, are for the letter's digits.
pub fn push_front(
    out: &mut Vec<u8>,
    header: &Header,
    alphabet: &Alphabet,
    places: &mut [u32],
    letter: u32,
) -> Result<(), OutOfMemory>
    requires sizes { alphabet.now ≡ sizes_of (sets_of header.now) }
    requires tracks { length places.old ≡ length alphabet.now }
    requires letter { letter < product alphabet.now }
    ensures { OnOk result (out.new.items ≡ out.old.items ++ letter_prefix (sets_of header.now) letter) }
{
    alphabet.digits_of(letter, places);
    push_tuple(out, header, places)?;
    out.extend_from_slice(b" -> ")?;
    Ok(())
}

// The members at these places.
fn push_tuple(out: &mut Vec<u8>, header: &Header, places: &[u32]) -> Result<(), OutOfMemory>
    requires { AreDigits (sizes_of (sets_of header.now)) places.now }
    ensures { OnOk result (out.new.items ≡ out.old.items ++ join_by signed_decimal (codes " ") (members_at (sets_of header.now) places.now)) }
{
    for (track, place) in places.iter().enumerate() {
        push_digit(out, header, track, *place)?;
    }
    Ok(())
}

// A blank, unless the track is the first, and the member at the place.
fn push_digit(
    out: &mut Vec<u8>,
    header: &Header,
    track: usize,
    place: u32,
) -> Result<(), OutOfMemory>
    requires track { track < length (sets_of header.now) }
    requires place { place < length (slice_index_or (sets_of header.now) track []) }
    ensures { OnOk result (out.new.items ≡ out.old.items ++ ((if track == 0 then [] else codes " ") ++ signed_decimal (slice_index_or (slice_index_or (sets_of header.now) track []) place (pos 0)))) }
{
    out.extend_from_slice(blank_before(track))?;
    push_member(out, header, track, place)
}

fn blank_before(track: usize) -> &'static [u8]
    ensures { result.now ≡ (if track == 0 then [] else codes " ") }
{
    if track == 0 { b"" } else { b" " }
}

// The member of a track's set at the place; of a system's digits it is the place itself.
fn push_member(
    out: &mut Vec<u8>,
    header: &Header,
    track: usize,
    place: u32,
) -> Result<(), OutOfMemory>
    requires track { track < length (sets_of header.now) }
    requires place { place < length (slice_index_or (sets_of header.now) track []) }
    ensures { OnOk result (out.new.items ≡ out.old.items ++ signed_decimal (slice_index_or (slice_index_or (sets_of header.now) track []) place (pos 0))) }
{
    match header {
        Header::Sets(sets) => {
            let set = &sets.as_slice()[track];
            push_integer(out, set.members()[place as usize])
        }
        Header::Systems(_) => push_number(out, place),
    }
}
