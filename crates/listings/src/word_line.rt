//! The lines of words.

ghost use Rattle.std.specs.Prelude.{◌≡◌, ◌<◌, ◌==◌, pos, [], ◌++◌, length, slice_index_or, codes, if◌then◌else◌, OnOk};
ghost use Rattle.std.specs.List.{flat_map, join_by};
ghost use Rattle.std.specs.Fmt.{signed_decimal};
ghost use Rattle.digit_tuple.specs.Letters.{product, AreDigits, IsWord};
ghost use Rattle.digit_tuple.specs.Sets.{sizes_of, members_at};
ghost use Rattle.dfa_text.specs.RelationText.{tuple_of};
ghost use Rattle.listings.specs.WordLines.{letter_text, word_line};

use digit_tuple::alphabet::Alphabet;
use digit_tuple::faults::OutOfMemory;
use digit_tuple::letter_set::LetterSet;
use itoa::Buffer;

/// Appends the word's letters, or `[]` where there is none, and the line's end. The places, one for each track, are for the
/// letters' digits. It takes time in proportion to what it appends.
pub fn push_line(
    out: &mut Vec<u8>,
    alphabet: &Alphabet,
    sets: &[LetterSet],
    places: &mut [u32],
    word: &[u32],
) -> Result<(), OutOfMemory>
    requires sizes { alphabet.now ≡ sizes_of sets.now }
    requires tracks { length places.old ≡ length alphabet.now }
    requires word { IsWord (product alphabet.now) word.now }
    ensures { OnOk result (out.new.items ≡ out.old.items ++ word_line sets.now word.now) }
{
    if word.is_empty() {
        out.extend_from_slice(b"[]\n")?;
        return Ok(());
    }
    push_letters(out, alphabet, sets, places, word)?;
    out.push(b'\n')?;
    Ok(())
}

// Appends the letters.
fn push_letters(
    out: &mut Vec<u8>,
    alphabet: &Alphabet,
    sets: &[LetterSet],
    places: &mut [u32],
    word: &[u32],
) -> Result<(), OutOfMemory>
    requires sizes { alphabet.now ≡ sizes_of sets.now }
    requires tracks { length places.old ≡ length alphabet.now }
    requires word { IsWord (product alphabet.now) word.now }
    ensures { OnOk result (out.new.items ≡ out.old.items ++ flat_map (λ letter. letter_text (tuple_of sets.now letter)) word.now) }
{
    for letter in word {
        push_letter(out, alphabet, sets, places, *letter)?;
    }
    Ok(())
}

// Appends the digits of a letter in brackets.
fn push_letter(
    out: &mut Vec<u8>,
    alphabet: &Alphabet,
    sets: &[LetterSet],
    places: &mut [u32],
    letter: u32,
) -> Result<(), OutOfMemory>
    requires sizes { alphabet.now ≡ sizes_of sets.now }
    requires tracks { length places.old ≡ length alphabet.now }
    requires letter { letter < product alphabet.now }
    ensures { OnOk result (out.new.items ≡ out.old.items ++ letter_text (tuple_of sets.now letter)) }
{
    alphabet.digits_of(letter, places);
    out.push(b'[')?;
    push_digits(out, sets, places)?;
    out.push(b']')?;
    Ok(())
}

// Appends the members at these places, with a comma between two of them.
fn push_digits(out: &mut Vec<u8>, sets: &[LetterSet], places: &[u32]) -> Result<(), OutOfMemory>
    requires { AreDigits (sizes_of sets.now) places.now }
    ensures { OnOk result (out.new.items ≡ out.old.items ++ join_by signed_decimal (codes ",") (members_at sets.now places.now)) }
{
    for (track, place) in places.iter().enumerate() {
        push_digit(out, &sets[track], track, *place)?;
    }
    Ok(())
}

// Appends a comma, unless the track is the first, and the member at the place.
fn push_digit(
    out: &mut Vec<u8>,
    set: &LetterSet,
    track: usize,
    place: u32,
) -> Result<(), OutOfMemory>
    requires { place < length set.now }
    ensures { OnOk result (out.new.items ≡ out.old.items ++ ((if track == 0 then [] else codes ",") ++ signed_decimal (slice_index_or set.now place (pos 0)))) }
{
    out.extend_from_slice(comma_before(track))?;
    push_number(out, set.members()[place as usize])
}

fn comma_before(track: usize) -> &'static [u8]
    ensures { result.now ≡ (if track == 0 then [] else codes ",") }
{
    if track == 0 { b"" } else { b"," }
}

// Appends a number.
fn push_number(out: &mut Vec<u8>, number: i32) -> Result<(), OutOfMemory>
    ensures { OnOk result (out.new.items ≡ out.old.items ++ signed_decimal number) }
{
    let mut buffer = Buffer::new();
    out.extend_from_slice(buffer.format(number).as_bytes())?;
    Ok(())
}
