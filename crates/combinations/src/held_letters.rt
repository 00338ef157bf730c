//! The letters of tuples of states.

ghost use Rattle.std.specs.Prelude.{◌≡◌, ◌<◌, ◌≤◌, length, map, IfOk};
ghost use Rattle.std.specs.List.{All};
ghost use Rattle.std.specs.Rc.{rc_value};
ghost use Rattle.product_op.specs.Readings.{flags_at, readings_in};
ghost use Rattle.product_op.specs.TrackReadings.{AllFitTracks};
ghost use Rattle.combinations.specs.HeldLetters.{combined_readings, first_held, held_letter, held_letters};

use crate::part::Part;
use digit_tuple::alphabet::Alphabet;
use digit_tuple::dfa::Dfa;
use digit_tuple::faults::OutOfMemory;
use digit_tuple::numbering::Numbering;
use product_op::argument_readers::{add_track_readers, whole_reader};
use product_op::reader::Reader;
use product_op::reader_states::all_accept;
use std::alloc::Global;
use std::rc::Rc;

/// The readers of the relations, and after them those of each track's language.
pub(crate) fn combined_readers<'a>(
    alloc: Global,
    alphabet: &Alphabet,
    parts: &'a [Part],
    languages: &'a [Rc<Dfa>],
) -> Result<Vec<Reader<'a>>, OutOfMemory>
    requires { AllFitTracks alphabet.now (map rc_value languages.now) }
    ensures { IfOk result (λ readers. readings_in readers.items ≡ combined_readings parts.now alphabet.now (map rc_value languages.now)) }
{
    let mut readers = Vec::new(alloc);
    for part in parts {
        readers.push(whole_reader(alloc, part.relation().dfa())?)?;
    }
    add_track_readers(alloc, alphabet, languages, &mut readers)?;
    Ok(readers)
}

/// The letter of each tuple of states.
pub(crate) fn tuple_letters(
    alloc: Global,
    rest: Option<i32>,
    parts: &[Part],
    readers: &[Reader<'_>],
    keys: &Numbering,
) -> Result<Vec<Option<i32>>, OutOfMemory>
    requires enough { length parts.now ≤ length readers.now }
    requires keys { All (λ key. length key ≡ length readers.now) keys.now }
    ensures { IfOk result (λ letters. letters.items ≡ held_letters rest parts.now (readings_in readers.now) keys.now) }
{
    let mut letters = Vec::with_capacity(alloc, keys.len())?;
    for number in 0..keys.len() {
        letters.push(tuple_letter(rest, parts, readers, keys.key(number)))?;
    }
    Ok(letters)
}

// The value of the first relation that accepts at the tuple, or the rest, where the languages accept.
fn tuple_letter(
    rest: Option<i32>,
    parts: &[Part],
    readers: &[Reader<'_>],
    key: &[u32],
) -> Option<i32>
    requires enough { length parts.now ≤ length readers.now }
    requires key { length key.now ≡ length readers.now }
    ensures { result ≡ held_letter rest parts.now (readings_in readers.now) key.now }
{
    if all_accept(readers, key, parts.len()) {
        first_value(rest, parts, readers, key)
    } else {
        None
    }
}

// The value of the first relation that accepts at the tuple, and the rest where none does.
fn first_value(
    rest: Option<i32>,
    parts: &[Part],
    readers: &[Reader<'_>],
    key: &[u32],
) -> Option<i32>
    requires enough { length parts.now ≤ length readers.now }
    requires key { length key.now ≡ length readers.now }
    ensures { result ≡ first_held rest parts.now (flags_at (readings_in readers.now) key.now) }
{
    for (place, part) in parts.iter().enumerate() {
        if readers[place].accepts(key[place]) {
            return Some(part.value());
        }
    }
    rest
}
