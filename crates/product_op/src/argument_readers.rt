//! Readers of automata on some of the tracks.

ghost use Rattle.std.specs.Prelude.{◌≡◌, ◌<◌, ◌++◌, length, IfOk, OnOk, map};
ghost use Rattle.std.specs.Rc.{rc_value};
ghost use Rattle.std.specs.List.{All, Contains};
ghost use Rattle.digit_tuple.specs.Names.{places_of};
ghost use Rattle.digit_tuple.specs.Parts.{picked};
ghost use Rattle.product_op.specs.Readings.{reading_in, readings_in};
ghost use Rattle.product_op.specs.TrackReadings.{read_on, whole_reading, track_readings, validity_readings, AllFitTracks};

use crate::numbers_below::numbers_below;
use crate::reader::Reader;
use digit_tuple::alphabet::Alphabet;
use digit_tuple::dfa::Dfa;
use digit_tuple::faults::OutOfMemory;
use digit_tuple::name::Name;
use digit_tuple::names::places_in;
use minimise::tracked::Tracked;
use std::alloc::Global;
use std::rc::Rc;
use track_parts::track_parts::TrackParts;

// The parts of so many letters are listed at any rate, in 48 KiB, since a part is looked up faster than it is found.
const LISTED_LETTERS: u64 = 4_096;

/// The reader of an automaton on the tracks of its names.
pub fn argument_reader<'a>(
    alloc: Global,
    alphabet: &Alphabet,
    names: &[Name],
    argument: &'a Tracked,
) -> Result<Reader<'a>, OutOfMemory>
    requires count { length names.now ≡ length alphabet.now }
    requires there { All (Contains names.now) argument.now.names }
    requires sizes { picked (places_of names.now argument.now.names) alphabet.now ≡ argument.now.automaton.sizes }
    ensures { IfOk result (λ reader. reading_in reader ≡ read_on alphabet.now argument.now.automaton (places_of names.now argument.now.names)) }
{
    let _tracks = alphabet.tracks();
    let places = places_in(alloc, names, argument.names())?;
    reader_on(alloc, alphabet, &places, argument.dfa())
}

/// The reader of an automaton on all tracks.
pub fn whole_reader(alloc: Global, dfa: &Dfa) -> Result<Reader<'_>, OutOfMemory>
    ensures { IfOk result (λ reader. reading_in reader ≡ whole_reading dfa.now) }
{
    let alphabet = dfa.alphabet();
    let places = numbers_below(alloc, alphabet.tracks())?;
    reader_on(alloc, alphabet, &places, dfa)
}

/// Adds a reader of each language on its track.
pub fn add_track_readers<'a>(
    alloc: Global,
    alphabet: &Alphabet,
    languages: &'a [Rc<Dfa>],
    readers: &mut Vec<Reader<'a>>,
) -> Result<(), OutOfMemory>
    requires { AllFitTracks alphabet.now (map rc_value languages.now) }
    ensures { OnOk result (readings_in readers.new.items ≡ readings_in readers.old.items ++ track_readings alphabet.now (map rc_value languages.now)) }
{
    let _tracks = alphabet.tracks();
    for (track, language) in languages.iter().enumerate() {
        readers.push(reader_on(alloc, alphabet, &[track as u32], language.as_ref())?)?;
    }
    Ok(())
}

/// The readers of an automaton on all tracks and of each language on its track: so it is seen whether a word is valid,
/// each of its track words in the track's language, and whether the automaton accepts it. `alphabet` is that of the
/// automaton, and `valid` has canonical languages of the first tracks, each over its track's digits. The reader of the
/// automaton is the first, those of the languages follow in the order of tracks. The one error is that memory runs out.
/// Time and memory follow the tracks and the transitions of all these automata.
pub fn validity_readers<'a>(
    alloc: Global,
    alphabet: &Alphabet,
    dfa: &'a Dfa,
    valid: &'a [Rc<Dfa>],
) -> Result<Vec<Reader<'a>>, OutOfMemory>
    requires sizes { alphabet.now ≡ dfa.now.sizes }
    requires languages { AllFitTracks dfa.now.sizes (map rc_value valid.now) }
    ensures { IfOk result (λ readers. readings_in readers.items ≡ validity_readings dfa.now (map rc_value valid.now)) }
{
    let mut readers = Vec::new(alloc);
    readers.push(whole_reader(alloc, dfa)?)?;
    add_track_readers(alloc, alphabet, valid, &mut readers)?;
    Ok(readers)
}

/// The reader of an automaton on the tracks at these places, counted from 0. Time and memory follow the tracks and the
/// automaton's transitions.
pub fn reader_on<'a>(
    alloc: Global,
    alphabet: &Alphabet,
    places: &[u32],
    dfa: &'a Dfa,
) -> Result<Reader<'a>, OutOfMemory>
    requires places { All (λ place. place < length alphabet.now) places.now }
    requires sizes { picked places.now alphabet.now ≡ dfa.now.sizes }
    ensures { IfOk result (λ reader. reading_in reader ≡ read_on alphabet.now dfa.now places.now) }
{
    let mut parts = TrackParts::new(alloc, alphabet, places, dfa.alphabet())?;
    parts.list_within(alloc, dfa.transitions().max(LISTED_LETTERS))?;
    Ok(Reader { dfa, parts })
}
