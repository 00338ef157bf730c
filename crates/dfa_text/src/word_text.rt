//! The text of a deterministic automaton whose states have outputs.

ghost use Rattle.std.specs.Prelude.{◌≡◌, ◌<◌, ◌≤◌, ◌↔◌, [], ◌∷◌, ◌++◌, codes, length, None, slice_index_or, OnOk, IfOk, IsSome, IfSome};
ghost use Rattle.std.specs.List.{All, flat_map};
ghost use Rattle.digit_tuple.specs.Deterministic.{states_of};
ghost use Rattle.digit_tuple.specs.Letters.{product};
ghost use Rattle.digit_tuple.specs.Sets.{sizes_of};
ghost use Rattle.digit_tuple.specs.Headers.{sets_of};
ghost use Rattle.dfa_text.specs.LinePrefixes.{prefixes_of, target_text, prefixed_text};
ghost use Rattle.dfa_text.specs.Parts.{output_text, state_text, text_of_lines};
ghost use Rattle.dfa_text.specs.RelationText.{transition_text, steps_lines, word_text};

use crate::header_text::push_header;
use crate::line_prefixes::LinePrefixes;
use crate::numbers::{push_after, push_number};
use crate::text_room::text_room;
use crate::tuple_text::push_front;
use digit_tuple::alphabet::Alphabet;
use digit_tuple::dfa::Dfa;
use digit_tuple::faults::OutOfMemory;
use digit_tuple::header::Header;
use digit_tuple::transitions::Transition;
use std::alloc::Global;

/// The text of an automaton whose tracks are those of the header, and whose states have these outputs: the header, and all states
/// in order, each with its output, which is `-` for None, and a line for each letter that leads anywhere. Out of memory gives no text.
#[tactic(auto, unfolding(crate::specs::RelationText::word_text))]
pub fn print_word(
    alloc: Global,
    header: &Header,
    d: &Dfa,
    outputs: &[Option<i32>],
) -> Result<Vec<u8>, OutOfMemory>
    requires sizes { d.now.sizes ≡ sizes_of (sets_of header.now) }
    requires outputs { length outputs.now ≡ states_of d.now }
    ensures { IfOk result (λ text. text.items ≡ word_text header.now d.now outputs.now) }
{
    let mut out = text_room(alloc, d, usize::MAX)?;
    push_header(&mut out, header)?;
    let mut scratch = Scratch::new(alloc, header, d)?;
    for state in 0..d.states() {
        push_output(&mut out, state, output_at(outputs, state))?;
        push_lines(&mut out, header, d, &mut scratch, state)?;
    }
    Ok(out)
}

/// The text as `print_word` gives it, or None where it has more than `most` bytes. Of a text that is longer no more is made than
/// `most` bytes, the header, the lines of one state, and what the lines of each letter begin with. Out of memory gives no answer.
#[tactic(auto, unfolding(crate::specs::RelationText::word_text))]
pub fn print_word_within(
    alloc: Global,
    header: &Header,
    d: &Dfa,
    outputs: &[Option<i32>],
    most: usize,
) -> Result<Option<Vec<u8>>, OutOfMemory>
    requires sizes { d.now.sizes ≡ sizes_of (sets_of header.now) }
    requires outputs { length outputs.now ≡ states_of d.now }
    ensures text { IfOk result (λ text. IfSome text (λ printed. printed.items ≡ word_text header.now d.now outputs.now)) }
    ensures within { IfOk result (λ text. IsSome text ↔ (length (word_text header.now d.now outputs.now) ≤ most)) }
{
    let mut out = text_room(alloc, d, most)?;
    push_header(&mut out, header)?;
    let mut scratch = Scratch::new(alloc, header, d)?;
    for state in 0..d.states() {
        if out.len() > most {
            return Ok(None);
        }
        push_output(&mut out, state, output_at(outputs, state))?;
        push_lines(&mut out, header, d, &mut scratch, state)?;
    }
    Ok(if out.len() > most { None } else { Some(out) })
}

// What one state after another is printed from.
#[derive(Drop)]
struct Scratch {
    // A place for each track.
    places: Vec<u32>,
    // The transitions of a state.
    row: Vec<Transition>,
    // What the lines of each letter begin with, where there are at least as many lines as letters.
    prefixes: Option<LinePrefixes>,
}

impl Scratch {
    // Room for the tuples of an automaton.
    fn new(alloc: Global, header: &Header, d: &Dfa) -> Result<Self, OutOfMemory>
        requires { d.now.sizes ≡ sizes_of (sets_of header.now) }
        ensures tracks { IfOk result (λ scratch. length scratch.places.items ≡ length d.now.sizes) }
        ensures prefixes { IfOk result (λ scratch. IfSome scratch.prefixes (λ prefixes. prefixes ≡ prefixes_of (sets_of header.now))) }
    {
        Ok(Scratch {
            places: vec![in alloc; 0; d.alphabet().tracks() as usize]?,
            row: Vec::new(alloc),
            prefixes: prefixes_unless_few(alloc, header, d)?,
        })
    }
}

// What the lines of each letter begin with, or None where there are fewer lines than letters.
fn prefixes_unless_few(
    alloc: Global,
    header: &Header,
    d: &Dfa,
) -> Result<Option<LinePrefixes>, OutOfMemory>
    requires { d.now.sizes ≡ sizes_of (sets_of header.now) }
    ensures { IfOk result (λ made. IfSome made (λ prefixes. prefixes ≡ prefixes_of (sets_of header.now))) }
{
    if d.transitions() < u64::from(d.alphabet().letters()) {
        return Ok(None);
    }
    Ok(Some(LinePrefixes::new(alloc, header, d.alphabet())?))
}

// The output of a state.
fn output_at(outputs: &[Option<i32>], state: u32) -> Option<i32>
    ensures { result ≡ slice_index_or outputs.now state None }
{
    match outputs.get(state as usize) {
        Some(output) => *output,
        None => None,
    }
}

// A blank line, and the state's number and output.
fn push_output(out: &mut Vec<u8>, state: u32, output: Option<i32>) -> Result<(), OutOfMemory>
    ensures { OnOk result (out.new.items ≡ out.old.items ++ text_of_lines ([] ∷ state_text state output ∷ [])) }
{
    out.push(b'\n')?;
    push_number(out, state)?;
    push_letter(out, output)?;
    out.push(b'\n')?;
    Ok(())
}

// A blank, and an output.
fn push_letter(out: &mut Vec<u8>, output: Option<i32>) -> Result<(), OutOfMemory>
    ensures { OnOk result (out.new.items ≡ out.old.items ++ (codes " " ++ output_text output)) }
{
    match output {
        Some(number) => push_after(out, b' ', number),
        None => {
            out.extend_from_slice(b" -")?;
            Ok(())
        }
    }
}

// A line for each letter that leads anywhere.
fn push_lines(
    out: &mut Vec<u8>,
    header: &Header,
    d: &Dfa,
    scratch: &mut Scratch,
    state: u32,
) -> Result<(), OutOfMemory>
    requires sizes { d.now.sizes ≡ sizes_of (sets_of header.now) }
    requires tracks { length scratch.old.places.items ≡ length d.now.sizes }
    requires state { state < states_of d.now }
    requires prefixes { IfSome scratch.old.prefixes (λ prefixes. prefixes ≡ prefixes_of (sets_of header.now)) }
    ensures text { OnOk result (out.new.items ≡ out.old.items ++ text_of_lines (steps_lines (sets_of header.now) d.now state)) }
    ensures tracks { OnOk result (length scratch.new.places.items ≡ length d.now.sizes) }
    ensures prefixes { OnOk result (IfSome scratch.new.prefixes (λ prefixes. prefixes ≡ prefixes_of (sets_of header.now))) }
{
    d.transitions_into(state, &mut scratch.row)?;
    match &scratch.prefixes {
        Some(prefixes) => push_prefixed(out, prefixes, &scratch.row),
        None => push_transitions(out, header, d.alphabet(), &mut scratch.places, &scratch.row),
    }
}

// The lines of transitions, of which these are the prefixes by their letters.
fn push_prefixed(
    out: &mut Vec<u8>,
    prefixes: &LinePrefixes,
    transitions: &[Transition],
) -> Result<(), OutOfMemory>
    requires { All (λ transition. transition.letter < length prefixes.now) transitions.now }
    ensures { OnOk result (out.new.items ≡ out.old.items ++ flat_map (prefixed_text prefixes.now) transitions.now) }
{
    for transition in transitions {
        out.extend_from_slice(prefixes.prefix(transition.letter))?;
        push_target(out, transition.target)?;
    }
    Ok(())
}

// The lines of transitions.
fn push_transitions(
    out: &mut Vec<u8>,
    header: &Header,
    alphabet: &Alphabet,
    places: &mut [u32],
    transitions: &[Transition],
) -> Result<(), OutOfMemory>
    requires sizes { alphabet.now ≡ sizes_of (sets_of header.now) }
    requires tracks { length places.old ≡ length alphabet.now }
    requires letters { All (λ transition. transition.letter < product alphabet.now) transitions.now }
    ensures { OnOk result (out.new.items ≡ out.old.items ++ flat_map (transition_text (sets_of header.now)) transitions.now) }
{
    for transition in transitions {
        push_transition(out, header, alphabet, places, transition)?;
    }
    Ok(())
}

// The line of a transition.
fn push_transition(
    out: &mut Vec<u8>,
    header: &Header,
    alphabet: &Alphabet,
    places: &mut [u32],
    transition: &Transition,
) -> Result<(), OutOfMemory>
    requires sizes { alphabet.now ≡ sizes_of (sets_of header.now) }
    requires tracks { length places.old ≡ length alphabet.now }
    requires letter { transition.now.letter < product alphabet.now }
    ensures { OnOk result (out.new.items ≡ out.old.items ++ transition_text (sets_of header.now) transition.now) }
{
    push_front(out, header, alphabet, places, transition.letter)?;
    push_target(out, transition.target)
}

// Where a line leads, and its end.
fn push_target(out: &mut Vec<u8>, target: u32) -> Result<(), OutOfMemory>
    ensures { OnOk result (out.new.items ≡ out.old.items ++ target_text target) }
{
    push_number(out, target)?;
    out.push(b'\n')?;
    Ok(())
}
