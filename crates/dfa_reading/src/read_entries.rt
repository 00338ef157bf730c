//! The lines below a header.

ghost use Rattle.std.specs.Prelude.{◌≡◌, ◌<◌, ◌≤◌, ◌^◌, length, slice_index_or, IfOk, option_map, option_and_then};
ghost use Rattle.dfa_reading.specs.Lines.{parts_of};
ghost use Rattle.dfa_reading.specs.Numbers.{number_below as number_below_of, integer_of};
ghost use Rattle.dfa_reading.specs.Headers.{digits_in, Below};
ghost use Rattle.dfa_reading.specs.Entries.{place_in, one_digit as one_digit_of, digit_of, digits_of, state_number as number_of_state, targets_of, state_of, entry_of};
ghost use Rattle.dfa_reading.specs.HeaderViews.{header_view};
ghost use Rattle.dfa_reading.specs.EntryViews.{entry_view};

use crate::header::FileHeader;
use crate::outputs::Outputs;
use crate::read_lines::{cut_arrow, next_part};
use crate::read_numbers::{integer, number_below};
use digit_tuple::faults::OutOfMemory;
use digit_tuple::letter_set::LetterSet;
use std::alloc::Global;

// One above the largest number of a state.
const STATE_LIMIT: u64 = 4294967296;

/// What a line below the header lists.
#[derive(Drop)]
pub enum Entry {
    /// A state, and its output, where None is no letter.
    State(u32, Option<i32>),
    /// Transitions by these digits, where None is `*`, to the states of these numbers.
    Line(Vec<Option<u32>>, Vec<u32>),
}

/// What a line lists, if it has the form of a state or of transitions.
#[tactic(auto, unfolding(crate::specs::Entries::entry_of))]
pub fn read_entry(
    alloc: Global,
    header: &FileHeader,
    outputs: Outputs,
    line: &[u8],
) -> Result<Option<Entry>, OutOfMemory>
    ensures { IfOk result (λ entry. option_map entry_view entry ≡ entry_of outputs (digits_in (header_view header.now)) line.now) }
{
    let Some((before, after)) = cut_arrow(line) else {
        return Ok(state_entry(outputs, line));
    };
    let Some(digits) = digits(alloc, header, before)? else {
        return Ok(None);
    };
    let Some(targets) = targets(alloc, after)? else {
        return Ok(None);
    };
    Ok(Some(Entry::Line(digits, targets)))
}

// A state's number and its output.
fn state_entry(outputs: Outputs, line: &[u8]) -> Option<Entry>
    ensures { option_map entry_view result ≡ state_of outputs (parts_of line.now) }
{
    let (number, rest) = next_part(line)?;
    let (output, rest) = next_part(rest)?;
    if next_part(rest).is_some() {
        return None;
    }
    let number = state_number(number)?;
    let output = outputs.read(output)?;
    Some(Entry::State(number, output))
}

fn state_number(part: &[u8]) -> Option<u32>
    ensures { result ≡ number_of_state part.now }
{
    let number = number_below(STATE_LIMIT, part)?;
    Some(number as u32)
}

// One digit for each track.
fn digits(
    alloc: Global,
    header: &FileHeader,
    text: &[u8],
) -> Result<Option<Vec<Option<u32>>>, OutOfMemory>
    ensures { IfOk result (λ digits. option_map (λ v. v.items) digits ≡ digits_of (digits_in (header_view header.now)) (parts_of text.now)) }
{
    let mut digits = Vec::new(alloc);
    let mut rest = text;
    for track in 0..header.tracks() {
        let Some((part, after)) = next_part(rest) else {
            return Ok(None);
        };
        let Some(digit) = digit(header, track, part) else {
            return Ok(None);
        };
        digits.push(digit)?;
        rest = after;
    }
    if next_part(rest).is_some() {
        return Ok(None);
    }
    Ok(Some(digits))
}

// `*`, or a digit of the track.
fn digit(header: &FileHeader, track: usize, part: &[u8]) -> Option<Option<u32>>
    requires { track < length (digits_in (header_view header.now)) }
    ensures { result ≡ digit_of (slice_index_or (digits_in (header_view header.now)) track (Below 0)) part.now }
{
    if part.len() == 1 && part[0] == b'*' {
        return Some(None);
    }
    let digit = one_digit(header, track, part)?;
    Some(Some(digit))
}

// A digit of the track: a member by its place in the set, and a number by itself.
fn one_digit(header: &FileHeader, track: usize, part: &[u8]) -> Option<u32>
    requires { track < length (digits_in (header_view header.now)) }
    ensures { result ≡ one_digit_of (slice_index_or (digits_in (header_view header.now)) track (Below 0)) part.now }
{
    match header {
        FileHeader::Truth(_) => None,
        FileHeader::Systems(systems) => digit_below(systems[track].digit_limit(), part),
        FileHeader::Sets(sets) => place_of(&sets.as_slice()[track], part),
    }
}

// A number below the limit.
fn digit_below(limit: u64, part: &[u8]) -> Option<u32>
    requires { limit ≤ 2 ^ 32 }
    ensures { result ≡ number_below_of limit part.now }
{
    let digit = number_below(limit, part)?;
    Some(digit as u32)
}

// The place of a member of the set.
fn place_of(set: &LetterSet, part: &[u8]) -> Option<u32>
    ensures { result ≡ option_and_then (place_in set.now) (integer_of part.now) }
{
    let member = integer(part)?;
    place_of_member(set, member)
}

fn place_of_member(set: &LetterSet, member: i32) -> Option<u32>
    ensures { result ≡ place_in set.now member }
{
    let _members = set.members();
    set.place_of(member)
}

// At least one target.
fn targets(alloc: Global, text: &[u8]) -> Result<Option<Vec<u32>>, OutOfMemory>
    ensures { IfOk result (λ targets. option_map (λ v. v.items) targets ≡ targets_of (parts_of text.now)) }
{
    let mut targets = Vec::new(alloc);
    let mut rest = text;
    'targets: while let Some((part, after)) = next_part(rest) {
        let Some(target) = state_number(part) else {
            return Ok(None);
        };
        targets.push(target)?;
        rest = after;
    }
    if targets.is_empty() {
        return Ok(None);
    }
    Ok(Some(targets))
}
