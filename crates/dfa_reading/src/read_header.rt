//! Headers read from a file.

ghost use Rattle.std.specs.Prelude.{◌≡◌, [], IfOk, is_some, option_map, slice_index};
ghost use Rattle.std.specs.List.{list_all};
ghost use Rattle.std.specs.List.Sorted.{IsStrictlySortedBy};
ghost use Rattle.std.specs.Ordering.{int_cmp};
ghost use Rattle.text_grammar.specs.Bytes.{is_blank as is_blank_byte};
ghost use Rattle.dfa_reading.specs.Headers.{with_members, member_of, members_of, numbers_of, open_set_of, sets_of, truth_of, header_of};
ghost use Rattle.dfa_reading.specs.Systems.{systems_of, directs_as, of_one_direction};
ghost use Rattle.dfa_reading.specs.HeaderViews.{header_view};

use crate::header::FileHeader;
use crate::read_lines::{cut_at, next_part};
use crate::read_numbers::integer;
use crate::system_name::{SystemName, system};
use digit_tuple::faults::OutOfMemory;
use digit_tuple::letter_set::LetterSet;
use digit_tuple::sets::Sets;
use std::alloc::Global;
use std::collections::BTreeSet;
use text_grammar::{Class, is_system, prefix_len};

/// The header that a line is: `true` or `false` alone, systems of one direction, or sets.
#[tactic(auto, unfolding(crate::specs::Headers::header_of))]
pub fn header(alloc: Global, line: &[u8]) -> Result<Option<FileHeader>, OutOfMemory>
    ensures { IfOk result (λ header. option_map header_view header ≡ header_of line.now) }
{
    if let Some(value) = truth(line) {
        return Ok(Some(FileHeader::Truth(value)));
    }
    if let Some(systems) = systems(alloc, line)? {
        return Ok(Some(FileHeader::Systems(systems)));
    }
    Ok(sets(alloc, line)?.map(FileHeader::Sets))
}

// `true` or `false` alone.
#[tactic(auto, unfolding(crate::specs::Headers::truth_of))]
fn truth(line: &[u8]) -> Option<bool>
    ensures { result ≡ truth_of line.now }
{
    let (part, rest) = next_part(line)?;
    if next_part(rest).is_some() {
        return None;
    }
    if part == b"true".as_slice() {
        Some(true)
    } else if part == b"false".as_slice() {
        Some(false)
    } else {
        None
    }
}

// Systems of one direction.
#[tactic(auto, unfolding(crate::specs::Systems::systems_of))]
fn systems(alloc: Global, line: &[u8]) -> Result<Option<Vec<SystemName>>, OutOfMemory>
    ensures { IfOk result (λ systems. option_map (λ v. v.items) systems ≡ systems_of line.now) }
{
    let mut systems = Vec::new(alloc);
    let mut rest = line;
    'parts: while let Some((part, after)) = next_part(rest) {
        if !is_system(part) {
            return Ok(None);
        }
        systems.push(system(alloc, part)?)?;
        rest = after;
    }
    Ok(if direct_alike(&systems) {
        Some(systems)
    } else {
        None
    })
}

// Whether there is a system, and all are of one direction.
fn direct_alike(systems: &[SystemName]) -> bool
    ensures { result ≡ is_some (of_one_direction systems.now) }
{
    match systems {
        [first, others @ ..] => all_direct_as(first, others),
        [] => false,
    }
}

// Whether the others are of the direction of the first.
fn all_direct_as(first: &SystemName, others: &[SystemName]) -> bool
    ensures { result ≡ list_all (directs_as first.now) others.now }
{
    others
        .iter()
        .all(|other| first_byte(other) == first_byte(first))
}

// The first byte of a system's name, which determines its direction.
fn first_byte(system: &SystemName) -> u8
    ensures { result ≡ slice_index system.now 0 }
{
    match system.name().as_bytes() {
        [first, ..] => *first,
        [] => 0,
    }
}

// The sets of a line.
#[tactic(auto, unfolding(crate::specs::Headers::sets_of))]
fn sets(alloc: Global, line: &[u8]) -> Result<Option<Sets>, OutOfMemory>
    ensures { IfOk result (λ sets. sets ≡ sets_of line.now) }
{
    let mut sets = Sets::new(alloc);
    let mut rest = line;
    'sets: loop {
        let (piece, after) = cut_at(b'}', rest);
        match after {
            None => return Ok(if is_blank(piece) { Some(sets) } else { None }),
            Some(next) => {
                match open_set(alloc, piece)? {
                    None => return Ok(None),
                    Some(set) => sets.push(set)?,
                }
                rest = next;
            }
        }
    }
}

// Blanks, the opening brace, and members.
fn open_set(alloc: Global, bytes: &[u8]) -> Result<Option<LetterSet>, OutOfMemory>
    ensures { IfOk result (λ set. set ≡ open_set_of bytes.now) }
{
    let begun = &bytes[prefix_len(Class::Blank, bytes)..];
    if begun.is_empty() || begun[0] != b'{' {
        return Ok(None);
    }
    members(alloc, &begun[1..])
}

// The set of the members between commas, each mentioned once. A set of 2^32 members, each number of 32 bits, is answered by
// out of memory.
#[tactic(auto, unfolding(crate::specs::Headers::members_of))]
fn members(alloc: Global, bytes: &[u8]) -> Result<Option<LetterSet>, OutOfMemory>
    ensures { IfOk result (λ set. set ≡ members_of bytes.now) }
{
    let Some(numbers) = numbers(alloc, bytes)? else {
        return Ok(None);
    };
    match set_of(alloc, &numbers)? {
        None => Ok(None),
        Some(set) => Ok(Some(letter_set(alloc, set)?)),
    }
}

// The members between commas.
fn numbers(alloc: Global, bytes: &[u8]) -> Result<Option<Vec<i32>>, OutOfMemory>
    ensures { IfOk result (λ numbers. option_map (λ v. v.items) numbers ≡ numbers_of bytes.now) }
{
    let mut numbers = Vec::new(alloc);
    let mut rest = bytes;
    'numbers: loop {
        let (piece, after) = cut_at(b',', rest);
        match member(piece) {
            None => return Ok(None),
            Some(number) => numbers.push(number)?,
        }
        match after {
            None => return Ok(Some(numbers)),
            Some(next) => rest = next,
        }
    }
}

// The number that is all of the bytes but blanks.
#[tactic(auto, unfolding(crate::specs::Headers::member_of))]
fn member(bytes: &[u8]) -> Option<i32>
    ensures { result ≡ member_of bytes.now }
{
    let (part, rest) = next_part(bytes)?;
    match next_part(rest) {
        None => integer(part),
        Some(_) => None,
    }
}

// The numbers, if each is there once.
fn set_of(alloc: Global, numbers: &[i32]) -> Result<Option<BTreeSet<i32>>, OutOfMemory>
    ensures { IfOk result (λ set. option_map (λ s. s.keys) set ≡ with_members [] numbers.now) }
{
    let mut set = BTreeSet::new(alloc);
    for number in numbers {
        if !set.insert(*number)? {
            return Ok(None);
        }
    }
    Ok(Some(set))
}

// The members in ascending order.
fn letter_set(alloc: Global, set: BTreeSet<i32>) -> Result<LetterSet, OutOfMemory>
    ensures { IfOk result (λ made. made ≡ set.keys) }
{
    let members = ascending(alloc, set)?;
    if members.len() > u32::MAX as usize {
        return Err(OutOfMemory);
    }
    Ok(LetterSet::new(members))
}

fn ascending(alloc: Global, set: BTreeSet<i32>) -> Result<Vec<i32>, OutOfMemory>
    ensures members { IfOk result (λ members. members.items ≡ set.keys) }
    ensures sorted { IfOk result (λ members. IsStrictlySortedBy int_cmp members.items) }
{
    Ok(set.iter().copied().collect(alloc)?)
}

// Whether all bytes are blanks.
fn is_blank(bytes: &[u8]) -> bool
    ensures { result ≡ list_all is_blank_byte bytes.now }
{
    bytes.iter().all(|byte| Class::Blank.contains(*byte))
}
