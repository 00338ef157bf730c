//! The set of a transducer's letters.

ghost use Rattle.std.specs.Prelude.{◌≡◌, [], IfOk, option_map};
ghost use Rattle.std.specs.List.{list_all};
ghost use Rattle.std.specs.List.Sorted.{IsStrictlySortedBy};
ghost use Rattle.std.specs.Ordering.{int_cmp};
ghost use Rattle.text_grammar.specs.Bytes.{is_blank as is_blank_byte};
ghost use Rattle.dfa_reading.specs.Headers.{with_members, member_of, members_of, numbers_of, open_set_of};
ghost use Rattle.transducer_reading.specs.Entries.{set_of as set_of_line};

use crate::read_lines::{cut_at, only_part};
use crate::read_numbers::integer;
use digit_tuple::faults::OutOfMemory;
use digit_tuple::letter_set::LetterSet;
use std::alloc::Global;
use std::collections::BTreeSet;
use text_grammar::{Class, prefix_len};

/// The set that a line has, if it has one set and nothing else.
pub fn read_set(alloc: Global, line: &[u8]) -> Result<Option<LetterSet>, OutOfMemory>
    ensures { IfOk result (λ set. set ≡ set_of_line line.now) }
{
    let (piece, rest) = cut_at(b'}', line);
    match rest {
        None => Ok(None),
        Some(rest) => {
            if is_blank(rest) {
                open_set(alloc, piece)
            } else {
                Ok(None)
            }
        }
    }
}

// Whether all bytes are blanks.
fn is_blank(bytes: &[u8]) -> bool
    ensures { result ≡ list_all is_blank_byte bytes.now }
{
    bytes.iter().all(|byte| Class::Blank.contains(*byte))
}

// Blanks, the opening brace, and members.
fn open_set(alloc: Global, bytes: &[u8]) -> Result<Option<LetterSet>, OutOfMemory>
    ensures { IfOk result (λ set. set ≡ open_set_of bytes.now) }
{
    let begun = &bytes[prefix_len(Class::Blank, bytes)..];
    if begun.is_empty() || begun[0] != b'{' {
        return Ok(None);
    }
    members(alloc, &begun[1..])
}

// The set of the members between commas, each mentioned once. A set of 2^32 members, each number of 32 bits, is answered by
// out of memory.
#[tactic(auto, unfolding(dfa_reading::specs::Headers::members_of))]
fn members(alloc: Global, bytes: &[u8]) -> Result<Option<LetterSet>, OutOfMemory>
    ensures { IfOk result (λ set. set ≡ members_of bytes.now) }
{
    let Some(numbers) = numbers(alloc, bytes)? else {
        return Ok(None);
    };
    match set_of(alloc, &numbers)? {
        None => Ok(None),
        Some(set) => Ok(Some(letter_set(alloc, set)?)),
    }
}

// The members between commas.
fn numbers(alloc: Global, bytes: &[u8]) -> Result<Option<Vec<i32>>, OutOfMemory>
    ensures { IfOk result (λ numbers. option_map (λ v. v.items) numbers ≡ numbers_of bytes.now) }
{
    let mut numbers = Vec::new(alloc);
    let mut rest = bytes;
    'numbers: loop {
        let (piece, after) = cut_at(b',', rest);
        match member(piece) {
            None => return Ok(None),
            Some(number) => numbers.push(number)?,
        }
        match after {
            None => return Ok(Some(numbers)),
            Some(next) => rest = next,
        }
    }
}

// The number that is all of the bytes but blanks.
#[tactic(auto, unfolding(dfa_reading::specs::Headers::member_of))]
fn member(bytes: &[u8]) -> Option<i32>
    ensures { result ≡ member_of bytes.now }
{
    integer(only_part(bytes)?)
}

// The numbers, if each is there once.
fn set_of(alloc: Global, numbers: &[i32]) -> Result<Option<BTreeSet<i32>>, OutOfMemory>
    ensures { IfOk result (λ set. option_map (λ s. s.keys) set ≡ with_members [] numbers.now) }
{
    let mut set = BTreeSet::new(alloc);
    for number in numbers {
        if !set.insert(*number)? {
            return Ok(None);
        }
    }
    Ok(Some(set))
}

// The members in ascending order.
fn letter_set(alloc: Global, set: BTreeSet<i32>) -> Result<LetterSet, OutOfMemory>
    ensures { IfOk result (λ made. made ≡ set.keys) }
{
    let members = ascending(alloc, set)?;
    if members.len() > u32::MAX as usize {
        return Err(OutOfMemory);
    }
    Ok(LetterSet::new(members))
}

fn ascending(alloc: Global, set: BTreeSet<i32>) -> Result<Vec<i32>, OutOfMemory>
    ensures members { IfOk result (λ members. members.items ≡ set.keys) }
    ensures sorted { IfOk result (λ members. IsStrictlySortedBy int_cmp members.items) }
{
    Ok(set.iter().copied().collect(alloc)?)
}
