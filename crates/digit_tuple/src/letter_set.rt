//! Sets of numbers.

ghost use Rattle.std.specs.Prelude.{◌≡◌, ℕ, ℤ, pos, ◌<◌, ◌^◌, ◌↔◌, List, length, IfOk, IsSome, IfSome, slice_index_or, IsTrue, ◌==◌};
ghost use Rattle.std.specs.List.{Contains};
ghost use Rattle.digit_tuple.specs.Sets.{IsLetterSet};

use crate::faults::OutOfMemory;
use std::alloc::Global;
use std::marker::Model;

/// A set of numbers, seen as the list of its members in ascending order. It has fewer than 2^32.
#[derive(Drop)]
pub struct LetterSet {
    numbers: Vec<i32>,
}

impl Model for LetterSet {
    ghost use Rattle.std.specs.Prelude.{ℤ, List};
    ghost use Rattle.digit_tuple.specs.Sets.{IsLetterSet};

    ghost Value = { List ℤ };

    ghost view = { λ s. s.numbers.items };

    ghost invariant = { λ s. IsLetterSet s.numbers.items };
}

impl LetterSet {
    /// The set with these members, which are in ascending order.
    pub fn new(members: Vec<i32>) -> Self
        requires { IsLetterSet members.items }
        ensures { result ≡ members.items }
    {
        LetterSet { numbers: members }
    }

    /// The set with these members, if they are in ascending order and are fewer than 2^32.
    pub fn try_new(members: Vec<i32>) -> Option<Self>
        ensures fits { IsSome result ↔ IsLetterSet members.items }
        ensures value { IfSome result (λ set. set ≡ members.items) }
    {
        if is_letter_set(&members) {
            Some(LetterSet { numbers: members })
        } else {
            None
        }
    }

    /// The members, in ascending order.
    pub fn members(&self) -> &[i32]
        ensures members { result.now ≡ self.now }
        ensures set { IsLetterSet self.now }
    {
        &self.numbers
    }

    /// How many members there are.
    pub fn len(&self) -> u32
        ensures value { result ≡ length self.now }
        ensures set { IsLetterSet self.now }
    {
        self.numbers.len() as u32
    }

    /// Whether there is no member.
    pub fn is_empty(&self) -> bool
        ensures { result ≡ (length self.now == 0) }
    {
        self.numbers.is_empty()
    }

    /// The place of a member, counted from 0, or None if it is no member.
    pub fn place_of(&self, member: i32) -> Option<u32>
        ensures member { IsSome result ↔ Contains self.now member }
        ensures place { IfSome result (λ place. (place < length self.now) × (slice_index_or self.now place (pos 0) ≡ member)) }
    {
        match self.numbers.binary_search(&member) {
            Ok(place) => Some(place as u32),
            Err(_) => None,
        }
    }

    /// The same set, in memory of its own.
    pub fn copy(&self, alloc: Global) -> Result<Self, OutOfMemory>
        ensures { IfOk result (λ set. set ≡ self.now) }
    {
        Ok(LetterSet {
            numbers: Vec::from_slice(alloc, &self.numbers)?,
        })
    }
}

// Whether the numbers are the members of a set, in ascending order.
fn is_letter_set(numbers: &[i32]) -> bool
    ensures { IsTrue result ↔ IsLetterSet numbers.now }
{
    if numbers.len() > u32::MAX as usize {
        return false;
    }
    for place in 1..numbers.len() {
        if numbers[place - 1] >= numbers[place] {
            return false;
        }
    }
    true
}
