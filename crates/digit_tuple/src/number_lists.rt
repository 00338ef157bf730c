//! Lists of numbers in one buffer, of which the last one grows.

ghost use Rattle.std.specs.Prelude.{◌≡◌, ℕ, ◌+◌, ◌^◌, ◌<◌, ◌≤◌, ◌↔◌, ◌++◌, ◌∷◌, [], List, length, take, sum_by, slice_index_or, slice_range, drop, Some, IsTrue, IfOk, OnOk};
ghost use Rattle.digit_tuple.specs.NumberLists.{AreStarts, lists_at, extended, first_place};

use crate::faults::OutOfMemory;
use crate::starts::Starts;
use std::alloc::Global;
use std::marker::Model;

/// Lists of numbers below 65,536, which are one after another in one buffer of 2 bytes a number, each with its start of
/// 4 bytes. The first lists, as far as they are all the same, are there once and have no start: nearly all rows of a
/// large automaton have all digits, so nearly all of its lists take no place.
#[derive(Drop)]
pub(crate) struct NumberLists {
    // The first so many lists are all the first numbers, up to the width.
    same: usize,
    width: usize,
    // Where the other lists begin, after those numbers.
    starts: Starts,
    numbers: Vec<u16>,
}

impl Model for NumberLists {
    ghost use Rattle.std.specs.Prelude.{ℕ, List};
    ghost use Rattle.digit_tuple.specs.NumberLists.{lists_of, AreLists};

    ghost Value = { List (List ℕ) };

    ghost view = { λ l. lists_of l.same l.width l.starts l.numbers.items };

    ghost invariant = { λ l. AreLists l.same l.width l.starts l.numbers.items };
}

impl NumberLists {
    /// No lists, and memory for so many lists of one number.
    pub(crate) fn with_capacity(alloc: Global, capacity: usize) -> Result<Self, OutOfMemory>
        ensures { IfOk result (λ lists. lists ≡ []) }
    {
        Ok(NumberLists {
            same: 0,
            width: 0,
            starts: Starts::with_capacity(alloc, capacity)?,
            numbers: Vec::with_capacity(alloc, capacity)?,
        })
    }

    /// How many lists there are.
    pub(crate) fn len(&self) -> usize
        ensures { result ≡ length self.now }
    {
        self.same + self.starts.len()
    }

    /// How many numbers there are in all lists.
    pub(crate) fn count(&self) -> usize
        ensures { result ≡ sum_by length self.now }
    {
        self.same * self.width + (self.numbers.len() - self.width)
    }

    /// How many numbers there are in the lists before one.
    pub(crate) fn start(&self, place: usize) -> usize
        requires { place < length self.now }
        ensures value { result ≡ sum_by length (take place self.now) }
        ensures fits { result + length (slice_index_or self.now place []) < 2 ^ 64 }
    {
        if place < self.same {
            place * self.width
        } else {
            self.same * self.width + self.starts.get(place - self.same)
        }
    }

    /// The list at a place.
    pub(crate) fn list(&self, place: usize) -> &[u16]
        requires { place < length self.now }
        ensures { result.now ≡ slice_index_or self.now place [] }
    {
        if place < self.same {
            &self.numbers[..self.width]
        } else {
            list_at(&self.starts, &self.numbers[self.width..], place - self.same)
        }
    }

    /// Adds an empty list. At most the numbers of the first list are compared with those of the last one. OutOfMemory
    /// comes too where there are 2^64 - 1 lists.
    pub(crate) fn begin(&mut self) -> Result<(), OutOfMemory>
        ensures { OnOk result (self.new ≡ self.old ++ [] ∷ []) }
    {
        if self.len() == usize::MAX {
            return Err(OutOfMemory);
        }
        // The only list with a start of its own is counted if it is the first or the same: the new one has its start.
        if self.starts.len() == 1 && self.same == 0 {
            self.width = self.numbers.len();
            self.same = 1;
            return Ok(());
        }
        if self.starts.len() == 1 && are_twice(&self.numbers, self.width) {
            self.numbers.truncate(self.width);
            self.same += 1;
            return Ok(());
        }
        self.starts.push(self.numbers.len() - self.width)?;
        Ok(())
    }

    /// Adds a number at the end of the last list. OutOfMemory comes too where the lists have 2^64 - 1 numbers.
    pub(crate) fn add(&mut self, number: u32) -> Result<(), OutOfMemory>
        requires some { 0 < length self.old }
        requires narrow { number < 2 ^ 16 }
        ensures { OnOk result (self.new ≡ extended self.old (number ∷ [])) }
    {
        if self.count() == usize::MAX {
            return Err(OutOfMemory);
        }
        self.numbers.push(number as u16)?;
        Ok(())
    }

    /// Gives back memory that is not in use.
    pub(crate) fn shrink_to_fit(&mut self)
        ensures { self.new ≡ self.old }
    {
        self.starts.shrink_to_fit();
        self.numbers.shrink_to_fit();
    }

    /// The same lists, in memory of their own.
    pub(crate) fn copy(&self, alloc: Global) -> Result<Self, OutOfMemory>
        ensures { IfOk result (λ lists. lists ≡ self.now) }
    {
        Ok(NumberLists {
            same: self.same,
            width: self.width,
            starts: self.starts.copy(alloc)?,
            numbers: Vec::from_slice(alloc, &self.numbers)?,
        })
    }
}

// The list at a place of those that begin at the starts.
fn list_at<'a>(starts: &Starts, numbers: &'a [u16], place: usize) -> &'a [u16]
    requires starts { AreStarts starts.now (length numbers.now) }
    requires place { place < length starts.now }
    ensures { result.now ≡ slice_index_or (lists_at starts.now numbers.now) place [] }
{
    let start = starts.get(place);
    let end = end_of(starts, place, numbers.len());
    part(numbers, start, end)
}

// Where the list that begins at a place of the starts ends.
fn end_of(starts: &Starts, place: usize, end: usize) -> usize
    requires { place < length starts.now }
    ensures { result ≡ first_place (drop (place + 1) starts.now) end }
{
    let count = starts.len();
    if place + 1 < count {
        starts.get(place + 1)
    } else {
        end
    }
}

// The numbers from one place up to another.
fn part(numbers: &[u16], start: usize, end: usize) -> &[u16]
    requires order { start ≤ end }
    requires within { end ≤ length numbers.now }
    ensures { result.now ≡ slice_range numbers.now start end }
{
    &numbers[start..end]
}

// Whether the numbers after the width are those up to it.
fn are_twice(numbers: &[u16], width: usize) -> bool
    requires { width ≤ length numbers.now }
    ensures { IsTrue result ↔ (drop width numbers.now ≡ take width numbers.now) }
{
    numbers[width..] == numbers[..width]
}
