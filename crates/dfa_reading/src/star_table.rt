//! Targets of transitions, by their digits on the tracks on which a pattern has digits.

ghost use Rattle.std.specs.Prelude.{◌≡◌, [], None, slice_index_or, IfOk, OnOk};
ghost use Rattle.dfa_reading.specs.StarTables.{masked as masked_by, same_stars, targets_at, joined as joined_with, kept_digit, alike, differs_from, with_target, StarTable as Table};

use digit_tuple::faults::OutOfMemory;
use indexmap::IndexMap;
use std::alloc::Global;
use std::marker::Model;

/// The targets of some transitions, at least one.
#[derive(Clone, Copy)]
pub enum Targets {
    /// All lead to the state of this number.
    One(u32),
    /// They lead to two states at least.
    Several,
}

/// For digits on the tracks on which a pattern has a digit, with `*` on the others: the targets of the transitions that were
/// added with these. Of the pattern only the tracks with `*` count.
#[derive(Drop)]
pub struct StarTable {
    pattern: Vec<Option<u32>>,
    targets: IndexMap<Vec<Option<u32>>, Targets>,
}

impl Model for StarTable {
    ghost use Rattle.dfa_reading.specs.StarTables.{StarTable as Table, entries_in};

    ghost Value = { Table };

    ghost view = { λ t. record { pattern = t.pattern.items; entries = entries_in t.targets.entries } };
}

impl StarTable {
    /// No transitions.
    pub fn new(alloc: Global, pattern: Vec<Option<u32>>) -> Self
        ensures { result ≡ record { pattern = pattern.items; entries = [] } }
    {
        StarTable {
            pattern,
            targets: IndexMap::new(alloc),
        }
    }

    /// The pattern.
    pub fn pattern(&self) -> &[Option<u32>]
        ensures { result.now ≡ self.now.pattern }
    {
        &self.pattern
    }

    /// Whether a transition that was added with the digits leads to another target.
    pub fn differs(&self, digits: &[Option<u32>], target: u32) -> bool
        ensures { result ≡ differs_from (targets_at self.now.entries digits.now) target }
    {
        match self.targets.get(digits) {
            None => false,
            Some(Targets::One(only)) => *only != target,
            Some(Targets::Several) => true,
        }
    }

    /// Adds a transition with the digits.
    pub fn add(&mut self, digits: Vec<Option<u32>>, target: u32) -> Result<(), OutOfMemory>
        ensures { OnOk result (self.new ≡ with_target self.old digits.items target) }
    {
        let targets = joined(self.targets.get(digits.as_slice()).copied(), target);
        self.targets.insert(digits, targets)?;
        Ok(())
    }
}

// The targets with one more.
fn joined(targets: Option<Targets>, target: u32) -> Targets
    ensures { result ≡ joined_with targets target }
{
    match targets {
        None => Targets::One(target),
        Some(Targets::One(only)) => {
            if only == target {
                Targets::One(only)
            } else {
                Targets::Several
            }
        }
        Some(Targets::Several) => Targets::Several,
    }
}

// The digit, unless the pattern has `*`.
fn kept(digit: Option<u32>, pattern: Option<u32>) -> Option<u32>
    ensures { result ≡ kept_digit digit pattern }
{
    match pattern {
        None => None,
        Some(_) => digit,
    }
}

// Whether both are `*`, or neither is.
fn is_alike(digit: Option<u32>, pattern: Option<u32>) -> bool
    ensures { result ≡ alike digit pattern }
{
    match digit {
        None => pattern.is_none(),
        Some(_) => pattern.is_some(),
    }
}

// The digit of a track, or None past the last.
fn digit_at(digits: &[Option<u32>], track: usize) -> Option<u32>
    ensures { result ≡ slice_index_or digits.now track None }
{
    match digits.get(track) {
        None => None,
        Some(digit) => *digit,
    }
}

/// The digits on the tracks on which the pattern has one, and `*` on the others.
pub fn masked(
    alloc: Global,
    digits: &[Option<u32>],
    pattern: &[Option<u32>],
) -> Result<Vec<Option<u32>>, OutOfMemory>
    ensures { IfOk result (λ masked. masked.items ≡ masked_by digits.now pattern.now) }
{
    let mut masked = Vec::with_capacity(alloc, digits.len())?;
    for (track, digit) in digits.iter().enumerate() {
        masked.push(kept(*digit, digit_at(pattern, track)))?;
    }
    Ok(masked)
}

/// Whether `*` is on the same tracks of both.
pub fn has_stars(digits: &[Option<u32>], pattern: &[Option<u32>]) -> bool
    ensures { result ≡ same_stars digits.now pattern.now }
{
    if digits.len() != pattern.len() {
        return false;
    }
    for (track, digit) in digits.iter().enumerate() {
        if !is_alike(*digit, pattern[track]) {
            return false;
        }
    }
    true
}
