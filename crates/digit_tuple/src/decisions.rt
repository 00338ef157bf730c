//! Rows of transitions as decisions by tracks.

ghost use Rattle.std.specs.Prelude.{◌≡◌, ◌≢◌, ℕ, ◌+◌, ◌*◌, ◌<◌, ◌≤◌, ◌↔◌, ◌^◌, ◌++◌, ◌∷◌, [], List, length, map, Some, IfOk, OnOk, IfSome, IfNone, IsTrue, slice_index, slice_index_or, sum_by, take, drop};
ghost use Rattle.digit_tuple.specs.Decisions.{rows_in, sizes_in, cells_in, joined_rows, only_transition, IsFrom, IsSound, IsTrack, LeadsAs, ahead, after_digit, letters_in};
ghost use Rattle.std.specs.List.{All, AllPairs, AllByRecursion};
ghost use Rattle.digit_tuple.specs.Deterministic.{IsByEarlier, target_by};
ghost use Rattle.digit_tuple.specs.Letters.{product};

use crate::faults::OutOfMemory;
use crate::number_lists::NumberLists;
use crate::transitions::Transition;
use std::alloc::Global;

// For how many rows there is memory at first, so that a small table seldom asks for more.
const FIRST_ROWS: usize = 32;

/// Rows of transitions over some tracks. A row on no track is one transition, of which the target is kept. A row on
/// some tracks is a list of digits on the first, and after each digit a row on the others.
#[derive(Drop)]
pub(crate) enum Decisions {
    Targets(Vec<u32>),
    OnTrack(Track, Box<Decisions>),
}

/// A track: how many digits it has, how many letters the later tracks have, and the digits of each row. The rows after
/// these digits are in the order of the digits.
#[derive(Drop)]
pub(crate) struct Track {
    pub(crate) size: u32,
    pub(crate) weight: u32,
    pub(crate) digits: NumberLists,
}

impl Decisions {
    /// Adds a row of the transitions, each letter with the base taken from it. On no track there is one transition.
    /// What a refused call leaves is of no use.
    #[cycle(row)]
    pub(crate) fn add_row(
        &mut self,
        base: u32,
        transitions: &[Transition],
    ) -> Result<(), OutOfMemory>
        requires sound { IsSound self.old }
        requires some { 0 < length (sizes_in self.old) + length transitions.now }
        requires letters { All (IsFrom base (product (sizes_in self.old))) transitions.now }
        requires ascending { AllPairs IsByEarlier transitions.now }
        requires narrow { base + product (sizes_in self.old) ≤ 2 ^ 16 }
        ensures sound { OnOk result (IsSound self.new) }
        ensures sizes { OnOk result (sizes_in self.new ≡ sizes_in self.old) }
        ensures rows { OnOk result (rows_in self.new ≡ rows_in self.old ++ map (ahead base) transitions.now ∷ []) }
    {
        match self {
            Decisions::Targets(targets) => {
                targets.push(transitions[0].target)?;
                Ok(())
            }
            Decisions::OnTrack(track, below) => track.add_row(below, base, transitions),
        }
    }

    /// No rows, on tracks of these sizes, which have so many letters.
    pub(crate) fn bare(alloc: Global, sizes: &[u32], letters: u32) -> Result<Self, OutOfMemory>
        requires letters { product sizes.now ≡ letters }
        requires some { 0 < letters }
        ensures sound { IfOk result IsSound }
        ensures sizes { IfOk result (λ rows. sizes_in rows ≡ sizes.now) }
        ensures rows { IfOk result (λ rows. rows_in rows ≡ []) }
    {
        match sizes.first() {
            None => Ok(Decisions::Targets(Vec::with_capacity(alloc, FIRST_ROWS)?)),
            Some(size) => {
                let weight = letters / *size;
                let below = Decisions::bare(alloc, &sizes[1..], weight)?;
                let track = Track {
                    size: *size,
                    weight,
                    digits: NumberLists::with_capacity(alloc, FIRST_ROWS)?,
                };
                Ok(Decisions::OnTrack(track, Box::new(alloc, below)?))
            }
        }
    }

    /// No rows, on one track of this size.
    pub(crate) fn on_one_track(alloc: Global, size: u32) -> Result<Self, OutOfMemory>
        ensures sound { IfOk result IsSound }
        ensures sizes { IfOk result (λ rows. sizes_in rows ≡ size ∷ []) }
        ensures rows { IfOk result (λ rows. rows_in rows ≡ []) }
    {
        let track = Track {
            size,
            weight: 1,
            digits: NumberLists::with_capacity(alloc, FIRST_ROWS)?,
        };
        let targets = Decisions::Targets(Vec::with_capacity(alloc, FIRST_ROWS)?);
        Ok(Decisions::OnTrack(track, Box::new(alloc, targets)?))
    }

    /// Writes the transitions of a row at the end of others, each letter with so much added.
    pub(crate) fn row_into(
        &self,
        place: usize,
        base: u32,
        row: &mut Vec<Transition>,
    ) -> Result<(), OutOfMemory>
        requires sound { IsSound self.now }
        requires place { place < length (rows_in self.now) }
        requires base { base + product (sizes_in self.now) < 2 ^ 32 }
        ensures { OnOk result (row.new.items ≡ row.old.items ++ map (after_digit base) (slice_index_or (rows_in self.now) place [])) }
    {
        match self {
            Decisions::Targets(targets) => {
                row.push(Transition {
                    letter: base,
                    target: targets[place],
                })?;
                Ok(())
            }
            Decisions::OnTrack(track, below) => {
                if let Some(targets) = below.targets() {
                    return track.last_row_into(place, base, targets, row);
                }
                let start = track.digits.start(place);
                for (count, digit) in track.digits.list(place).iter().enumerate() {
                    let more = base + u32::from(*digit) * track.weight;
                    below.row_into(start + count, more, row)?;
                }
                Ok(())
            }
        }
    }

    /// Where the letter leads from a row, unless it leads nowhere.
    pub(crate) fn step(&self, place: usize, letter: u32) -> Option<u32>
        requires sound { IsSound self.now }
        requires place { place < length (rows_in self.now) }
        ensures { result ≡ target_by (slice_index_or (rows_in self.now) place []) letter }
    {
        match self {
            Decisions::Targets(targets) => {
                if letter == 0 {
                    Some(targets[place])
                } else {
                    None
                }
            }
            Decisions::OnTrack(track, below) => {
                let digits = track.digits.list(place);
                if digits.is_empty() {
                    return None;
                }
                match index_of(digits, letter / track.weight) {
                    Some(count) => {
                        below.step(track.digits.start(place) + count, letter % track.weight)
                    }
                    None => None,
                }
            }
        }
    }

    /// Whether a row of the other decisions leads as each transition of a row does, the letter of the transition with
    /// so much added.
    pub(crate) fn is_within(&self, place: usize, base: u32, other: &Decisions, at: usize) -> bool
        requires sound { IsSound self.now }
        requires place { place < length (rows_in self.now) }
        requires base { base + product (sizes_in self.now) < 2 ^ 32 }
        requires other_sound { IsSound other.now }
        requires at { at < length (rows_in other.now) }
        ensures { IsTrue result ↔ AllByRecursion (LeadsAs (slice_index_or (rows_in other.now) at [])) (map (after_digit base) (slice_index_or (rows_in self.now) place [])) }
    {
        match self {
            Decisions::Targets(targets) => leads(other, at, base, targets[place]),
            Decisions::OnTrack(track, below) => {
                let start = track.digits.start(place);
                for (count, digit) in track.digits.list(place).iter().enumerate() {
                    let more = base + u32::from(*digit) * track.weight;
                    if !below.is_within(start + count, more, other, at) {
                        return false;
                    }
                }
                true
            }
        }
    }

    /// Whether a row has no transition.
    pub(crate) fn is_bare(&self, place: usize) -> bool
        requires sound { IsSound self.now }
        requires place { place < length (rows_in self.now) }
        ensures { IsTrue result ↔ (slice_index_or (rows_in self.now) place [] ≡ []) }
    {
        match self {
            Decisions::Targets(_) => false,
            Decisions::OnTrack(track, _) => track.digits.list(place).is_empty(),
        }
    }

    /// How many rows there are.
    pub(crate) fn len(&self) -> usize
        ensures { result ≡ length (rows_in self.now) }
    {
        match self {
            Decisions::Targets(targets) => targets.len(),
            Decisions::OnTrack(track, _) => track.digits.len(),
        }
    }

    /// How many transitions there are in all rows.
    pub(crate) fn transitions(&self) -> u64
        requires { IsSound self.now }
        ensures { result ≡ sum_by length (rows_in self.now) }
    {
        match self {
            Decisions::Targets(targets) => targets.len() as u64,
            Decisions::OnTrack(_, below) => below.transitions(),
        }
    }

    /// How many digits are kept on all tracks.
    pub(crate) fn cells(&self) -> u64
        requires { cells_in self.now < 2 ^ 64 }
        ensures { result ≡ cells_in self.now }
    {
        match self {
            Decisions::Targets(_) => 0,
            Decisions::OnTrack(track, below) => track.digits.count() as u64 + below.cells(),
        }
    }

    /// Gives back memory that is not in use.
    pub(crate) fn shrink_to_fit(&mut self)
        requires { IsSound self.old }
        ensures sound { IsSound self.new }
        ensures sizes { sizes_in self.new ≡ sizes_in self.old }
        ensures rows { rows_in self.new ≡ rows_in self.old }
    {
        match self {
            Decisions::Targets(targets) => targets.shrink_to_fit(),
            Decisions::OnTrack(track, below) => {
                track.digits.shrink_to_fit();
                below.shrink_to_fit();
            }
        }
    }

    // The targets of rows on no track.
    fn targets(&self) -> Option<&[u32]>
        ensures targets { IfSome result (λ targets. (rows_in self.now ≡ map only_transition targets.now) × (sizes_in self.now ≡ [])) }
        ensures tracks { IfNone result (0 < length (sizes_in self.now)) }
    {
        match self {
            Decisions::Targets(targets) => Some(targets),
            Decisions::OnTrack(_, _) => None,
        }
    }

    /// The digits of each row, where there is one track: the letters of its transitions.
    pub(crate) fn only_digits(&self) -> Option<&NumberLists>
        requires { IsSound self.now }
        ensures one { IfSome result (λ digits. (length (sizes_in self.now) ≡ 1) × (digits.now ≡ map letters_in (rows_in self.now))) }
        ensures other { IfNone result (length (sizes_in self.now) ≢ 1) }
    {
        match self {
            Decisions::Targets(_) => None,
            Decisions::OnTrack(track, below) => match below.targets() {
                Some(_) => Some(&track.digits),
                None => None,
            },
        }
    }

    /// The same rows, in memory of their own.
    pub(crate) fn copy(&self, alloc: Global) -> Result<Self, OutOfMemory>
        requires { IsSound self.now }
        ensures sound { IfOk result IsSound }
        ensures sizes { IfOk result (λ rows. sizes_in rows ≡ sizes_in self.now) }
        ensures rows { IfOk result (λ rows. rows_in rows ≡ rows_in self.now) }
    {
        match self {
            Decisions::Targets(targets) => {
                Ok(Decisions::Targets(Vec::from_slice(alloc, targets)?))
            }
            Decisions::OnTrack(track, below) => {
                let below = below.copy(alloc)?;
                let track = Track {
                    size: track.size,
                    weight: track.weight,
                    digits: track.digits.copy(alloc)?,
                };
                Ok(Decisions::OnTrack(track, Box::new(alloc, below)?))
            }
        }
    }
}

impl Track {
    // Adds a row of the transitions, each letter with the base taken from it: a digit for each run of transitions that
    // have it, and after it the row of the run. What a refused call leaves is of no use.
    #[cycle(row)]
    fn add_row(
        &mut self,
        below: &mut Decisions,
        base: u32,
        transitions: &[Transition],
    ) -> Result<(), OutOfMemory>
        requires track { IsTrack self.old (product (sizes_in below.old)) (rows_in below.old) }
        requires below { IsSound below.old }
        requires letters { All (IsFrom base (self.old.size * self.old.weight)) transitions.now }
        requires ascending { AllPairs IsByEarlier transitions.now }
        requires narrow { base + self.old.size * self.old.weight ≤ 2 ^ 16 }
        ensures track { OnOk result (IsTrack self.new (product (sizes_in below.new)) (rows_in below.new)) }
        ensures below { OnOk result (IsSound below.new) }
        ensures size { OnOk result (self.new.size ≡ self.old.size) }
        ensures sizes { OnOk result (sizes_in below.new ≡ sizes_in below.old) }
        ensures rows { OnOk result (joined_rows self.new.weight self.new.digits (rows_in below.new) ≡ joined_rows self.old.weight self.old.digits (rows_in below.old) ++ map (ahead base) transitions.now ∷ []) }
    {
        if let Decisions::Targets(targets) = below {
            return self.add_last_row(targets, base, transitions);
        }
        self.digits.begin()?;
        let mut start = 0;
        while start < transitions.len() {
            let rest = &transitions[start..];
            let digit = (rest[0].letter - base) / self.weight;
            let low = base + digit * self.weight;
            let count = run_length(rest, low + self.weight);
            self.digits.add(digit)?;
            below.add_row(low, &rest[..count])?;
            start += count;
        }
        Ok(())
    }

    // Adds a row of the transitions, each letter with the base taken from it, where no track is later: after each digit
    // is a target. What a refused call leaves is of no use.
    fn add_last_row(
        &mut self,
        targets: &mut Vec<u32>,
        base: u32,
        transitions: &[Transition],
    ) -> Result<(), OutOfMemory>
        requires track { IsTrack self.old 1 (map only_transition targets.old.items) }
        requires letters { All (IsFrom base self.old.size) transitions.now }
        requires ascending { AllPairs IsByEarlier transitions.now }
        requires narrow { base + self.old.size ≤ 2 ^ 16 }
        ensures track { OnOk result (IsTrack self.new 1 (map only_transition targets.new.items)) }
        ensures size { OnOk result (self.new.size ≡ self.old.size) }
        ensures rows { OnOk result (joined_rows self.new.weight self.new.digits (map only_transition targets.new.items) ≡ joined_rows self.old.weight self.old.digits (map only_transition targets.old.items) ++ map (ahead base) transitions.now ∷ []) }
    {
        self.digits.begin()?;
        for transition in transitions {
            self.digits.add(transition.letter - base)?;
            targets.push(transition.target)?;
        }
        Ok(())
    }

    // Writes the transitions of a row at the end of others, where no track is later: after each digit is a target.
    fn last_row_into(
        &self,
        place: usize,
        base: u32,
        targets: &[u32],
        row: &mut Vec<Transition>,
    ) -> Result<(), OutOfMemory>
        requires track { IsTrack self.now self.now.weight (map only_transition targets.now) }
        requires place { place < length self.now.digits }
        requires base { base + self.now.size * self.now.weight < 2 ^ 32 }
        ensures { OnOk result (row.new.items ≡ row.old.items ++ map (after_digit base) (slice_index_or (joined_rows self.now.weight self.now.digits (map only_transition targets.now)) place [])) }
    {
        let start = self.digits.start(place);
        for (count, digit) in self.digits.list(place).iter().enumerate() {
            row.push(Transition {
                letter: base + u32::from(*digit) * self.weight,
                target: targets[start + count],
            })?;
        }
        Ok(())
    }
}

// How many of the first transitions are by letters below the bound.
fn run_length(transitions: &[Transition], bound: u32) -> usize
    requires { AllPairs IsByEarlier transitions.now }
    ensures within { result ≤ length transitions.now }
    ensures below { All (λ transition. transition.letter < bound) (take result transitions.now) }
    ensures later { All (λ transition. bound ≤ transition.letter) (drop result transitions.now) }
{
    for place in 0..transitions.len() {
        if transitions[place].letter >= bound {
            return place;
        }
    }
    transitions.len()
}

// The index of a digit among ascending ones, if it is one of them.
fn index_of(digits: &[u16], digit: u32) -> Option<usize>
    requires { AllPairs (λ d e. d < e) digits.now }
    ensures found { IfSome result (λ index. (index < length digits.now) × (slice_index digits.now index ≡ digit)) }
    ensures none { IfNone result (All (λ d. d ≢ digit) digits.now) }
{
    if digit > u32::from(u16::MAX) {
        return None;
    }
    match digits.binary_search(&(digit as u16)) {
        Ok(index) => Some(index),
        Err(_) => None,
    }
}

// Whether a row leads by the letter to the target.
fn leads(decisions: &Decisions, place: usize, letter: u32, target: u32) -> bool
    requires sound { IsSound decisions.now }
    requires place { place < length (rows_in decisions.now) }
    ensures { IsTrue result ↔ (target_by (slice_index_or (rows_in decisions.now) place []) letter ≡ Some target) }
{
    match decisions.step(place, letter) {
        Some(next) => next == target,
        None => false,
    }
}
