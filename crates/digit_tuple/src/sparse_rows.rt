//! Sparse rows: transitions by letters of tracks, of which only those that are there take a place.

ghost use Rattle.std.specs.Prelude.{◌≡◌, ℕ, ◌*◌, ◌%◌, ◌<◌, ◌≤◌, ◌^◌, ◌↔◌, ◌++◌, ◌∷◌, [], List, length, slice_index_or, sum_by, IfOk, OnErr, OnOk, IsTrue};
ghost use Rattle.std.specs.List.{All, AllByRecursion, AllPairs, flat_map};
ghost use Rattle.digit_tuple.specs.CellCounts.{cells_of};
ghost use Rattle.digit_tuple.specs.Decisions.{rows_in, sizes_in, IsSound};
ghost use Rattle.digit_tuple.specs.Deterministic.{IsByEarlier, target_by};
ghost use Rattle.digit_tuple.specs.Letters.{product, IsAlphabet};
ghost use Rattle.digit_tuple.specs.SparseRows.{Rows, row_at, block_rows, AreOver, IsFullOver, AreOpenBlocks, AreRowBlocks, HaveSameRows};

use crate::alphabet::Alphabet;
use crate::block_cells::block_cells;
use crate::by_tracks::{by_tracks, is_whole};
use crate::decisions::Decisions;
use crate::faults::OutOfMemory;
use crate::transitions::Transition;
use std::alloc::Global;
use std::marker::Model;

// How many rows a full block has.
const BLOCK_ROWS: usize = 1024;

// From so many transitions on a block decides by tracks, also where it is not full.
const MANY_TRANSITIONS: u64 = 65_536;

/// Rows of transitions, each by ascending letters. A row is kept as a decision by tracks: the digits on the first track
/// that go on, after each the digits on the next, and after those on the last track the targets. A letter without a
/// transition takes no place. The rows are in blocks, so that a table grows without a copy of its rows. The last block,
/// which still grows, keeps a row as a decision by the whole letter, as if all tracks were one, until it is full or has
/// many transitions: small tables, of which a statement makes many, are then written and read without a walk of their
/// tracks.
#[derive(Drop)]
pub(crate) struct SparseRows {
    tracks: Alphabet,
    // Each block but the last has BLOCK_ROWS rows.
    blocks: Vec<Decisions>,
    // How many transitions all rows have.
    transitions: u64,
}

impl Model for SparseRows {
    ghost use Rattle.std.specs.Prelude.{◌≡◌, length, sum_by};
    ghost use Rattle.std.specs.List.{flat_map};
    ghost use Rattle.digit_tuple.specs.Decisions.{rows_in};
    ghost use Rattle.digit_tuple.specs.SparseRows.{Rows, AreRowBlocks};

    ghost Value = { Rows };

    ghost view = { λ r. record { sizes = r.tracks; rows = flat_map rows_in r.blocks.items } };

    ghost invariant = { λ r. AreRowBlocks r.tracks r.blocks.items × (r.transitions ≡ sum_by length (flat_map rows_in r.blocks.items)) };
}

impl SparseRows {
    /// No rows.
    pub(crate) fn new(alloc: Global, alphabet: Alphabet) -> Result<Self, OutOfMemory>
        ensures { IfOk result (λ table. table ≡ record { sizes = alphabet; rows = [] }) }
    {
        Ok(SparseRows {
            tracks: alphabet,
            blocks: Vec::with_capacity(alloc, 1)?,
            transitions: 0,
        })
    }

    /// The alphabet of the letters.
    pub(crate) fn alphabet(&self) -> &Alphabet
        ensures { result.now ≡ self.now.sizes }
    {
        &self.tracks
    }

    /// Adds a row of these transitions. A refused call leaves no rows. A call is also refused where there would be 2^64
    /// transitions.
    pub(crate) fn add_row(&mut self, transitions: &[Transition]) -> Result<(), OutOfMemory>
        requires in_range { All (λ transition. transition.letter < product self.old.sizes) transitions.now }
        requires ascending { AllPairs IsByEarlier transitions.now }
        ensures ok { OnOk result (self.new ≡ record { sizes = self.old.sizes; rows = self.old.rows ++ transitions.now ∷ [] }) }
        ensures err { OnErr result (self.new ≡ record { sizes = self.old.sizes; rows = [] }) }
    {
        // That an alphabet has no more than 65,536 letters.
        let _letters = self.tracks.letters();
        let count = self.transitions.checked_add(transitions.len() as u64);
        let added = add_to_blocks(&self.tracks, &mut self.blocks, transitions);
        if let (Some(count), Ok(())) = (count, added) {
            self.transitions = count;
            return Ok(());
        }
        self.blocks.clear();
        self.transitions = 0;
        Err(OutOfMemory)
    }

    /// Writes the transitions of a row in place of what the buffer held.
    pub(crate) fn row_into(&self, place: u32, row: &mut Vec<Transition>) -> Result<(), OutOfMemory>
        requires { place < length self.now.rows }
        ensures { OnOk result (row.new.items ≡ row_at self.now place) }
    {
        // That the letters of an alphabet are numbered by 32 bits.
        let _letters = self.tracks.letters();
        row.clear();
        self.block_of(place)
            .row_into(place as usize % BLOCK_ROWS, 0, row)
    }

    /// Where a letter leads from a row, unless it leads nowhere. It takes no memory.
    pub(crate) fn step(&self, place: u32, letter: u32) -> Option<u32>
        requires { place < length self.now.rows }
        ensures { result ≡ target_by (row_at self.now place) letter }
    {
        self.block_of(place)
            .step(place as usize % BLOCK_ROWS, letter)
    }

    /// Whether a row has no transition.
    pub(crate) fn is_bare(&self, place: u32) -> bool
        requires { place < length self.now.rows }
        ensures { IsTrue result ↔ (row_at self.now place ≡ []) }
    {
        self.block_of(place).is_bare(place as usize % BLOCK_ROWS)
    }

    /// Whether the row at a place is that of other rows at a place. It takes no memory.
    pub(crate) fn is_same_row(&self, place: u32, other: &SparseRows, at: u32) -> bool
        requires place { place < length self.now.rows }
        requires at { at < length other.now.rows }
        requires ascending { AllPairs IsByEarlier (row_at self.now place) }
        requires other_ascending { AllPairs IsByEarlier (row_at other.now at) }
        ensures { IsTrue result ↔ (row_at self.now place ≡ row_at other.now at) }
    {
        // That the letters of an alphabet are numbered by 32 bits.
        let _letters = self.tracks.letters();
        let _letters = other.tracks.letters();
        let one = self.block_of(place);
        let two = other.block_of(at);
        let place = place as usize % BLOCK_ROWS;
        let at = at as usize % BLOCK_ROWS;
        one.is_within(place, 0, two, at) && two.is_within(at, 0, one, place)
    }

    /// How many transitions there are. The cost does not depend on their number.
    pub(crate) fn transitions(&self) -> u64
        ensures { result ≡ sum_by length self.now.rows }
    {
        self.transitions
    }

    /// How many digits there are where all rows are decisions by tracks, each with what it leads to. Where there is
    /// no track there is none.
    pub(crate) fn cells(&self) -> u64
        requires { sum_by length self.now.rows < 2 ^ 60 }
        ensures count { result ≡ sum_by (cells_of self.now.sizes) self.now.rows }
        ensures few { result ≤ length self.now.sizes * sum_by length self.now.rows }
    {
        if self.tracks.tracks() == 0 {
            return 0;
        }
        count_cells(&self.tracks, &self.blocks)
    }

    /// Gives back memory that is not in use.
    pub(crate) fn shrink_to_fit(&mut self)
        ensures { self.new ≡ self.old }
    {
        shrink_blocks(&mut self.blocks);
    }

    /// The same rows, in memory of their own.
    pub(crate) fn copy(&self, alloc: Global) -> Result<Self, OutOfMemory>
        ensures { IfOk result (λ table. table ≡ self.now) }
    {
        Ok(SparseRows {
            tracks: self.tracks.copy(alloc)?,
            blocks: copy_blocks(alloc, &self.blocks)?,
            transitions: self.transitions,
        })
    }

    // The block of a row.
    fn block_of(&self, place: u32) -> &Decisions
        requires { place < length self.now.rows }
        ensures over { AreOver self.now.sizes result.now }
        ensures within { place % block_rows < length (rows_in result.now) }
        ensures row { slice_index_or (rows_in result.now) (place % block_rows) [] ≡ row_at self.now place }
    {
        &self.blocks[place as usize / BLOCK_ROWS]
    }
}

// Adds a row of these transitions. What a refused call leaves is of no use.
fn add_to_blocks(
    tracks: &Alphabet,
    blocks: &mut Vec<Decisions>,
    transitions: &[Transition],
) -> Result<(), OutOfMemory>
    requires blocks { AreRowBlocks tracks.now blocks.old.items }
    requires few { product tracks.now ≤ 2 ^ 16 }
    requires in_range { All (λ transition. transition.letter < product tracks.now) transitions.now }
    requires ascending { AllPairs IsByEarlier transitions.now }
    ensures blocks { OnOk result (AreRowBlocks tracks.now blocks.new.items) }
    ensures rows { OnOk result (flat_map rows_in blocks.new.items ≡ flat_map rows_in blocks.old.items ++ transitions.now ∷ []) }
{
    open_block(tracks, blocks)?;
    let last = blocks.len() - 1;
    blocks[last].add_row(0, transitions)?;
    Ok(())
}

// Sees that the last block has room for one more row: adds one where it is full, or where there is none. What a
// refused call leaves is of no use.
fn open_block(tracks: &Alphabet, blocks: &mut Vec<Decisions>) -> Result<(), OutOfMemory>
    requires { AreRowBlocks tracks.now blocks.old.items }
    ensures opened { OnOk result (AreOpenBlocks tracks.now blocks.new.items) }
    ensures rows { OnOk result (flat_map rows_in blocks.new.items ≡ flat_map rows_in blocks.old.items) }
{
    part_last(tracks, blocks)?;
    if has_room(blocks) {
        return Ok(());
    }
    shrink_last(blocks);
    let alloc = *blocks.allocator();
    blocks.push(Decisions::on_one_track(alloc, tracks.letters())?)?;
    Ok(())
}

// Makes the last block decide by all tracks where it is full or has many transitions. What a refused call leaves is of
// no use.
fn part_last(tracks: &Alphabet, blocks: &mut Vec<Decisions>) -> Result<(), OutOfMemory>
    requires { AreRowBlocks tracks.now blocks.old.items }
    ensures blocks { OnOk result (AreRowBlocks tracks.now blocks.new.items) }
    ensures rows { OnOk result (flat_map rows_in blocks.new.items ≡ flat_map rows_in blocks.old.items) }
{
    let alloc = *blocks.allocator();
    if let Some(last) = blocks.last_mut() {
        if is_whole(tracks, last)
            && (last.len() >= BLOCK_ROWS || last.transitions() >= MANY_TRANSITIONS)
        {
            *last = by_tracks(alloc, tracks, last)?;
        }
    }
    Ok(())
}

// Whether the last block has room for one more row.
fn has_room(blocks: &[Decisions]) -> bool
    ensures opened { IsTrue result → (sizes : List ℕ) → AreRowBlocks sizes blocks.now → AreOpenBlocks sizes blocks.now }
    ensures full { ¬ IsTrue result → (sizes : List ℕ) → AreRowBlocks sizes blocks.now → AllByRecursion (IsFullOver sizes) blocks.now }
{
    match blocks.last() {
        Some(last) => last.len() < BLOCK_ROWS,
        None => false,
    }
}

// How many digits the rows of all blocks take by tracks.
fn count_cells(tracks: &Alphabet, blocks: &[Decisions]) -> u64
    requires over { AllByRecursion (AreOver tracks.now) blocks.now }
    requires some { 0 < length tracks.now }
    requires few { length tracks.now * sum_by length (flat_map rows_in blocks.now) < 2 ^ 64 }
    ensures { result ≡ sum_by (cells_of tracks.now) (flat_map rows_in blocks.now) }
{
    let mut cells = 0;
    for block in blocks {
        cells += block_cells(tracks, block);
    }
    cells
}

// Gives back memory that is not in use. A full block was shrunk when the next one began.
fn shrink_blocks(blocks: &mut Vec<Decisions>)
    requires { AllByRecursion IsSound blocks.old.items }
    ensures { HaveSameRows blocks.old.items blocks.new.items }
{
    blocks.shrink_to_fit();
    shrink_last(blocks);
}

// Gives back memory of the last block that is not in use.
fn shrink_last(blocks: &mut Vec<Decisions>)
    requires { AllByRecursion IsSound blocks.old.items }
    ensures { HaveSameRows blocks.old.items blocks.new.items }
{
    if let Some(last) = blocks.last_mut() {
        last.shrink_to_fit();
    }
}

// The same blocks, in memory of their own.
fn copy_blocks(alloc: Global, blocks: &[Decisions]) -> Result<Vec<Decisions>, OutOfMemory>
    requires { AllByRecursion IsSound blocks.now }
    ensures { IfOk result (λ copied. HaveSameRows blocks.now copied.items) }
{
    let mut copied = Vec::with_capacity(alloc, blocks.len())?;
    for block in blocks {
        copied.push(block.copy(alloc)?)?;
    }
    Ok(copied)
}
