//! Where letters lead from the states of a key, as lists.

ghost use Rattle.std.specs.Prelude.{◌≡◌, ◌<◌, ℕ, List, length, IfOk, IfSome};
ghost use Rattle.digit_tuple.specs.Deterministic.{Automaton, letters_of};
ghost use Rattle.residual_classes.specs.Classes.{next_of};
ghost use Rattle.product_op.specs.NextRows.{AreNextRows, IsNextRow};
ghost use Rattle.product_op.specs.NextTables.{next_list};
ghost use Rattle.product_op.specs.Readings.{AreReadings, automata_in, next_key, readings_in};

use crate::next_table::{NextTable, next_row};
use crate::reader::Reader;
use crate::reader_states::next_states;
use digit_tuple::faults::OutOfMemory;
use digit_tuple::transitions::Transition;
use std::alloc::Global;

// To search for where a letter leads takes about as long as to write so many letters.
const SEARCH: usize = 128;

/// Where each letter of an automaton leads from a state, or from its sink.
#[derive(Drop)]
pub enum NextRow<'a> {
    /// As a table keeps it.
    Kept(&'a [u32]),
    /// As a list of its own.
    Listed(Vec<u32>),
}

impl<'a> NextRow<'a> {
    /// The row of a state or of the sink, for so many letters that are to be asked for. Where none is kept it is a list
    /// if they are no fewer than a 128th of the automaton's letters, and takes time and memory as these are many; else
    /// there is none. The transitions are written over.
    pub fn of_state(
        alloc: Global,
        table: &'a NextTable<'_>,
        state: u32,
        letters: usize,
        transitions: &mut Vec<Transition>,
    ) -> Result<Option<Self>, OutOfMemory>
        ensures { IfOk result (λ row. IfSome row (IsNextRow table.now state)) }
    {
        if let Some(row) = table.row(state) {
            return Ok(Some(NextRow::Kept(row)));
        }
        let dfa = table.dfa();
        if letters.saturating_mul(SEARCH) < dfa.alphabet().letters() as usize {
            return Ok(None);
        }
        let list = next_row(alloc, dfa, state, transitions)?;
        Ok(Some(NextRow::Listed(list)))
    }

    /// Where a letter leads from the state whose row this is.
    pub fn next(&self, letter: u32) -> u32
        requires { (d : Automaton) × (state : ℕ) × IsNextRow d state self.now × (letter < letters_of d) }
        ensures { (d : Automaton) (state : ℕ) → IsNextRow d state self.now → letter < letters_of d → result ≡ next_of d state letter }
    {
        self.list()[letter as usize]
    }

    // The list of the states that the letters lead to.
    fn list(&self) -> &[u32]
        ensures { (d : Automaton) (state : ℕ) → IsNextRow d state self.now → result.now ≡ next_list d state }
    {
        match self {
            NextRow::Kept(next) => *next,
            NextRow::Listed(next) => next,
        }
    }
}

/// The rows of the states of a key, for so many letters that are to be asked for, or none where one of them is not
/// worth its time. They take time and memory as these letters and the automata are many. The transitions are written
/// over.
pub fn next_rows<'a>(
    alloc: Global,
    tables: &'a [NextTable<'_>],
    key: &[u32],
    letters: usize,
    transitions: &mut Vec<Transition>,
) -> Result<Option<Vec<NextRow<'a>>>, OutOfMemory>
    requires { length key.now ≡ length tables.now }
    ensures { IfOk result (λ found. IfSome found (λ rows. AreNextRows tables.now key.now rows.items)) }
{
    let mut rows = Vec::with_capacity(alloc, tables.len())?;
    for (place, table) in tables.iter().enumerate() {
        match NextRow::of_state(alloc, table, key[place], letters, transitions)? {
            Some(row) => rows.push(row)?,
            None => return Ok(None),
        }
    }
    Ok(Some(rows))
}

/// Writes where the letter leads from each state of a key, whose rows these are.
pub fn next_by_rows(readers: &[Reader<'_>], rows: &[NextRow<'_>], letter: u32, next: &mut [u32])
    requires readers { (letters : ℕ) × AreReadings letters (readings_in readers.now) × (letter < letters) }
    requires rows { (key : List ℕ) × AreNextRows (automata_in (readings_in readers.now)) key rows.now }
    requires room { length next.old ≡ length readers.now }
    ensures { (key : List ℕ) → AreNextRows (automata_in (readings_in readers.now)) key rows.now → next.new ≡ next_key (readings_in readers.now) key letter }
{
    for (place, reader) in readers.iter().enumerate() {
        next[place] = rows[place].next(reader.parts.part(letter));
    }
}

/// Writes where the letter leads from each state of a key, by its rows if there are any.
pub fn next_states_by(
    readers: &[Reader<'_>],
    key: &[u32],
    rows: &Option<Vec<NextRow<'_>>>,
    letter: u32,
    next: &mut [u32],
)
    requires readers { (letters : ℕ) × AreReadings letters (readings_in readers.now) × (letter < letters) }
    requires key { length key.now ≡ length readers.now }
    requires rows { IfSome rows.now (λ all. AreNextRows (automata_in (readings_in readers.now)) key.now all.items) }
    requires room { length next.old ≡ length readers.now }
    ensures { next.new ≡ next_key (readings_in readers.now) key.now letter }
{
    match rows {
        Some(rows) => next_by_rows(readers, rows, letter, next),
        None => next_states(readers, key, letter, next),
    }
}
