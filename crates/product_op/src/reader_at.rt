//! Readers at their states.

ghost use Rattle.std.specs.Prelude.{◌≡◌, ◌↔◌, ◌<◌, length, slice_index, IfOk, IsTrue, OnOk};
ghost use Rattle.digit_tuple.specs.Deterministic.{IsRow, letters_of, states_of, transitions_of};
ghost use Rattle.residual_classes.specs.Classes.{next_of};
ghost use Rattle.product_op.specs.DeadExits.{IsReaderAt, LeadsOut};
ghost use Rattle.product_op.specs.Readings.{IsReading, reading_in};

use crate::next_table::NextTable;
use crate::reader::Reader;
use digit_tuple::faults::OutOfMemory;
use digit_tuple::transitions::Transition;

/// A reader at a state: where letters lead from there, if that is kept, and whether all of them lead on.
#[derive(Drop)]
pub struct ReaderAt<'a> {
    pub reader: &'a Reader<'a>,
    pub state: u32,
    pub row: Option<&'a [u32]>,
    pub leads_on: bool,
}

impl<'a> ReaderAt<'a> {
    /// The reader at a state or at its sink, whose transitions are written over the row. Time follows their number.
    pub fn new(
        reader: &'a Reader<'a>,
        table: &'a NextTable<'a>,
        state: u32,
        row: &mut Vec<Transition>,
    ) -> Result<Self, OutOfMemory>
        requires reading { IsReading (length reader.now.parts) (reading_in reader.now) }
        requires table { table.now ≡ reader.now.dfa.now }
        ensures at { IfOk result IsReaderAt }
        ensures reader { IfOk result (λ at. reading_in at.reader.now ≡ reading_in reader.now) }
        ensures state { IfOk result (λ at. at.state ≡ state) }
        ensures row { OnOk result (row.new.items ≡ transitions_of reader.now.dfa.now state) }
        ensures transitions { OnOk result (IsRow (letters_of reader.now.dfa.now) (states_of reader.now.dfa.now) row.new.items) }
    {
        read_row(reader, state, row)?;
        Ok(ReaderAt {
            reader,
            state,
            row: table.row(state),
            leads_on: row.len() >= reader.dfa.alphabet().letters() as usize,
        })
    }

    /// Whether a letter leads to the sink.
    pub fn leads_out(&self, letter: u32) -> bool
        requires at { IsReaderAt self.now }
        requires letter { letter < length self.now.reader.now.parts }
        ensures { IsTrue result ↔ LeadsOut (reading_in self.now.reader.now) self.now.state letter }
    {
        self.reader.is_sink(self.next(letter))
    }

    // Where a letter leads.
    fn next(&self, letter: u32) -> u32
        requires at { IsReaderAt self.now }
        requires letter { letter < length self.now.reader.now.parts }
        ensures { result ≡ next_of self.now.reader.now.dfa.now self.now.state (slice_index self.now.reader.now.parts letter) }
    {
        match self.row {
            Some(row) => row[self.reader.parts.part(letter) as usize],
            None => self.reader.next(self.state, letter),
        }
    }
}

/// Writes the transitions of a state, of the sink none.
pub fn read_row(
    reader: &Reader<'_>,
    state: u32,
    row: &mut Vec<Transition>,
) -> Result<(), OutOfMemory>
    ensures row { OnOk result (row.new.items ≡ transitions_of reader.now.dfa.now state) }
    ensures transitions { OnOk result (IsRow (letters_of reader.now.dfa.now) (states_of reader.now.dfa.now) row.new.items) }
{
    if state < reader.dfa.states() {
        return reader.dfa.transitions_into(state, row);
    }
    row.clear();
    Ok(())
}
