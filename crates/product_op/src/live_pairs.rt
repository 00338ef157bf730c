//! The graph of the pairs of states from which a connective may accept.

ghost use Rattle.std.specs.Prelude.{◌≡◌, ◌++◌, ◌<◌, [], List, ℕ, filter, length, slice_index, IfOk, IfSome, OnOk};
ghost use Rattle.std.specs.List.{All};
ghost use Rattle.std.specs.Option.{option_map, option_to_list};
ghost use Rattle.digit_tuple.specs.Keys.{AreKeyTransitions};
ghost use Rattle.residual_classes.specs.Classes.{next_of};
ghost use Rattle.product_op.specs.DeadPairs.{ArePair, is_dead_pair, leads_on, live_pair, live_pair_after, pair_accepts};
ghost use Rattle.product_op.specs.LeadingLetters.{AreFewLetters, AreFound, AreLeading, key_transition};
ghost use Rattle.product_op.specs.LetterJoins.{IsJoin};
ghost use Rattle.product_op.specs.NextRows.{IsNextRow};
ghost use Rattle.product_op.specs.PairLaws.{live_pair_is_key};
ghost use Rattle.product_op.specs.ReadingLaws.{first_is_key};
ghost use Rattle.product_op.specs.Readings.{automata_in, first_key, reading_at, reading_in, readings_in, AreStates, IsReading};

use crate::letter_joins::LetterJoin;
use crate::next_row::{NextRow, next_rows, next_states_by};
use crate::next_table::NextTable;
use crate::op::Op;
use crate::reader::Reader;
use crate::reader_at::read_row;
use crate::reader_states::{all_accept, initial_states, is_sink_at};
use digit_tuple::faults::OutOfMemory;
use digit_tuple::key_graph::KeyGraph;
use digit_tuple::key_transitions::KeyTransitions;
use digit_tuple::transitions::Transition;
use std::alloc::Global;

// So many pairs of transitions are gone through in about the time in which a letter is tried.
const PAIRS: u64 = 4;

/// Two automata that read side by side, where their letters lead, the connective by which they accept, which needs the
/// first, how many letters there are, all of them where they are few, else none, and the join of both automata's parts
/// if it was made. A key has a state of each. Where one that the connective needs is a sink, there is no key.
#[derive(Clone, Copy)]
pub struct LivePairs<'a> {
    pub readers: &'a [Reader<'a>],
    pub tables: &'a [NextTable<'a>],
    pub op: Op,
    pub letters: u32,
    pub few: &'a [u32],
    pub join: &'a Option<LetterJoin>,
}

impl KeyGraph for LivePairs<'_> {
    ghost letters = { λ s. s.letters };

    ghost is_graph = { λ s. ArePair s.letters s.op (readings_in s.readers.now) × AreFewLetters s.letters s.few.now × (s.tables.now ≡ automata_in (readings_in s.readers.now)) × IfSome s.join.now (IsJoin s.letters (reading_at (readings_in s.readers.now) 0) (reading_at (readings_in s.readers.now) 1)) };

    ghost is_key = { λ s. AreStates (readings_in s.readers.now) };

    ghost start = { λ s. first_key (readings_in s.readers.now) };

    ghost after = { λ s. live_pair_after s.op (readings_in s.readers.now) };

    ghost accepts = { λ s. pair_accepts s.op (readings_in s.readers.now) };

    ghost start_is_key = { λ s graph. first_is_key s.letters (readings_in s.readers.now) graph.0.readings_are };

    ghost after_is_key = { λ s key letter graph is small. live_pair_is_key s.letters (readings_in s.readers.now) graph.0.readings_are s.op key letter };

    fn first_key(&self, alloc: Global) -> Result<Vec<u32>, OutOfMemory> {
        initial_states(alloc, self.readers)
    }

    fn transitions(
        &self,
        alloc: Global,
        key: &[u32],
        out: &mut KeyTransitions,
    ) -> Result<(), OutOfMemory> {
        let mut transitions = Vec::new(alloc);
        if !self.few.is_empty() {
            return self.push_transitions(key, self.few, &mut transitions, out);
        }
        let letters = self.live_letters(alloc, key, &mut transitions)?;
        self.push_transitions(key, &letters, &mut transitions, out)
    }

    fn is_accepting(&self, key: &[u32]) -> bool {
        let first = self.readers[0].accepts(key[0]);
        let second = self.readers[1].accepts(key[1]);
        self.op.holds(first, second) && all_accept(self.readers, key, 2)
    }
}

impl LivePairs<'_> {
    /// Whether a state that the connective needs is a sink.
    pub fn is_dead(&self, key: &[u32]) -> bool
        requires count { length self.now.readers.now ≡ 2 }
        requires key { length key.now ≡ 2 }
        ensures { result ≡ is_dead_pair self.now.op (readings_in self.now.readers.now) key.now }
    {
        is_sink_at(self.readers, key, 0)
            || (self.op.needs_second() && is_sink_at(self.readers, key, 1))
    }

    // Letters in order, such that each other leads to no key. The transitions are written over.
    fn live_letters(
        &self,
        alloc: Global,
        key: &[u32],
        transitions: &mut Vec<Transition>,
    ) -> Result<Vec<u32>, OutOfMemory>
        requires pair { ArePair self.now.letters self.now.op (readings_in self.now.readers.now) }
        requires tables { self.now.tables.now ≡ automata_in (readings_in self.now.readers.now) }
        requires join { IfSome self.now.join.now (IsJoin self.now.letters (reading_at (readings_in self.now.readers.now) 0) (reading_at (readings_in self.now.readers.now) 1)) }
        requires key { AreStates (readings_in self.now.readers.now) key.now }
        ensures { IfOk result (λ letters. AreLeading self.now.letters (live_pair_after self.now.op (readings_in self.now.readers.now) key.now) letters.items) }
    {
        let mut found = self.found_letters(alloc, key, transitions)?;
        found.sort_unstable();
        found.dedup();
        Ok(found)
    }

    // Letters such that each other leads to no key. The transitions are written over.
    fn found_letters(
        &self,
        alloc: Global,
        key: &[u32],
        transitions: &mut Vec<Transition>,
    ) -> Result<Vec<u32>, OutOfMemory>
        requires pair { ArePair self.now.letters self.now.op (readings_in self.now.readers.now) }
        requires tables { self.now.tables.now ≡ automata_in (readings_in self.now.readers.now) }
        requires join { IfSome self.now.join.now (IsJoin self.now.letters (reading_at (readings_in self.now.readers.now) 0) (reading_at (readings_in self.now.readers.now) 1)) }
        requires key { AreStates (readings_in self.now.readers.now) key.now }
        ensures { IfOk result (λ found. AreFound self.now.letters (live_pair_after self.now.op (readings_in self.now.readers.now) key.now) found.items) }
    {
        if let Some(join) = self.join {
            if let Some(found) = self.joined_letters(join, key, transitions)? {
                return Ok(found);
            }
        }
        self.searched_letters(alloc, key, transitions)
    }

    // Those by which the first leads on, and of these, where the second is needed, those by which it leads on. The
    // transitions are written over.
    fn searched_letters(
        &self,
        alloc: Global,
        key: &[u32],
        transitions: &mut Vec<Transition>,
    ) -> Result<Vec<u32>, OutOfMemory>
        requires pair { ArePair self.now.letters self.now.op (readings_in self.now.readers.now) }
        requires tables { self.now.tables.now ≡ automata_in (readings_in self.now.readers.now) }
        requires key { AreStates (readings_in self.now.readers.now) key.now }
        ensures { IfOk result (λ found. AreFound self.now.letters (live_pair_after self.now.op (readings_in self.now.readers.now) key.now) found.items) }
    {
        let mut found = Vec::new(alloc);
        self.readers[0].add_letters(key[0], transitions, &mut found)?;
        if self.op.needs_second() {
            found = leading_on(
                &self.readers[1],
                &self.tables[1],
                key[1],
                &found,
                transitions,
            )?;
        }
        Ok(found)
    }

    // Those that join transitions of both states, unless it takes longer to go through all pairs of these. The row is
    // written over.
    fn joined_letters(
        &self,
        join: &LetterJoin,
        key: &[u32],
        row: &mut Vec<Transition>,
    ) -> Result<Option<Vec<u32>>, OutOfMemory>
        requires pair { ArePair self.now.letters self.now.op (readings_in self.now.readers.now) }
        requires join { IsJoin self.now.letters (reading_at (readings_in self.now.readers.now) 0) (reading_at (readings_in self.now.readers.now) 1) join.now }
        requires key { AreStates (readings_in self.now.readers.now) key.now }
        ensures { IfOk result (λ joined. IfSome joined (λ found. AreFound self.now.letters (live_pair_after self.now.op (readings_in self.now.readers.now) key.now) found.items)) }
    {
        if !self.op.needs_second() {
            return Ok(None);
        }
        let alloc = *row.allocator();
        let mut others = Vec::new(alloc);
        read_row(&self.readers[0], key[0], row)?;
        read_row(&self.readers[1], key[1], &mut others)?;
        let parts = u64::from(self.readers[0].dfa.alphabet().letters());
        if (others.len() as u64).saturating_mul(parts) > u64::from(self.letters) * PAIRS {
            return Ok(None);
        }
        let mut found = Vec::new(alloc);
        join.add_letters(self.letters, row, &others, &mut found)?;
        Ok(Some(found))
    }

    // Adds the transitions from a key by these letters. The row is written over.
    fn push_transitions(
        &self,
        key: &[u32],
        letters: &[u32],
        row: &mut Vec<Transition>,
        out: &mut KeyTransitions,
    ) -> Result<(), OutOfMemory>
        requires pair { ArePair self.now.letters self.now.op (readings_in self.now.readers.now) }
        requires tables { self.now.tables.now ≡ automata_in (readings_in self.now.readers.now) }
        requires key { AreStates (readings_in self.now.readers.now) key.now }
        requires letters { AreLeading self.now.letters (live_pair_after self.now.op (readings_in self.now.readers.now) key.now) letters.now }
        requires empty { out.old ≡ [] }
        ensures { OnOk result (AreKeyTransitions self.now.letters (live_pair_after self.now.op (readings_in self.now.readers.now) key.now) out.new) }
    {
        let alloc = *row.allocator();
        let rows = next_rows(alloc, self.tables, key, letters.len(), row)?;
        let mut states = out.take_spare(alloc);
        states.resize(self.readers.len(), 0)?;
        let next = states.as_mut_slice();
        for letter in letters {
            next_states_by(self.readers, key, &rows, *letter, next);
            self.push_live(*letter, next, out)?;
        }
        out.give_spare(states);
        Ok(())
    }

    // Adds a transition to these states, unless they are a dead pair.
    fn push_live(
        &self,
        letter: u32,
        key: &[u32],
        out: &mut KeyTransitions,
    ) -> Result<(), OutOfMemory>
        requires count { length self.now.readers.now ≡ 2 }
        requires key { length key.now ≡ 2 }
        ensures { OnOk result (out.new ≡ out.old ++ option_to_list (option_map (key_transition letter) (live_pair self.now.op (readings_in self.now.readers.now) key.now))) }
    {
        if !self.is_dead(key) {
            out.push(letter, key)?;
        }
        Ok(())
    }
}

// Those of the letters by which the reader leads on from a state, in their order. The row is written over.
fn leading_on(
    reader: &Reader<'_>,
    table: &NextTable<'_>,
    state: u32,
    letters: &[u32],
    row: &mut Vec<Transition>,
) -> Result<Vec<u32>, OutOfMemory>
    requires reading { IsReading (length reader.now.parts) (reading_in reader.now) }
    requires table { table.now ≡ reader.now.dfa.now }
    requires letters { All (λ a. a < length reader.now.parts) letters.now }
    ensures { IfOk result (λ leading. leading.items ≡ filter (leads_on (reading_in reader.now) state) letters.now) }
{
    let alloc = *row.allocator();
    let next = NextRow::of_state(alloc, table, state, letters.len(), row)?;
    let mut leading = Vec::new(alloc);
    for letter in letters {
        if !reader.is_sink(next_by(reader, state, &next, *letter)) {
            leading.push(*letter)?;
        }
    }
    Ok(leading)
}

/// Where a letter leads a reader from a state, by the state's row if there is one.
pub fn next_by(reader: &Reader<'_>, state: u32, row: &Option<NextRow<'_>>, letter: u32) -> u32
    requires reading { IsReading (length reader.now.parts) (reading_in reader.now) }
    requires letter { letter < length reader.now.parts }
    requires row { IfSome row.now (IsNextRow reader.now.dfa.now state) }
    ensures { result ≡ next_of reader.now.dfa.now state (slice_index reader.now.parts letter) }
{
    match row {
        Some(row) => row.next(reader.parts.part(letter)),
        None => reader.next(state, letter),
    }
}
