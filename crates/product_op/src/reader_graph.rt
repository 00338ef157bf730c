//! The graph of the states that letters lead automata to that read side by side.

ghost use Rattle.std.specs.Prelude.{◌≡◌, ◌++◌, ◌<◌, ℕ, List, [], length, IfOk, IfSome, OnOk};
ghost use Rattle.std.specs.Option.{option_map, option_to_list};
ghost use Rattle.digit_tuple.specs.Keys.{AreKeyTransitions};
ghost use Rattle.product_op.specs.Readings.{readings_in, automata_in, AreSideBySide, AreStates, first_key, next_key, flags_at, combined};
ghost use Rattle.product_op.specs.ReadingLaws.{first_is_key, live_key_is_key};
ghost use Rattle.product_op.specs.SinkKeys.{is_dead_key, live_key, live_key_after};
ghost use Rattle.product_op.specs.LeadingLetters.{AreFewLetters, AreLeading, key_transition};

use crate::next_row::{next_rows, next_states_by};
use crate::next_table::NextTable;
use crate::numbers_below::numbers_below;
use crate::reader::Reader;
use crate::reader_states::{all_accept, are_sinks, initial_states};
use crate::rule::Rule;
use digit_tuple::faults::OutOfMemory;
use digit_tuple::key_graph::KeyGraph;
use digit_tuple::key_transitions::KeyTransitions;
use digit_tuple::transitions::Transition;
use std::alloc::Global;

/// So many letters are all tried, since to gather those with a transition would take longer.
pub const FEW_LETTERS: u32 = 32;

// All letters below this number where they are few, else none.
fn few_letters(alloc: Global, letters: u32) -> Result<Vec<u32>, OutOfMemory>
    ensures { IfOk result (λ few. AreFewLetters letters few.items) }
{
    if letters <= FEW_LETTERS {
        numbers_below(alloc, letters)
    } else {
        Ok(Vec::new(alloc))
    }
}

// Where the letters of each reader's automaton lead.
fn next_tables<'a>(
    alloc: Global,
    readers: &'a [Reader<'_>],
) -> Result<Vec<NextTable<'a>>, OutOfMemory>
    ensures { IfOk result (λ tables. tables.items ≡ automata_in (readings_in readers.now)) }
{
    let mut tables = Vec::with_capacity(alloc, readers.len())?;
    for reader in readers {
        tables.push(NextTable::new(alloc, reader.dfa)?)?;
    }
    Ok(tables)
}

/// What a walk over the states of readers begins with: all letters where they are few, else none, where the letters of
/// each reader's automaton lead, and the initial states.
#[derive(Drop)]
pub struct Beginning<'a> {
    pub few: Vec<u32>,
    pub tables: Vec<NextTable<'a>>,
    pub first: Vec<u32>,
}

impl<'a> Beginning<'a> {
    /// That of these readers, which read so many letters.
    pub fn new(alloc: Global, readers: &'a [Reader<'_>], letters: u32) -> Result<Self, OutOfMemory>
        ensures few { IfOk result (λ beginning. AreFewLetters letters beginning.few.items) }
        ensures tables { IfOk result (λ beginning. beginning.tables.items ≡ automata_in (readings_in readers.now)) }
        ensures first { IfOk result (λ beginning. beginning.first.items ≡ first_key (readings_in readers.now)) }
    {
        let few = few_letters(alloc, letters)?;
        let tables = next_tables(alloc, readers)?;
        let first = initial_states(alloc, readers)?;
        Ok(Beginning { few, tables, first })
    }
}

/// Automata that read side by side, where their letters lead, the rule by which they accept, how many
/// letters there are, and all of them where they are few, else none. A key has a state of each. Where all
/// are sinks and the rule refuses, there is no key.
#[derive(Clone, Copy)]
pub struct SideBySide<'a> {
    pub readers: &'a [Reader<'a>],
    pub tables: &'a [NextTable<'a>],
    pub rule: Rule,
    pub letters: u32,
    pub few: &'a [u32],
}

impl KeyGraph for SideBySide<'_> {
    ghost letters = { λ s. s.letters };

    ghost is_graph = { λ s. AreSideBySide s.letters (readings_in s.readers.now) s.rule × AreFewLetters s.letters s.few.now × (s.tables.now ≡ automata_in (readings_in s.readers.now)) };

    ghost is_key = { λ s. AreStates (readings_in s.readers.now) };

    ghost start = { λ s. first_key (readings_in s.readers.now) };

    ghost after = { λ s. live_key_after s.rule (readings_in s.readers.now) };

    ghost accepts = { λ s key. combined s.rule (flags_at (readings_in s.readers.now) key) };

    ghost start_is_key = { λ s graph. first_is_key s.letters (readings_in s.readers.now) graph.0.readings_are };

    ghost after_is_key = { λ s key letter graph is small. live_key_is_key s.letters (readings_in s.readers.now) graph.0.readings_are s.rule key letter };

    fn first_key(&self, alloc: Global) -> Result<Vec<u32>, OutOfMemory> {
        initial_states(alloc, self.readers)
    }

    fn transitions(
        &self,
        alloc: Global,
        key: &[u32],
        out: &mut KeyTransitions,
    ) -> Result<(), OutOfMemory> {
        let mut transitions = Vec::new(alloc);
        if !self.few.is_empty() {
            return self.push_transitions(key, self.few, &mut transitions, out);
        }
        let letters = self.leading_letters(alloc, key, &mut transitions)?;
        self.push_transitions(key, &letters, &mut transitions, out)
    }

    fn is_accepting(&self, key: &[u32]) -> bool {
        match self.rule {
            Rule::Both(op) => {
                let first = self.readers[0].accepts(key[0]);
                let second = self.readers[1].accepts(key[1]);
                op.holds(first, second) && all_accept(self.readers, key, 2)
            }
            Rule::All => all_accept(self.readers, key, 0),
            Rule::NotFirst => !self.readers[0].accepts(key[0]) && all_accept(self.readers, key, 1),
        }
    }
}

impl SideBySide<'_> {
    /// Whether no word is accepted from states: all are sinks, and the rule refuses there.
    pub fn is_dead(&self, key: &[u32]) -> bool
        requires { length key.now ≡ length self.now.readers.now }
        ensures { result ≡ is_dead_key self.now.rule (readings_in self.now.readers.now) key.now }
    {
        self.rule.refuses_all_sinks(self.readers.len()) && are_sinks(self.readers, key)
    }

    // Letters in order, such that each other leads to no key: those by whose parts a transition leads on from some
    // state, or all where these are not fewer, or where there is a key of sinks. The transitions are written over.
    fn leading_letters(
        &self,
        alloc: Global,
        key: &[u32],
        transitions: &mut Vec<Transition>,
    ) -> Result<Vec<u32>, OutOfMemory>
        requires graph { AreSideBySide self.now.letters (readings_in self.now.readers.now) self.now.rule }
        requires key { AreStates (readings_in self.now.readers.now) key.now }
        ensures { IfOk result (λ letters. AreLeading self.now.letters (live_key_after self.now.rule (readings_in self.now.readers.now) key.now) letters.items) }
    {
        if !self.rule.refuses_all_sinks(self.readers.len()) {
            return numbers_below(alloc, self.letters);
        }
        let mut letters = Vec::new(alloc);
        for (place, reader) in self.readers.iter().enumerate() {
            reader.add_letters(key[place], transitions, &mut letters)?;
            if letters.len() >= self.letters as usize {
                return numbers_below(alloc, self.letters);
            }
        }
        letters.sort_unstable();
        letters.dedup();
        Ok(letters)
    }

    // Adds the transitions from a key by these letters. The row is written over.
    fn push_transitions(
        &self,
        key: &[u32],
        letters: &[u32],
        row: &mut Vec<Transition>,
        out: &mut KeyTransitions,
    ) -> Result<(), OutOfMemory>
        requires graph { AreSideBySide self.now.letters (readings_in self.now.readers.now) self.now.rule }
        requires tables { self.now.tables.now ≡ automata_in (readings_in self.now.readers.now) }
        requires key { AreStates (readings_in self.now.readers.now) key.now }
        requires letters { AreLeading self.now.letters (live_key_after self.now.rule (readings_in self.now.readers.now) key.now) letters.now }
        requires empty { out.old ≡ [] }
        ensures { OnOk result (AreKeyTransitions self.now.letters (live_key_after self.now.rule (readings_in self.now.readers.now) key.now) out.new) }
    {
        let alloc = *row.allocator();
        let rows = next_rows(alloc, self.tables, key, letters.len(), row)?;
        let mut states = out.take_spare(alloc);
        states.resize(self.readers.len(), 0)?;
        let next = states.as_mut_slice();
        for letter in letters {
            next_states_by(self.readers, key, &rows, *letter, next);
            self.push_live(*letter, next, out)?;
        }
        out.give_spare(states);
        Ok(())
    }

    // Adds a transition to these states, unless no word is accepted from them.
    fn push_live(
        &self,
        letter: u32,
        key: &[u32],
        out: &mut KeyTransitions,
    ) -> Result<(), OutOfMemory>
        requires { length key.now ≡ length self.now.readers.now }
        ensures { OnOk result (out.new ≡ out.old ++ option_to_list (option_map (key_transition letter) (live_key self.now.rule (readings_in self.now.readers.now) key.now))) }
    {
        if !self.is_dead(key) {
            out.push(letter, key)?;
        }
        Ok(())
    }
}
