//! The dead pairs of states that words lead to.

ghost use Rattle.std.specs.Prelude.{◌≡◌, ◌+◌, ◌≤◌, ℕ, List, length, IfOk, OnOk};
ghost use Rattle.std.specs.List.{Contains};
ghost use Rattle.std.specs.Result.{IsErrOf};
ghost use Rattle.digit_tuple.specs.Width.{HasApart, HasWidth};
ghost use Rattle.product_op.specs.DeadMarks.{AreMarks};
ghost use Rattle.product_op.specs.DeadPairs.{ArePair};
ghost use Rattle.product_op.specs.PairLists.{BeginsWith, HoldAfter, HoldLive};
ghost use Rattle.product_op.specs.Readings.{automata_in, readings_in};
ghost use Rattle.product_op.specs.Tuples.{LeadToOne};

use crate::leaving::{Leaving, add_if_dead};
use crate::live_pairs::LivePairs;
use crate::next_row::{next_rows, next_states_by};
use crate::reader_at::ReaderAt;
use digit_tuple::faults::{OpFault, OutOfMemory};
use digit_tuple::limit::Limit;
use digit_tuple::numbering::Numbering;
use digit_tuple::transitions::Transition;
use std::alloc::Global;

// Which pairs of a state and a sink are known to be among the keys: those of the states of the first reader, those of the
// states of the second, and that of both sinks. Beside them there is room for rows and letters.
#[derive(Drop)]
struct Marks {
    first: Vec<bool>,
    second: Vec<bool>,
    both: bool,
    first_row: Vec<Transition>,
    second_row: Vec<Transition>,
    letters: Vec<u32>,
}

/// Adds the dead pairs that words lead to, where the others are there: a walk over the graph of each automaton beside
/// the sink of the other. `States` comes if and only if there are more pairs than the limit then, and `Letters` never.
pub fn add_dead_pairs(
    alloc: Global,
    graph: &LivePairs<'_>,
    keys: &mut Numbering,
    limit: Limit<'_>,
) -> Result<(), OpFault>
    requires pair { ArePair graph.now.letters graph.now.op (readings_in graph.now.readers.now) }
    requires tables { graph.now.tables.now ≡ automata_in (readings_in graph.now.readers.now) }
    requires live { HoldLive graph.now.letters graph.now.op (readings_in graph.now.readers.now) keys.old }
    requires few { length keys.old ≤ limit.most }
    ensures width { OnOk result (HasWidth (LeadToOne (readings_in graph.now.readers.now)) graph.now.letters (length keys.new)) }
    ensures within { OnOk result (length keys.new ≤ limit.entry.most) }
    ensures states { IsErrOf result OpFault.States → HasApart (LeadToOne (readings_in graph.now.readers.now)) graph.now.letters (limit.entry.most + 1) }
    ensures no_letters { ¬ IsErrOf result OpFault.Letters }
{
    let mut marks = Marks::new(alloc, graph)?;
    let mut key = Vec::new(alloc);
    let mut place = 0;
    while place < keys.len() {
        key.clear();
        key.extend_from_slice(keys.key(place))?;
        add_dead_after(graph, &key, &mut marks, keys, limit)?;
        place += 1;
    }
    Ok(())
}

// Adds the dead pairs that letters lead to from one of the keys: all letters are tried where they are few, since to search
// takes longer.
fn add_dead_after(
    graph: &LivePairs<'_>,
    key: &[u32],
    marks: &mut Marks,
    keys: &mut Numbering,
    limit: Limit<'_>,
) -> Result<(), OpFault>
    requires pair { ArePair graph.now.letters graph.now.op (readings_in graph.now.readers.now) }
    requires tables { graph.now.tables.now ≡ automata_in (readings_in graph.now.readers.now) }
    requires marked { AreMarks (readings_in graph.now.readers.now) marks.old keys.old }
    requires live { HoldLive graph.now.letters graph.now.op (readings_in graph.now.readers.now) keys.old }
    requires few { length keys.old ≤ limit.most }
    requires key { Contains keys.old key.now }
    ensures live { OnOk result (HoldLive graph.now.letters graph.now.op (readings_in graph.now.readers.now) keys.new) }
    ensures begins { OnOk result (BeginsWith keys.old keys.new) }
    ensures marked { OnOk result (AreMarks (readings_in graph.now.readers.now) marks.new keys.new) }
    ensures after { OnOk result (HoldAfter graph.now.letters (readings_in graph.now.readers.now) key.now keys.new) }
    ensures few { OnOk result (length keys.new ≤ limit.entry.most) }
    ensures states { IsErrOf result OpFault.States → HasApart (LeadToOne (readings_in graph.now.readers.now)) graph.now.letters (limit.entry.most + 1) }
    ensures no_letters { ¬ IsErrOf result OpFault.Letters }
{
    if graph.few.is_empty() {
        return add_unmarked(graph, key, marks, keys, limit);
    }
    add_by_all(graph, key, &mut marks.first_row, keys, limit)?;
    Ok(())
}

// Adds those that all letters lead to. The row is written over.
fn add_by_all(
    graph: &LivePairs<'_>,
    key: &[u32],
    row: &mut Vec<Transition>,
    keys: &mut Numbering,
    limit: Limit<'_>,
) -> Result<(), OpFault>
    requires pair { ArePair graph.now.letters graph.now.op (readings_in graph.now.readers.now) }
    requires tables { graph.now.tables.now ≡ automata_in (readings_in graph.now.readers.now) }
    requires live { HoldLive graph.now.letters graph.now.op (readings_in graph.now.readers.now) keys.old }
    requires few { length keys.old ≤ limit.most }
    requires key { Contains keys.old key.now }
    ensures live { OnOk result (HoldLive graph.now.letters graph.now.op (readings_in graph.now.readers.now) keys.new) }
    ensures begins { OnOk result (BeginsWith keys.old keys.new) }
    ensures after { OnOk result (HoldAfter graph.now.letters (readings_in graph.now.readers.now) key.now keys.new) }
    ensures few { OnOk result (length keys.new ≤ limit.entry.most) }
    ensures states { IsErrOf result OpFault.States → HasApart (LeadToOne (readings_in graph.now.readers.now)) graph.now.letters (limit.entry.most + 1) }
    ensures no_letters { ¬ IsErrOf result OpFault.Letters }
{
    let alloc = *row.allocator();
    let rows = next_rows(alloc, graph.tables, key, graph.letters as usize, row)?;
    let mut states = vec![in alloc; 0; 2]?;
    let next = states.as_mut_slice();
    for letter in 0..graph.letters {
        next_states_by(graph.readers, key, &rows, letter, next);
        add_if_dead(graph, next, keys, limit)?;
    }
    Ok(())
}

// Adds those that are not marked, and marks them. Time follows the transitions of both states, and the letters with the
// parts of those that lead to states that are not marked.
fn add_unmarked(
    graph: &LivePairs<'_>,
    key: &[u32],
    marks: &mut Marks,
    keys: &mut Numbering,
    limit: Limit<'_>,
) -> Result<(), OpFault>
    requires pair { ArePair graph.now.letters graph.now.op (readings_in graph.now.readers.now) }
    requires tables { graph.now.tables.now ≡ automata_in (readings_in graph.now.readers.now) }
    requires marked { AreMarks (readings_in graph.now.readers.now) marks.old keys.old }
    requires live { HoldLive graph.now.letters graph.now.op (readings_in graph.now.readers.now) keys.old }
    requires few { length keys.old ≤ limit.most }
    requires key { Contains keys.old key.now }
    ensures live { OnOk result (HoldLive graph.now.letters graph.now.op (readings_in graph.now.readers.now) keys.new) }
    ensures begins { OnOk result (BeginsWith keys.old keys.new) }
    ensures marked { OnOk result (AreMarks (readings_in graph.now.readers.now) marks.new keys.new) }
    ensures after { OnOk result (HoldAfter graph.now.letters (readings_in graph.now.readers.now) key.now keys.new) }
    ensures few { OnOk result (length keys.new ≤ limit.entry.most) }
    ensures states { IsErrOf result OpFault.States → HasApart (LeadToOne (readings_in graph.now.readers.now)) graph.now.letters (limit.entry.most + 1) }
    ensures no_letters { ¬ IsErrOf result OpFault.Letters }
{
    let readers = graph.readers;
    let first = ReaderAt::new(&readers[0], &graph.tables[0], key[0], &mut marks.first_row)?;
    let second = ReaderAt::new(&readers[1], &graph.tables[1], key[1], &mut marks.second_row)?;
    let beside_second = Leaving {
        graph: *graph,
        limit,
        key,
        own: 0,
        other: &second,
    };
    beside_second.add_sinks(&first, &mut marks.both, keys)?;
    beside_second.add_targets(&marks.first_row, &mut marks.first, &mut marks.letters, keys)?;
    let beside_first = Leaving {
        graph: *graph,
        limit,
        key,
        own: 1,
        other: &first,
    };
    beside_first.add_targets(
        &marks.second_row,
        &mut marks.second,
        &mut marks.letters,
        keys,
    )?;
    Ok(())
}

impl Marks {
    // Nothing is marked.
    fn new(alloc: Global, graph: &LivePairs<'_>) -> Result<Self, OutOfMemory>
        requires { length graph.now.readers.now ≡ 2 }
        ensures { IfOk result (λ marks. (keys : List (List ℕ)) → AreMarks (readings_in graph.now.readers.now) marks keys) }
    {
        let first = vec![in alloc; false; graph.readers[0].dfa.states() as usize]?;
        let second = vec![in alloc; false; graph.readers[1].dfa.states() as usize]?;
        Ok(Marks {
            first,
            second,
            both: false,
            first_row: Vec::new(alloc),
            second_row: Vec::new(alloc),
            letters: Vec::new(alloc),
        })
    }
}
