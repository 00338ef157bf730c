//! Dead pairs of a state of one reader and the sink of the other.

ghost use Rattle.std.specs.Prelude.{◌≡◌, ◌+◌, ◌<◌, ◌≤◌, ℕ, true, length, OnOk};
ghost use Rattle.std.specs.List.{All, Contains};
ghost use Rattle.std.specs.Result.{IsErrOf};
ghost use Rattle.digit_tuple.specs.Deterministic.{IsRow, letters_of, states_of, transitions_of};
ghost use Rattle.digit_tuple.specs.Width.{HasApart};
ghost use Rattle.residual_classes.specs.Classes.{next_of};
ghost use Rattle.product_op.specs.DeadExits.{IsReaderAt, LeadsOut};
ghost use Rattle.product_op.specs.DeadMarks.{AreMarked, HoldBeside, IsLeaving, OtherOut, all_sinks};
ghost use Rattle.product_op.specs.DeadPairs.{ArePair};
ghost use Rattle.product_op.specs.PairLists.{BeginsWith, HoldLive, IsAfter};
ghost use Rattle.product_op.specs.Readings.{next_key, reading_at, reading_in, readings_in, state_at};
ghost use Rattle.product_op.specs.Tuples.{LeadToOne};

use crate::dead_exits::{common_exit, exit_beside};
use crate::live_pairs::LivePairs;
use crate::reader_at::ReaderAt;
use crate::reader_states::next_states;
use digit_tuple::faults::OpFault;
use digit_tuple::limit::Limit;
use digit_tuple::numbering::Numbering;
use digit_tuple::transitions::Transition;

/// One of the keys, and which reader is to lead on from it. The other, which is at its state in the key, is to lead to
/// its sink.
#[derive(Clone, Copy)]
pub struct Leaving<'a> {
    pub graph: LivePairs<'a>,
    pub limit: Limit<'a>,
    pub key: &'a [u32],
    pub own: usize,
    pub other: &'a ReaderAt<'a>,
}

impl Leaving<'_> {
    /// Adds the dead pairs of a state that a transition leads to and the other's sink. Those of the marked states are
    /// among the keys, and each that is added is marked. Time follows the transitions, and for those that lead to a state
    /// that is not marked the letters with their parts. The letters are written over.
    pub fn add_targets(
        &self,
        row: &[Transition],
        marks: &mut Vec<bool>,
        letters: &mut Vec<u32>,
        keys: &mut Numbering,
    ) -> Result<(), OpFault>
        requires leaving { IsLeaving self.now }
        requires row { row.now ≡ transitions_of (reading_at (readings_in self.now.graph.readers.now) self.now.own).automaton (state_at self.now.key.now self.now.own) }
        requires transitions { IsRow (letters_of (reading_at (readings_in self.now.graph.readers.now) self.now.own).automaton) (states_of (reading_at (readings_in self.now.graph.readers.now) self.now.own).automaton) row.now }
        requires marked { AreMarked (readings_in self.now.graph.readers.now) self.now.own marks.old.items keys.old }
        requires live { HoldLive self.now.graph.letters self.now.graph.op (readings_in self.now.graph.readers.now) keys.old }
        requires few { length keys.old ≤ self.now.limit.most }
        requires key { Contains keys.old self.now.key.now }
        ensures live { OnOk result (HoldLive self.now.graph.letters self.now.graph.op (readings_in self.now.graph.readers.now) keys.new) }
        ensures begins { OnOk result (BeginsWith keys.old keys.new) }
        ensures marked { OnOk result (AreMarked (readings_in self.now.graph.readers.now) self.now.own marks.new.items keys.new) }
        ensures there { OnOk result ((a : ℕ) → a < self.now.graph.letters → ¬ LeadsOut (reading_at (readings_in self.now.graph.readers.now) self.now.own) (state_at self.now.key.now self.now.own) a
            → OtherOut (readings_in self.now.graph.readers.now) self.now.own self.now.key.now a → Contains keys.new (next_key (readings_in self.now.graph.readers.now) self.now.key.now a)) }
        ensures few { OnOk result (length keys.new ≤ self.now.limit.most) }
        ensures states { IsErrOf result OpFault.States → HasApart (LeadToOne (readings_in self.now.graph.readers.now)) self.now.graph.letters (self.now.limit.most + 1) }
        ensures no_letters { ¬ IsErrOf result OpFault.Letters }
    {
        if self.other.leads_on {
            return Ok(());
        }
        for transition in row {
            self.add_target(*transition, marks, letters, keys)?;
        }
        Ok(())
    }

    // Adds the pair of the state that a transition leads to, unless it is marked, if some letter with the transition's
    // part leads the other to its sink.
    fn add_target(
        &self,
        transition: Transition,
        marks: &mut Vec<bool>,
        letters: &mut Vec<u32>,
        keys: &mut Numbering,
    ) -> Result<(), OpFault>
        requires leaving { IsLeaving self.now }
        requires target { next_of (reading_at (readings_in self.now.graph.readers.now) self.now.own).automaton (state_at self.now.key.now self.now.own) transition.letter ≡ transition.target }
        requires within { transition.target < states_of (reading_at (readings_in self.now.graph.readers.now) self.now.own).automaton }
        requires marked { AreMarked (readings_in self.now.graph.readers.now) self.now.own marks.old.items keys.old }
        requires live { HoldLive self.now.graph.letters self.now.graph.op (readings_in self.now.graph.readers.now) keys.old }
        requires few { length keys.old ≤ self.now.limit.most }
        requires key { Contains keys.old self.now.key.now }
        ensures live { OnOk result (HoldLive self.now.graph.letters self.now.graph.op (readings_in self.now.graph.readers.now) keys.new) }
        ensures begins { OnOk result (BeginsWith keys.old keys.new) }
        ensures marked { OnOk result (AreMarked (readings_in self.now.graph.readers.now) self.now.own marks.new.items keys.new) }
        ensures there { OnOk result (HoldBeside self.now.graph.letters (readings_in self.now.graph.readers.now) self.now.own self.now.key.now transition.letter keys.new) }
        ensures few { OnOk result (length keys.new ≤ self.now.limit.most) }
        ensures states { IsErrOf result OpFault.States → HasApart (LeadToOne (readings_in self.now.graph.readers.now)) self.now.graph.letters (self.now.limit.most + 1) }
        ensures no_letters { ¬ IsErrOf result OpFault.Letters }
    {
        if marks[transition.target as usize] {
            return Ok(());
        }
        let own = &self.graph.readers[self.own];
        if let Some(letter) = exit_beside(own, transition.letter, self.other, letters)? {
            add_after(&self.graph, self.key, letter, keys, self.limit)?;
            marks[transition.target as usize] = true;
        }
        Ok(())
    }

    /// Adds the pair of both sinks, unless it is marked, if some letter leads both readers there. To find one takes time
    /// as the letters before it.
    pub fn add_sinks(
        &self,
        own: &ReaderAt<'_>,
        both: &mut bool,
        keys: &mut Numbering,
    ) -> Result<(), OpFault>
        requires leaving { IsLeaving self.now }
        requires own { IsReaderAt own.now }
        requires reader { reading_in own.now.reader.now ≡ reading_at (readings_in self.now.graph.readers.now) self.now.own }
        requires state { own.now.state ≡ state_at self.now.key.now self.now.own }
        requires marked { both.old ≡ true → Contains keys.old (all_sinks (readings_in self.now.graph.readers.now)) }
        requires live { HoldLive self.now.graph.letters self.now.graph.op (readings_in self.now.graph.readers.now) keys.old }
        requires few { length keys.old ≤ self.now.limit.most }
        requires key { Contains keys.old self.now.key.now }
        ensures live { OnOk result (HoldLive self.now.graph.letters self.now.graph.op (readings_in self.now.graph.readers.now) keys.new) }
        ensures begins { OnOk result (BeginsWith keys.old keys.new) }
        ensures marked { OnOk result (both.new ≡ true → Contains keys.new (all_sinks (readings_in self.now.graph.readers.now))) }
        ensures there { OnOk result ((a : ℕ) → a < self.now.graph.letters → LeadsOut (reading_at (readings_in self.now.graph.readers.now) self.now.own) (state_at self.now.key.now self.now.own) a
            → OtherOut (readings_in self.now.graph.readers.now) self.now.own self.now.key.now a → Contains keys.new (next_key (readings_in self.now.graph.readers.now) self.now.key.now a)) }
        ensures few { OnOk result (length keys.new ≤ self.now.limit.most) }
        ensures states { IsErrOf result OpFault.States → HasApart (LeadToOne (readings_in self.now.graph.readers.now)) self.now.graph.letters (self.now.limit.most + 1) }
        ensures no_letters { ¬ IsErrOf result OpFault.Letters }
    {
        if *both {
            return Ok(());
        }
        if let Some(letter) = common_exit(own, self.other, self.graph.letters) {
            add_after(&self.graph, self.key, letter, keys, self.limit)?;
            *both = true;
        }
        Ok(())
    }
}

/// Adds the pair that a letter leads to from one of the keys, if it is dead.
pub fn add_after(
    graph: &LivePairs<'_>,
    key: &[u32],
    letter: u32,
    keys: &mut Numbering,
    limit: Limit<'_>,
) -> Result<(), OpFault>
    requires pair { ArePair graph.now.letters graph.now.op (readings_in graph.now.readers.now) }
    requires letter { letter < graph.now.letters }
    requires live { HoldLive graph.now.letters graph.now.op (readings_in graph.now.readers.now) keys.old }
    requires few { length keys.old ≤ limit.most }
    requires key { Contains keys.old key.now }
    ensures live { OnOk result (HoldLive graph.now.letters graph.now.op (readings_in graph.now.readers.now) keys.new) }
    ensures begins { OnOk result (BeginsWith keys.old keys.new) }
    ensures there { OnOk result (Contains keys.new (next_key (readings_in graph.now.readers.now) key.now letter)) }
    ensures few { OnOk result (length keys.new ≤ limit.entry.most) }
    ensures states { IsErrOf result OpFault.States → HasApart (LeadToOne (readings_in graph.now.readers.now)) graph.now.letters (limit.entry.most + 1) }
    ensures no_letters { ¬ IsErrOf result OpFault.Letters }
{
    let mut pair = [0; 2];
    next_states(graph.readers, key, letter, &mut pair);
    add_if_dead(graph, &pair, keys, limit)
}

/// Adds a pair that a letter leads to from one of the keys, if it is dead.
pub fn add_if_dead(
    graph: &LivePairs<'_>,
    pair: &[u32],
    keys: &mut Numbering,
    limit: Limit<'_>,
) -> Result<(), OpFault>
    requires pair { ArePair graph.now.letters graph.now.op (readings_in graph.now.readers.now) }
    requires live { HoldLive graph.now.letters graph.now.op (readings_in graph.now.readers.now) keys.old }
    requires few { length keys.old ≤ limit.most }
    requires after { IsAfter graph.now.letters (readings_in graph.now.readers.now) keys.old pair.now }
    ensures live { OnOk result (HoldLive graph.now.letters graph.now.op (readings_in graph.now.readers.now) keys.new) }
    ensures begins { OnOk result (BeginsWith keys.old keys.new) }
    ensures there { OnOk result (Contains keys.new pair.now) }
    ensures few { OnOk result (length keys.new ≤ limit.entry.most) }
    ensures states { IsErrOf result OpFault.States → HasApart (LeadToOne (readings_in graph.now.readers.now)) graph.now.letters (limit.entry.most + 1) }
    ensures no_letters { ¬ IsErrOf result OpFault.Letters }
{
    if !graph.is_dead(pair) {
        return Ok(());
    }
    keys.number_of(pair)?;
    if keys.len() > limit.most as usize {
        return Err(OpFault::States);
    }
    Ok(())
}
