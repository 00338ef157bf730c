//! Classes of states, parted by Hopcroft's algorithm (John Hopcroft, "An n log n algorithm for minimizing states in a
//! finite automaton") over the transitions that are there, as in Antti Valmari and Petri Lehtinen, "Efficient
//! minimization of DFAs with partial transition functions".
//!
//! The states are in one list, those of one class one after another, and the classes by which others are still to be
//! parted are pending. One pending class after the other is taken, and for each letter each class is parted into the
//! states from which the letter leads into the taken one, and the others: the states that leave are swapped to the end
//! of their class's span, which is cut there. Of two parts the smaller is pending then, the one that fewer transitions
//! lead to, and of a class that was pending both are. Of the sink's class it is the states that leave, however many: no
//! transitions are kept that lead to the sink.
//!
//! States of one class have one output, and lead by each letter into one class, unless one of the two classes is
//! pending. Each cut leaves it so. Where no class is pending the classes are the residuals.
//!
//! So each transition is looked at once, and once more each time that its target goes with a smaller part. For m
//! transitions, and classes of s states at most to begin with, these are m + (m / 2) log s looks at most: where a
//! smaller part has a share f of the transitions, f is at most half of the entropy of f and 1 - f, and these entropies,
//! each times its transitions, add up to no more than m log s.
//!
//! The time is in the order of m log m log n at most for n states. The factor log m is that of sorting,
//! by letter and by class; counting in place of sorting would save it.
//!
//! Besides the transitions these lists take 13 bytes a state, and up to 16 bytes a class in vectors that grow.

ghost use Rattle.std.specs.Prelude.{◌≡◌, ◌≢◌, ℕ, ◌+◌, ◌-◌, ◌*◌, ◌<◌, ◌≤◌, ◌^◌, ◌↔◌, ◌∷◌, ◌++◌, [], List, length, sum_by, IfOk, OnOk};
ghost use Rattle.std.specs.List.{All, Contains};
ghost use Rattle.digit_tuple.specs.Deterministic.{states_of};
ghost use Rattle.digit_tuple.specs.Keys.{transition_at};
ghost use Rattle.digit_tuple.specs.TransitionCounts.{transition_count};
ghost use Rattle.residual_classes.specs.Classes.{class_of};
ghost use Rattle.residual_classes.specs.CoarseClasses.{AreCoarseClasses, AreResidualClasses, HaveOneOutput};
ghost use Rattle.residual_classes.specs.FlatTransitions.{AreFlat};
ghost use Rattle.residual_classes.specs.Outputs.{HasOutputs};
ghost use Rattle.residual_classes.specs.PaidPartition.{AreAtMost, AreFew, IsCountCut, IsPaidFor};
ghost use Rattle.residual_classes.specs.ReversedTransitions.{in_degree};
ghost use Rattle.residual_classes.specs.Weights.{class_size, class_sum};
ghost use Rattle.residual_classes.specs.Partition.{HasGrown, IsCut, IsGiven, IsPartition, IsSplit, IsUnion};
ghost use Rattle.residual_classes.specs.Settled.{AreAllPending, AreApart, AreLiveParts, IsSettled};

use crate::flat_transitions::FlatTransitions;
use crate::gathering::{sources_by_letter, states_by_class};
use crate::looks::Looks;
use crate::machine::Machine;
use crate::pending_classes::PendingClasses;
use crate::reversed_transitions::ReversedTransitions;
use crate::state_order::{move_to_end, numbered_states};
use digit_tuple::faults::OutOfMemory;
use digit_tuple::key_transitions::KeyTransitions;
use digit_tuple::transitions::Transition;
use std::alloc::Global;
use std::sync::ledger::Ledger;

/// The class of each state, and last that of the sink, where missing transitions lead, after classes of one output each
/// are parted: states have one class if and only if all words lead from them to the same outputs.
pub fn parted<L: Ledger>(
    alloc: Global,
    machine: &Machine,
    flat: &FlatTransitions,
    classes: Vec<u32>,
    looks: &mut Looks<L>,
) -> Result<Vec<u32>, OutOfMemory>
    requires outputs { HasOutputs machine.now }
    requires flat { AreFlat machine.now.dfa.now flat.now }
    requires classes { AreCoarseClasses machine.now.dfa.now machine.now.outputs.now classes.items }
    requires one_output { HaveOneOutput machine.now.dfa.now machine.now.outputs.now classes.items }
    ensures residuals { IfOk result (λ classes. AreResidualClasses machine.now.dfa.now machine.now.outputs.now classes.items) }
    ensures looks { (largest digits : ℕ) → AreAtMost (states_of machine.now.dfa.now) classes.items largest → largest ≤ 2 ^ digits
        → 2 * looks.new ≤ 2 * looks.old + (2 + digits) * transition_count machine.now.dfa.now }
{
    let parts = live_parts(alloc, machine, &classes)?;
    // Memory goes before more is taken.
    drop(classes);
    let mut partition = Partition::new(alloc, machine, flat)?;
    partition.part_by_class(machine, &parts)?;
    drop(parts);
    let mut buffers = Buffers::new(alloc);
    'part: while let Some(class) = partition.pending.pop() {
        partition.part_by_letters(machine, class, &mut buffers, looks)?;
    }
    Ok(partition.classes)
}

/// The partition while it is refined.
#[derive(Drop)]
pub struct Partition {
    // The transitions of the automaton.
    reversed: ReversedTransitions,
    // The class of each state, and last that of the sink, which is 0.
    classes: Vec<u32>,
    // The states, those of one class one after another.
    states: Vec<u32>,
    // Where each state is among them.
    places: Vec<u32>,
    // Where the states of each class are.
    spans: Vec<ClassSpan>,
    // The classes by which others are still to be parted, none of them the sink's.
    pending: PendingClasses,
}

/// Where the states of a class are, from the start to before the end, and how many transitions lead to them, up to 2^32
/// - 1. Transitions to the sink's class are not counted.
#[derive(Clone, Copy)]
pub struct ClassSpan {
    start: u32,
    end: u32,
    transitions: u32,
}

impl Partition {
    // One class of all states.
    fn new(alloc: Global, machine: &Machine, flat: &FlatTransitions) -> Result<Self, OutOfMemory>
        requires { AreFlat machine.now.dfa.now flat.now }
        ensures partition { IfOk result (IsPartition machine.now) }
        ensures one { IfOk result (λ made. length made.spans.items ≡ 1) }
        ensures paid { IfOk result (λ made. (largest : ℕ) → 0 < largest → IsPaidFor machine.now (transition_count machine.now.dfa.now) largest 0 made) }
    {
        let reversed = ReversedTransitions::new(alloc, machine.dfa, flat)?;
        let states = machine.dfa.states();
        let most_classes = states as usize + 1;
        let span = ClassSpan {
            start: 0,
            end: states,
            transitions: 0,
        };
        Ok(Partition {
            reversed,
            classes: vec![in alloc; 0; most_classes]?,
            states: numbered_states(alloc, states)?,
            places: numbered_states(alloc, states)?,
            spans: vec![in alloc; span]?,
            pending: PendingClasses::new(alloc, most_classes)?,
        })
    }

    // Parts the class of all states by the parts, so that what is left of it is the sink's class.
    fn part_by_class(
        &mut self,
        machine: &Machine,
        parts: &KeyTransitions,
    ) -> Result<(), OutOfMemory>
        requires partition { IsPartition machine.now self.old }
        requires parts { All (λ part. IsUnion machine.now.dfa.now machine.now.outputs.now part.key) parts.now }
        requires one { length self.old.spans.items ≡ 1 }
        ensures partition { OnOk result (IsPartition machine.now self.new) }
        ensures pending { OnOk result (AreAllPending (length self.new.spans.items) self.new.pending) }
        ensures paid { OnOk result ((transitions largest looks : ℕ) → IsPaidFor machine.now transitions largest looks self.old → ((place : ℕ) → place < length parts.now → AreFew machine.now largest self.old.classes.items (transition_at parts.now place).key)
            → IsPaidFor machine.now transitions largest looks self.new) }
        ensures parted { OnOk result ((classes : List ℕ) → AreLiveParts machine.now.dfa.now classes parts.now → (p q : ℕ) → p ≤ states_of machine.now.dfa.now → q ≤ states_of machine.now.dfa.now
            → class_of self.new.classes.items p ≡ class_of self.new.classes.items q → class_of classes p ≡ class_of classes q) }
    {
        for place in 0..parts.len() {
            self.split(machine, 0, parts.key(place))?;
        }
        Ok(())
    }

    // Parts classes by whether letters lead into a class, which is no longer pending.
    fn part_by_letters<L: Ledger>(
        &mut self,
        machine: &Machine,
        class: u32,
        buffers: &mut Buffers,
        looks: &mut Looks<L>,
    ) -> Result<(), OutOfMemory>
        requires partition { IsPartition machine.now self.old }
        requires outputs { HasOutputs machine.now }
        requires live { 0 < class }
        requires class { class < length self.old.spans.items }
        requires settled { IsSettled machine.now.dfa.now machine.now.outputs.now self.old.classes.items (self.old.pending ++ class ∷ []) }
        ensures partition { OnOk result (IsPartition machine.now self.new) }
        ensures grown { OnOk result (HasGrown self.old self.new) }
        ensures settled { OnOk result (IsSettled machine.now.dfa.now machine.now.outputs.now self.new.classes.items self.new.pending) }
        ensures looks { looks.new ≤ looks.old + class_sum (states_of machine.now.dfa.now) (in_degree self.old.reversed) self.old.classes.items class }
        ensures paid { OnOk result ((transitions largest paid : ℕ) → IsPaidFor machine.now transitions largest paid self.old → class_size (states_of machine.now.dfa.now) self.old.classes.items 0 ≤ largest → IsPaidFor machine.now transitions largest paid self.new) }
    {
        let Buffers {
            transitions,
            sources,
            parts,
        } = buffers;
        let span = self.spans[class as usize];
        let states = &self.states[span.start as usize..span.end as usize];
        sources_by_letter(&self.reversed, states, transitions, sources, looks)?;
        for place in 0..sources.len() {
            self.part(machine, sources.key(place), transitions, parts)?;
        }
        Ok(())
    }

    // Parts classes by whether states are in the set. The buffers may hold anything.
    fn part(
        &mut self,
        machine: &Machine,
        set: &[u32],
        transitions: &mut Vec<Transition>,
        parts: &mut KeyTransitions,
    ) -> Result<(), OutOfMemory>
        requires partition { IsPartition machine.now self.old }
        requires set { IsUnion machine.now.dfa.now machine.now.outputs.now set.now }
        ensures partition { OnOk result (IsPartition machine.now self.new) }
        ensures grown { OnOk result (HasGrown self.old self.new) }
        ensures apart { OnOk result (AreApart self.new.classes.items set.now) }
        ensures paid { OnOk result ((transitions largest looks : ℕ) → IsPaidFor machine.now transitions largest looks self.old → class_size (states_of machine.now.dfa.now) self.old.classes.items 0 ≤ largest → IsPaidFor machine.now transitions largest looks self.new) }
    {
        states_by_class(&self.classes, set, transitions, parts)?;
        for place in 0..parts.len() {
            self.split(machine, parts.letter(place), parts.key(place))?;
        }
        Ok(())
    }

    // Gives those of the states that have the class a new one, unless the class has no others.
    fn split(&mut self, machine: &Machine, class: u32, states: &[u32]) -> Result<(), OutOfMemory>
        requires partition { IsPartition machine.now self.old }
        requires class { class < length self.old.spans.items }
        requires states { IsUnion machine.now.dfa.now machine.now.outputs.now states.now }
        ensures partition { OnOk result (IsPartition machine.now self.new) }
        ensures grown { OnOk result (HasGrown self.old self.new) }
        ensures split { OnOk result (IsSplit self.old self.new class states.now) }
        ensures paid { OnOk result ((transitions largest looks : ℕ) → IsPaidFor machine.now transitions largest looks self.old → (class ≡ 0 → AreFew machine.now largest self.old.classes.items states.now) → IsPaidFor machine.now transitions largest looks self.new) }
    {
        // That states, and so classes, are numbered by 32 bits.
        let _states = machine.dfa.states();
        let count = self.spans.len();
        let ClassSpan { start, end, .. } = self.spans[class as usize];
        let middle = move_to_end(&mut self.states, &mut self.places, start, end, states);
        // None leaves, or all of a class do. All may leave the sink's class, as the sink stays.
        if middle == end || (middle == start && class > 0) {
            return Ok(());
        }
        let leaving = &self.states[middle as usize..end as usize];
        give(&mut self.classes, leaving, count as u32);
        let transitions = transitions_to(&self.reversed, leaving);
        let rest = cut(&mut self.spans, class, middle, transitions)?;
        // Of the sink's class those that leave are pending, of a pending one both parts, and of others the smaller.
        let leave = class == 0 || self.pending.has(class) || transitions <= rest;
        self.pending.push(if leave { count as u32 } else { class })
    }
}

// Cuts a class's span at a place, where one more class begins to which so many of the transitions lead, and gives how
// many are left.
fn cut(
    spans: &mut Vec<ClassSpan>,
    class: u32,
    middle: u32,
    transitions: u32,
) -> Result<u32, OutOfMemory>
    requires { class < length spans.old.items }
    ensures cut { OnOk result (IsCut spans.old.items spans.new.items class middle) }
    ensures counted { IfOk result (IsCountCut spans.old.items spans.new.items class transitions) }
{
    let span = spans[class as usize];
    let rest = span.transitions.saturating_sub(transitions);
    spans[class as usize] = ClassSpan {
        start: span.start,
        end: middle,
        transitions: rest,
    };
    spans.push(ClassSpan {
        start: middle,
        end: span.end,
        transitions,
    })?;
    Ok(rest)
}

// Buffers that are used again.
#[derive(Drop)]
struct Buffers {
    transitions: Vec<Transition>,
    sources: KeyTransitions,
    parts: KeyTransitions,
}

impl Buffers {
    // Empty ones.
    fn new(alloc: Global) -> Self {
        Buffers {
            transitions: Vec::new(alloc),
            sources: KeyTransitions::new(alloc),
            parts: KeyTransitions::new(alloc),
        }
    }
}

// The states of each class but the sink's.
fn live_parts(
    alloc: Global,
    machine: &Machine,
    classes: &[u32],
) -> Result<KeyTransitions, OutOfMemory>
    requires { AreCoarseClasses machine.now.dfa.now machine.now.outputs.now classes.now }
    ensures unions { IfOk result (λ parts. All (λ part. IsUnion machine.now.dfa.now machine.now.outputs.now part.key) parts) }
    ensures parts { IfOk result (AreLiveParts machine.now.dfa.now classes.now) }
{
    // That there are fewer than 2^32 states.
    let _states = machine.dfa.states();
    let states = live_states(alloc, classes)?;
    let mut transitions = Vec::new(alloc);
    let mut parts = KeyTransitions::new(alloc);
    states_by_class(classes, &states, &mut transitions, &mut parts)?;
    Ok(parts)
}

// The states that are not of the sink's class, the last.
fn live_states(alloc: Global, classes: &[u32]) -> Result<Vec<u32>, OutOfMemory>
    requires some { 0 < length classes.now }
    requires small { length classes.now ≤ 2 ^ 32 }
    ensures { IfOk result (λ states. (q : ℕ) → Contains states.items q ↔ ((q < length classes.now) × (class_of classes.now q ≢ class_of classes.now (length classes.now - 1)))) }
{
    let dead = classes[classes.len() - 1];
    let mut states = Vec::new(alloc);
    for place in 0..classes.len() {
        if classes[place] != dead {
            states.push(place as u32)?;
        }
    }
    Ok(states)
}

// Gives the states the class.
fn give(classes: &mut Vec<u32>, states: &[u32], class: u32)
    requires { All (λ q. q < length classes.old.items) states.now }
    ensures { IsGiven classes.old.items classes.new.items states.now class }
{
    for state in states {
        classes[*state as usize] = class;
    }
}

// How many transitions lead to the states.
fn transitions_to(reversed: &ReversedTransitions, states: &[u32]) -> u32
    ensures { sum_by (in_degree reversed.now) states.now < 2 ^ 32 → result ≡ sum_by (in_degree reversed.now) states.now }
{
    let mut transitions: usize = 0;
    for state in states {
        transitions = transitions.saturating_add(reversed.count_to(*state));
    }
    transitions.min(u32::MAX as usize) as u32
}
