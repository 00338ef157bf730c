//! Where letters lead from all states of an automaton, in one table.

ghost use Rattle.std.specs.Prelude.{◌≡◌, ◌<◌, ℕ, length, IfOk, IfSome, slice_index, unwrap_or};
ghost use Rattle.std.specs.List.{All, AllPairs};
ghost use Rattle.digit_tuple.specs.Deterministic.{IsByEarlier, target_by};
ghost use Rattle.product_op.specs.NextTables.{all_rows, next_list};

use digit_tuple::dfa::Dfa;
use digit_tuple::faults::OutOfMemory;
use digit_tuple::transitions::Transition;
use std::alloc::Global;
use std::marker::Model;

// So many targets are kept at any rate, in 256 KiB.
const FREE_TARGETS: u64 = 65_536;

/// An automaton, and where each letter leads from each of its states and from its sink, if that takes little memory.
#[derive(Drop)]
pub struct NextTable<'a> {
    dfa: &'a Dfa,
    // Where the letters lead from each state and last from the sink, or nothing.
    next: Vec<u32>,
}

impl<'a> Model for NextTable<'a> {
    ghost use Rattle.digit_tuple.specs.Deterministic.{Automaton};
    ghost use Rattle.product_op.specs.NextTables.{IsKept};

    ghost Value = { Automaton };

    ghost view = { λ t. t.dfa.now };

    ghost invariant = { λ t. IsKept t.dfa.now t.next.items };
}

impl<'a> NextTable<'a> {
    /// The automaton, with where its letters lead if that takes at most 256 KiB, or if at least half of them lead
    /// on: then time and memory follow the states and the letters.
    pub fn new(alloc: Global, dfa: &'a Dfa) -> Result<Self, OutOfMemory>
        ensures { IfOk result (λ table. table ≡ dfa.now) }
    {
        let next = if is_kept(dfa) {
            all_rows(alloc, dfa)?
        } else {
            Vec::new(alloc)
        };
        Ok(NextTable { dfa, next })
    }

    /// The automaton.
    pub fn dfa(&self) -> &'a Dfa
        ensures { result.now ≡ self.now }
    {
        self.dfa
    }

    /// Where each letter leads from a state, if that is kept. A number past the states is the sink.
    pub fn row(&self, state: u32) -> Option<&[u32]>
        ensures { IfSome result (λ row. row.now ≡ next_list self.now state) }
    {
        if self.next.is_empty() {
            return None;
        }
        let letters = self.dfa.alphabet().letters() as usize;
        let start = state.min(self.dfa.states()) as usize * letters;
        Some(&self.next[start..start + letters])
    }
}

// Whether that is little memory, or at least half of the letters lead on.
fn is_kept(dfa: &Dfa) -> bool {
    let targets = (u64::from(dfa.states()) + 1) * u64::from(dfa.alphabet().letters());
    targets <= FREE_TARGETS || targets / 2 <= dfa.transitions()
}

// Where each letter leads from each state and last from the sink.
fn all_rows(alloc: Global, dfa: &Dfa) -> Result<Vec<u32>, OutOfMemory>
    ensures { IfOk result (λ next. next.items ≡ all_rows dfa.now) }
{
    let rows = dfa.states() as usize + 1;
    let letters = dfa.alphabet().letters() as usize;
    let mut next = Vec::with_capacity(alloc, rows * letters)?;
    let mut transitions = Vec::new(alloc);
    for state in 0..rows {
        let row = next_row(alloc, dfa, state as u32, &mut transitions)?;
        next.extend_from_slice(&row)?;
    }
    Ok(next)
}

/// Where each letter leads from a state. A number past the states is the sink. The transitions are written over.
pub fn next_row(
    alloc: Global,
    dfa: &Dfa,
    state: u32,
    transitions: &mut Vec<Transition>,
) -> Result<Vec<u32>, OutOfMemory>
    ensures { IfOk result (λ next. next.items ≡ next_list dfa.now state) }
{
    let letters = dfa.alphabet().letters() as usize;
    let sink = dfa.states();
    let mut next = vec![in alloc; sink; letters]?;
    if state < sink {
        dfa.transitions_into(state, transitions)?;
        write_targets(transitions, &mut next);
    }
    Ok(next)
}

// Writes where each transition leads, at the place of its letter.
fn write_targets(transitions: &[Transition], next: &mut [u32])
    requires within { All (λ transition. transition.letter < length next.old) transitions.now }
    requires ascending { AllPairs IsByEarlier transitions.now }
    ensures { (letter : ℕ) → slice_index next.new letter ≡ unwrap_or (target_by transitions.now letter) (slice_index next.old letter) }
{
    for transition in transitions {
        next[transition.letter as usize] = transition.target;
    }
}
