//! The states from which transitions lead to some states.

ghost use Rattle.std.specs.Prelude.{◌≡◌, ◌++◌, ◌<◌, length, map, IfOk, IfSome, OnOk};
ghost use Rattle.std.specs.List.{All};
ghost use Rattle.digit_tuple.specs.Automaton as branching;
ghost use Rattle.digit_tuple.specs.Deterministic.{Automaton, states_of};
ghost use Rattle.word_walk.specs.Sources.{AreSources, IsReversed, LeadsBack, targets_from};

use crate::few_states::{FewStates, most_of};
use digit_tuple::dfa::Dfa;
use digit_tuple::faults::OutOfMemory;
use digit_tuple::nfa::Nfa;
use digit_tuple::reversed::reversed;
use digit_tuple::transitions::Transition;
use std::alloc::Global;

/// An automaton reversed, once it was asked for.
#[derive(Drop)]
pub(crate) struct Sources {
    backwards: Option<Nfa>,
}

impl Sources {
    /// Of an automaton that is not reversed yet.
    pub(crate) fn new() -> Self
        ensures { (d : Automaton) → IsReversed d result.backwards }
    {
        Sources { backwards: None }
    }

    /// The states from which transitions lead to some states, or None if there are too many such transitions to be
    /// looked at one by one. The first call reverses the automaton. Then the time follows these transitions.
    pub(crate) fn before(
        &mut self,
        alloc: Global,
        d: &Dfa,
        few: &FewStates,
    ) -> Result<Option<FewStates>, OutOfMemory>
        requires reversed { IsReversed d.now self.old.backwards }
        requires width { length few.now ≡ states_of d.now }
        ensures reversed { IsReversed d.now self.new.backwards }
        ensures sources { IfOk result (λ found. IfSome found (AreSources d.now few.now)) }
    {
        self.reverse(alloc, d)?;
        match &self.backwards {
            Some(backwards) => sources_by(alloc, d, backwards, few),
            None => Ok(None),
        }
    }

    // Reverses the automaton, unless that is done.
    fn reverse(&mut self, alloc: Global, d: &Dfa) -> Result<(), OutOfMemory>
        requires { IsReversed d.now self.old.backwards }
        ensures { IsReversed d.now self.new.backwards }
    {
        if self.backwards.is_none() {
            // That transitions lead to states.
            let _states = d.states();
            self.backwards = Some(reversed(alloc, d)?);
        }
        Ok(())
    }
}

// The same by the reversed automaton.
fn sources_by(
    alloc: Global,
    d: &Dfa,
    backwards: &Nfa,
    few: &FewStates,
) -> Result<Option<FewStates>, OutOfMemory>
    requires backwards { LeadsBack d.now backwards.now }
    requires width { length few.now ≡ states_of d.now }
    ensures { IfOk result (λ found. IfSome found (AreSources d.now few.now)) }
{
    let count = d.states();
    match targets_from(alloc, backwards, few.states(), most_of(count))? {
        Some(sources) => Ok(Some(FewStates::of_list(count, sources))),
        None => Ok(None),
    }
}

// The states that transitions lead to from some states, one for each transition, or None if there are more than a
// number.
fn targets_from(
    alloc: Global,
    n: &Nfa,
    states: &[u32],
    most: usize,
) -> Result<Option<Vec<u32>>, OutOfMemory>
    requires { All (λ state. state < branching.states_of n.now) states.now }
    ensures { IfOk result (λ found. IfSome found (λ targets. targets.items ≡ targets_from n.now states.now)) }
{
    let mut targets = Vec::new(alloc);
    for state in states {
        let row = n.transitions(*state);
        if row.len() > most - targets.len() {
            return Ok(None);
        }
        push_targets(row, &mut targets)?;
    }
    Ok(Some(targets))
}

// Adds the states that the transitions lead to.
fn push_targets(row: &[Transition], targets: &mut Vec<u32>) -> Result<(), OutOfMemory>
    ensures { OnOk result (targets.new.items ≡ targets.old.items ++ map (λ transition. transition.target) row.now) }
{
    for transition in row {
        targets.push(transition.target)?;
    }
    Ok(())
}
