//! The states from which a word of one length is accepted.

ghost use Rattle.std.specs.Prelude.{◌≡◌, ℕ, suc, ◌<◌, false, length, slice_index_or, IfOk};
ghost use Rattle.std.specs.List.{All, list_any};
ghost use Rattle.digit_tuple.specs.Deterministic.{states_of};
ghost use Rattle.word_walk.specs.Levels.{IsLevel};
ghost use Rattle.word_walk.specs.Sources.{AreSources, IsReversed};

use crate::few_states::FewStates;
use crate::sources::Sources;
use digit_tuple::accepting_states::accepting_flags;
use digit_tuple::dfa::Dfa;
use digit_tuple::faults::OutOfMemory;
use digit_tuple::transitions::Transition;
use std::alloc::Global;
use std::marker::Model;

/// For each state of an automaton whether a word of one length is accepted from it.
#[derive(Drop)]
pub(crate) struct Level {
    states: LevelStates,
}

// The states from which one is: a list where they are few, else a flag for each state.
#[derive(Drop)]
enum LevelStates {
    Few(FewStates),
    Flags(Vec<bool>),
}

impl Model for Level {
    ghost use Rattle.std.specs.Prelude.{Bool, List};
    ghost use Rattle.word_walk.specs.LevelStates.{flags_in};

    ghost Value = { List Bool };

    ghost view = { λ level. flags_in level.states };
}

impl Level {
    /// The level of the empty word.
    pub(crate) fn first(alloc: Global, d: &Dfa) -> Result<Self, OutOfMemory>
        ensures { IfOk result (IsLevel d.now 0) }
    {
        Level::of_flags(alloc, d.states(), accepting_flags(alloc, d)?)
    }

    /// The level of the words that are longer by one letter. Where few states live it looks at the transitions that lead
    /// to them, if those are few too, else at each transition.
    pub(crate) fn next(
        &self,
        alloc: Global,
        d: &Dfa,
        sources: &mut Sources,
    ) -> Result<Self, OutOfMemory>
        requires width { length self.now ≡ states_of d.now }
        requires reversed { IsReversed d.now sources.old.backwards }
        ensures reversed { IsReversed d.now sources.new.backwards }
        ensures next { IfOk result (λ level. (m : ℕ) → IsLevel d.now m self.now → IsLevel d.now (suc m) level) }
    {
        // That transitions lead to states.
        let _states = d.states();
        match &self.states {
            LevelStates::Few(few) => match sources.before(alloc, d, few)? {
                Some(states) => Ok(Level {
                    states: LevelStates::Few(states),
                }),
                None => Level::before(alloc, d, &few.flags(alloc)?),
            },
            LevelStates::Flags(flags) => Level::before(alloc, d, flags),
        }
    }

    // The states from which a transition leads to a state with a flag. It looks at each transition.
    fn before(alloc: Global, d: &Dfa, flags: &[bool]) -> Result<Self, OutOfMemory>
        requires { length flags.now ≡ states_of d.now }
        ensures { IfOk result (AreSources d.now flags.now) }
    {
        let states = d.states();
        let mut sources = Vec::with_capacity(alloc, states as usize)?;
        let mut row = Vec::new(alloc);
        for state in 0..states {
            d.transitions_into(state, &mut row)?;
            sources.push(leads_on(flags, &row))?;
        }
        Level::of_flags(alloc, states, sources)
    }

    // The states with a flag.
    fn of_flags(alloc: Global, count: u32, flags: Vec<bool>) -> Result<Self, OutOfMemory>
        requires { length flags.items ≡ count }
        ensures { IfOk result (λ level. level ≡ flags.items) }
    {
        match FewStates::of_flags(alloc, count, &flags)? {
            Some(few) => Ok(Level {
                states: LevelStates::Few(few),
            }),
            None => Ok(Level {
                states: LevelStates::Flags(flags),
            }),
        }
    }

    /// Whether a word of the length is accepted from the state.
    pub(crate) fn lives(&self, state: u32) -> bool
        requires { state < length self.now }
        ensures { result ≡ slice_index_or self.now state false }
    {
        match &self.states {
            LevelStates::Few(few) => few.has(state),
            LevelStates::Flags(flags) => flags[state as usize],
        }
    }

    /// Whether one is accepted from some state.
    pub(crate) fn has_any(&self) -> bool
        ensures { result ≡ list_any (λ live. live) self.now }
    {
        match &self.states {
            LevelStates::Few(few) => few.has_any(),
            LevelStates::Flags(flags) => flags.iter().any(|live| *live),
        }
    }
}

// Whether some transition leads to a state with a flag.
fn leads_on(flags: &[bool], row: &[Transition]) -> bool
    requires { All (λ transition. transition.target < length flags.now) row.now }
    ensures { result ≡ list_any (λ transition. slice_index_or flags.now transition.target false) row.now }
{
    for transition in row {
        if flags[transition.target as usize] {
            return true;
        }
    }
    false
}
