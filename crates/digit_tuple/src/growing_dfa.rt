//! Deterministic automata that grow by whole states.

ghost use Rattle.std.specs.Prelude.{◌≡◌, ℕ, ◌<◌, ◌++◌, ◌∷◌, [], length, IfOk, OnOk};
ghost use Rattle.std.specs.List.{All, AllPairs};
ghost use Rattle.digit_tuple.specs.Deterministic.{Automaton, IsTable, IsByEarlier, letters_of};
ghost use Rattle.digit_tuple.specs.DfaRows.{flagged};

use crate::alphabet::Alphabet;
use crate::dfa::Dfa;
use crate::faults::OutOfMemory;
use crate::sparse_rows::SparseRows;
use crate::transitions::Transition;
use std::alloc::Global;
use std::marker::Model;

// For how many states there is memory at first.
const INITIAL_STATES: usize = 32;

// Up to so many states memory that is not in use is kept.
const MANY_STATES: usize = 1024;

/// The first states of a deterministic automaton, in the form that it is kept in. Their transitions may lead to states
/// that are still to come.
pub(crate) struct GrowingDfa {
    flags: Vec<bool>,
    table: SparseRows,
}

impl Model for GrowingDfa {
    ghost use Rattle.std.specs.Prelude.{◌≡◌, length};
    ghost use Rattle.digit_tuple.specs.Deterministic.{Automaton};
    ghost use Rattle.digit_tuple.specs.DfaRows.{flagged};

    ghost Value = { Automaton };

    ghost view = { λ g. record { sizes = g.table.sizes; states = flagged g.flags.items g.table.rows } };

    ghost invariant = { λ g. length g.flags.items ≡ length g.table.rows };
}

impl Drop for GrowingDfa {
    fn drop(self) {
        let GrowingDfa {
            flags: _flags,
            table: _table,
        } = self;
    }
}

impl GrowingDfa {
    /// No states yet.
    pub(crate) fn new(alloc: Global, alphabet: Alphabet) -> Result<Self, OutOfMemory>
        ensures { IfOk result (λ states. states ≡ record { sizes = alphabet; states = [] }) }
    {
        Ok(GrowingDfa {
            flags: Vec::with_capacity(alloc, INITIAL_STATES)?,
            table: SparseRows::new(alloc, alphabet)?,
        })
    }

    /// How many states there are.
    pub(crate) fn len(&self) -> usize
        ensures { result ≡ length self.now.states }
    {
        self.flags.len()
    }

    /// Adds a state of these transitions. What a refused call leaves is of no use.
    pub(crate) fn add_state(
        &mut self,
        accepting: bool,
        transitions: &[Transition],
    ) -> Result<(), OutOfMemory>
        requires in_range { All (λ transition. transition.letter < letters_of self.old) transitions.now }
        requires ascending { AllPairs IsByEarlier transitions.now }
        ensures { OnOk result (self.new ≡ record { sizes = self.old.sizes; states = self.old.states ++ (record { accepting = accepting; transitions = transitions.now }) ∷ [] }) }
    {
        self.flags.push(accepting)?;
        if let Err(fault) = self.table.add_row(transitions) {
            self.flags.clear();
            return Err(fault);
        }
        Ok(())
    }

    /// The automaton of the states. Where there are many, memory that is not in use is given back.
    pub(crate) fn finish(self) -> Dfa
        requires { IsTable (letters_of self) self.states }
        ensures { result ≡ self }
    {
        let GrowingDfa {
            mut flags,
            mut table,
        } = self;
        if flags.len() > MANY_STATES {
            flags.shrink_to_fit();
            table.shrink_to_fit();
        }
        Dfa::of_rows(flags, table)
    }
}
