//! Deterministic automata.

ghost use Rattle.std.specs.Prelude.{◌≡◌, ℕ, ◌*◌, ◌<◌, ◌≤◌, ◌↔◌, [], length, IfOk, IfSome, IsTrue, OnOk};
ghost use Rattle.digit_tuple.specs.Deterministic.{Automaton, State, IsTable, IsRow, step_of, accepting_of, accepts_of, transitions_of, state_of, states_of, letters_of};
ghost use Rattle.digit_tuple.specs.Letters.{product};
ghost use Rattle.digit_tuple.specs.DfaRows.{states_in, flagged};
ghost use Rattle.digit_tuple.specs.TransitionCounts.{transition_count, cell_count};
ghost use Rattle.digit_tuple.specs.Reflagged.{IsReflagged};

use crate::alphabet::Alphabet;
use crate::dense::Dense;
use crate::faults::OutOfMemory;
use crate::growing_dfa::GrowingDfa;
use crate::sparse_rows::SparseRows;
use crate::table::{Table, accepts_by};
use crate::transitions::Transition;
use std::alloc::Global;
use std::marker::Model;

/// A state: whether it accepts, and its transitions.
#[derive(Drop)]
pub struct DfaState {
    pub accepting: bool,
    pub transitions: Vec<Transition>,
}

/// A deterministic automaton, whose initial state is 0. There is a state, there are fewer than 2^32, and the
/// transitions of each are by letters of the alphabet, lead to states, and are sorted by letter, at most one by each.
/// Where there is no transition by a letter, no word that goes on with it is accepted. The transitions of a state are
/// kept by their digits, track by track, so a missing letter takes no place.
pub struct Dfa {
    flags: Vec<bool>,
    table: SparseRows,
}

impl Model for Dfa {
    ghost use Rattle.std.specs.Prelude.{◌≡◌, length};
    ghost use Rattle.digit_tuple.specs.Deterministic.{Automaton, IsTable};
    ghost use Rattle.digit_tuple.specs.Letters.{product};
    ghost use Rattle.digit_tuple.specs.DfaRows.{flagged};

    ghost Value = { Automaton };

    ghost view = { λ d. record { sizes = d.table.sizes; states = flagged d.flags.items d.table.rows } };

    ghost invariant = { λ d. (length d.flags.items ≡ length d.table.rows) × IsTable (product d.table.sizes) (flagged d.flags.items d.table.rows) };
}

impl Drop for Dfa {
    fn drop(self) {
        let Dfa {
            flags: _flags,
            table: _table,
        } = self;
    }
}

impl Dfa {
    /// The automaton with these states.
    pub fn from_states(
        alloc: Global,
        alphabet: Alphabet,
        states: Vec<DfaState>,
    ) -> Result<Self, OutOfMemory>
        requires { IsTable (product alphabet) (states_in states.items) }
        ensures { IfOk result (λ dfa. dfa ≡ record { sizes = alphabet; states = states_in states.items }) }
    {
        Dfa::of_dense(alloc, &Dense::from_states(alphabet, states))
    }

    /// The automaton of a dense table: its states are the same, so are the runs and the words.
    pub fn of_dense(alloc: Global, dense: &Dense) -> Result<Self, OutOfMemory>
        ensures { IfOk result (λ dfa. dfa ≡ dense.now) }
    {
        let mut states = GrowingDfa::new(alloc, dense.alphabet().copy(alloc)?)?;
        for state in 0..dense.states() {
            states.add_state(dense.accepting(state), dense.transitions(state))?;
        }
        Ok(states.finish())
    }

    // The automaton whose states accept as the flags say and have these rows.
    pub(crate) fn of_rows(flags: Vec<bool>, table: SparseRows) -> Self
        requires count { length flags.items ≡ length table.rows }
        requires table { IsTable (product table.sizes) (flagged flags.items table.rows) }
        ensures { result ≡ record { sizes = table.sizes; states = flagged flags.items table.rows } }
    {
        Dfa { flags, table }
    }

    /// How many states there are.
    pub fn states(&self) -> u32
        ensures value { result ≡ states_of self.now }
        ensures table { IsTable (letters_of self.now) self.now.states }
    {
        self.flags.len() as u32
    }

    /// How many transitions there are.
    pub fn transitions(&self) -> u64
        ensures { result ≡ transition_count self.now }
    {
        self.table.transitions()
    }

    /// How many digits of transitions there are, each with what it leads to: on each track one for each digit by which
    /// a transition of a state goes on, after the same digits on the tracks before. Where there is no track there is
    /// none. At most so many are kept, but for the last rows, which keep one for each transition.
    pub fn cells(&self) -> u64
        ensures count { result ≡ cell_count self.now }
        ensures few { cell_count self.now ≤ length self.now.sizes * transition_count self.now }
    {
        // That there are no more than 65,536 letters.
        let _letters = self.alphabet().letters();
        self.table.cells()
    }

    /// The alphabet of its letters.
    pub fn alphabet(&self) -> &Alphabet
        ensures sizes { result.now ≡ self.now.sizes }
        ensures table { IsTable (letters_of self.now) self.now.states }
    {
        self.table.alphabet()
    }

    /// Whether a state accepts.
    pub fn accepting(&self, state: u32) -> bool
        requires { state < states_of self.now }
        ensures accepting { result ≡ accepting_of self.now state }
        ensures table { IsTable (letters_of self.now) self.now.states }
    {
        self.flags[state as usize]
    }

    /// Writes the transitions of a state, by letter, in place of what the row held.
    pub fn transitions_into(&self, state: u32, row: &mut Vec<Transition>) -> Result<(), OutOfMemory>
        requires { state < states_of self.now }
        ensures transitions { OnOk result (row.new.items ≡ transitions_of self.now state) }
        ensures row { OnOk result (IsRow (letters_of self.now) (states_of self.now) row.new.items) }
        ensures table { IsTable (letters_of self.now) self.now.states }
    {
        self.table.row_into(state, row)
    }

    /// Whether no letter leads on from a state.
    pub fn is_bare(&self, state: u32) -> bool
        requires { state < states_of self.now }
        ensures { IsTrue result ↔ (transitions_of self.now state ≡ []) }
    {
        self.table.is_bare(state)
    }

    /// Whether the state is the same in both automata.
    pub fn is_same_state(&self, other: &Dfa, state: u32) -> bool
        requires first { state < states_of self.now }
        requires second { state < states_of other.now }
        ensures { IsTrue result ↔ (state_of self.now state ≡ state_of other.now state) }
    {
        self.accepting(state) == other.accepting(state)
            && self.table.is_same_row(state, &other.table, state)
    }

    /// Where a letter leads from a state, unless it leads nowhere.
    pub fn step(&self, state: u32, letter: u32) -> Option<u32>
        requires { state < states_of self.now }
        ensures target { result ≡ step_of self.now state letter }
        ensures in_range { IfSome result (λ next. next < states_of self.now) }
    {
        self.table.step(state, letter)
    }

    /// Whether the automaton accepts the word.
    pub fn accepts(&self, word: &[u32]) -> bool
        ensures { result ≡ accepts_of self.now word.now }
    {
        accepts_by(self, word)
    }

    /// The automaton with the same transitions in which the states that the flags say accept, and no others. There is a
    /// flag for each state. It takes no memory.
    pub fn with_accepting(mut self, flags: &[bool]) -> Self
        requires { length flags.now ≡ states_of self }
        ensures { IsReflagged flags.now self result }
    {
        self.flags.copy_from_slice(flags);
        self
    }

    /// The same automaton, in memory of its own.
    pub fn copy(&self, alloc: Global) -> Result<Self, OutOfMemory>
        ensures { IfOk result (λ dfa. dfa ≡ self.now) }
    {
        let flags = Vec::from_slice(alloc, &self.flags)?;
        Ok(Dfa::of_rows(flags, self.table.copy(alloc)?))
    }
}

impl Table for Dfa {
    ghost letter_count = { λ d. letters_of d };

    ghost state_count = { λ d. states_of d };

    ghost target = { λ d q letter. step_of d q letter };

    ghost accepts = { λ d q. accepting_of d q };

    fn letters(&self) -> u32 {
        self.table.alphabet().letters()
    }

    fn states(&self) -> u32 {
        Dfa::states(self)
    }

    fn step(&self, q: u32, letter: u32) -> Option<u32> {
        Dfa::step(self, q, letter)
    }

    fn accepting(&self, q: u32) -> bool {
        Dfa::accepting(self, q)
    }
}
