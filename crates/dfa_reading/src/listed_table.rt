//! The deterministic automaton of a functional list.

ghost use Rattle.std.specs.Prelude.{◌≡◌, ◌<◌, length, IfOk, OnOk};
ghost use Rattle.std.specs.Result.{IsErrOf};
ghost use Rattle.digit_tuple.specs.Deterministic.{IsTable, letters_of};
ghost use Rattle.digit_tuple.specs.DfaRows.{state_in, states_in};
ghost use Rattle.digit_tuple.specs.Letters.{IsAlphabet, IsTooLarge};
ghost use Rattle.digit_tuple.specs.Rows.{branch_in, branches_in};
ghost use Rattle.dfa_reading.specs.Branching.{sizes_in, AreGiven};
ghost use Rattle.dfa_reading.specs.BranchRows.{state_of_row, states_of_rows};
ghost use Rattle.dfa_reading.specs.ListedTable.{IsTableOf};
ghost use Rattle.dfa_reading.specs.WordFiles.{IsFunctional};

use crate::branching::{alphabet, rows};
use crate::listed::Listed;
use digit_tuple::dfa::{Dfa, DfaState};
use digit_tuple::faults::{OpFault, OutOfMemory};
use digit_tuple::transitions::NfaState;
use std::alloc::Global;

impl Listed {
    /// The deterministic automaton with the listed states in their order, each accepting, over the letters of the tracks, where a
    /// tuple leads from a state to one state at most, as `read_word` sees to. `digits` gives how many digits each system of the
    /// header has; for a header of sets it is not read. `*` is each digit of its track, and a line with a digit outside its track
    /// is in no transition. There is a state, so the file is not `true` or `false`. The time is in proportion to the transitions,
    /// but for sorting them.
    ///
    /// # Errors
    /// `Letters` comes if and only if there are more than 16 tracks or more than 65,536 letters, and `States` never. A file
    /// of 2^32 states or more is answered by out of memory.
    pub fn table(&self, alloc: Global, digits: &[u32]) -> Result<Dfa, OpFault>
        requires states { 0 < length self.now.outputs }
        requires given { AreGiven self.now.header digits.now }
        requires functional { IsFunctional (sizes_in self.now.header digits.now) self.now }
        ensures table_of { IfOk result (IsTableOf (sizes_in self.now.header digits.now) self.now) }
        ensures table { IfOk result (λ dfa. IsTable (letters_of dfa) dfa.states) }
        ensures fits { OnOk result (IsAlphabet (sizes_in self.now.header digits.now)) }
        ensures too_large { IsErrOf result OpFault.Letters → IsTooLarge (sizes_in self.now.header digits.now) }
        ensures states { ¬ IsErrOf result OpFault.States }
    {
        let alphabet = alphabet(alloc, self.header(), digits)?;
        let rows = rows(alloc, &alphabet, self)?;
        let states = states(alloc, rows)?;
        Ok(Dfa::from_states(alloc, alphabet, states)?)
    }
}

// The states with the transitions of the rows.
fn states(alloc: Global, rows: Vec<NfaState>) -> Result<Vec<DfaState>, OutOfMemory>
    ensures { IfOk result (λ states. states_in states.items ≡ states_of_rows (branches_in rows.items)) }
{
    let mut states = Vec::with_capacity(alloc, rows.len())?;
    for row in rows {
        states.push(state(row))?;
    }
    Ok(states)
}

// The state with the transitions of a row.
fn state(row: NfaState) -> DfaState
    ensures { state_in result ≡ state_of_row (branch_in row) }
{
    let NfaState {
        accepting: _,
        transitions,
    } = row;
    DfaState {
        accepting: true,
        transitions,
    }
}
