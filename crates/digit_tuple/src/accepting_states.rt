//! The accepting states of a deterministic automaton.

ghost use Rattle.std.specs.Prelude.{◌≡◌, ℕ, Bool, false, length, slice_index_or, IfOk};
ghost use Rattle.digit_tuple.specs.Deterministic.{accepting_of, states_of};
ghost use Rattle.digit_tuple.specs.AcceptingStates.{AreAccepting};

use crate::dfa::Dfa;
use crate::faults::OutOfMemory;
use std::alloc::Global;

/// The states that accept, in order.
pub fn accepting_states(alloc: Global, d: &Dfa) -> Result<Vec<u32>, OutOfMemory>
    ensures { IfOk result (λ set. AreAccepting d.now set.items) }
{
    let mut set = Vec::new(alloc);
    for state in 0..d.states() {
        if d.accepting(state) {
            set.push(state)?;
        }
    }
    Ok(set)
}

/// For each state whether it accepts.
pub fn accepting_flags(alloc: Global, d: &Dfa) -> Result<Vec<bool>, OutOfMemory>
    ensures size { IfOk result (λ flags. length flags.items ≡ states_of d.now) }
    ensures flags { IfOk result (λ flags. (q : ℕ) → slice_index_or flags.items q false ≡ accepting_of d.now q) }
{
    let states = d.states();
    let mut flags = Vec::with_capacity(alloc, states as usize)?;
    for state in 0..states {
        flags.push(d.accepting(state))?;
    }
    Ok(flags)
}
