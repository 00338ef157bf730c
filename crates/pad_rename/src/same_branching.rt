//! Deterministic automata seen as nondeterministic ones.

ghost use Rattle.std.specs.Prelude.{◌≡◌, IfOk};
ghost use Rattle.pad_rename.specs.SameBranching.{branching_as};

use digit_tuple::dfa::Dfa;
use digit_tuple::faults::OutOfMemory;
use digit_tuple::nfa::Nfa;
use digit_tuple::transitions::NfaState;
use std::alloc::Global;

/// The same automaton, as a nondeterministic one.
pub fn same_branching(alloc: Global, d: &Dfa) -> Result<Nfa, OutOfMemory>
    ensures { IfOk result (λ nfa. nfa ≡ branching_as d.now) }
{
    let states = d.states();
    let mut rows = Vec::with_capacity(alloc, states as usize)?;
    for state in 0..states {
        let mut transitions = Vec::new(alloc);
        d.transitions_into(state, &mut transitions)?;
        rows.push(NfaState {
            accepting: d.accepting(state),
            transitions,
        })?;
    }
    let alphabet = d.alphabet().copy(alloc)?;
    Nfa::from_states(alloc, alphabet, rows)
}
