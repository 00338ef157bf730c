//! States of an automaton whose missing transitions lead to its sink, the number past the states.

ghost use Rattle.std.specs.Prelude.{◌≡◌};
ghost use Rattle.digit_tuple.specs.Deterministic.{accepting_of};
ghost use Rattle.residual_classes.specs.Classes.{next_of, first_of};

use digit_tuple::dfa::Dfa;

/// The initial state, or the sink where a canonical automaton accepts no word.
pub fn initial_state(dfa: &Dfa) -> u32
    ensures { result ≡ first_of dfa.now }
{
    let states = dfa.states();
    if !dfa.accepting(0) && dfa.is_bare(0) {
        states
    } else {
        0
    }
}

/// Where a letter leads from a state or the sink.
pub fn next_state(dfa: &Dfa, state: u32, letter: u32) -> u32
    ensures { result ≡ next_of dfa.now state letter }
{
    let states = dfa.states();
    if state < states {
        dfa.step(state, letter).unwrap_or(states)
    } else {
        states
    }
}

/// Whether a state accepts; the sink doesn't.
pub fn is_accepting(dfa: &Dfa, state: u32) -> bool
    ensures { result ≡ accepting_of dfa.now state }
{
    state < dfa.states() && dfa.accepting(state)
}
