//! The graph of the pairs of states that words lead to without their trailing zeros and with them.

ghost use Rattle.std.specs.Prelude.{◌≡◌, ◌++◌, slice_index, IfOk, OnOk};
ghost use Rattle.digit_tuple.specs.Deterministic.{IsTable, transitions_of, letters_of};
ghost use Rattle.residual_classes.specs.Classes.{first_of};
ghost use Rattle.pad_rename.specs.PaddedPairs.{IsPair, twice, pair_after, transitions_by_zero, transitions_by_others, first_is_pair, pair_after_is_pair};
ghost use Rattle.pad_rename.specs.ZeroClosure.{flag_at};

use digit_tuple::dfa::Dfa;
use digit_tuple::faults::OutOfMemory;
use digit_tuple::key_graph::KeyGraph;
use digit_tuple::key_transitions::KeyTransitions;
use digit_tuple::transitions::Transition;
use minimise::sink::{initial_state, next_state};
use std::alloc::Global;

/// The pairs of states that words lead to without their trailing zeros and with them, how many letters
/// there are, and a flag for each state: a pair accepts by that of its first state. Words that lead to
/// two sinks lead to no key.
#[derive(Clone, Copy)]
pub struct PaddedPairs<'a> {
    pub dfa: &'a Dfa,
    pub flags: &'a [bool],
    pub letters: u32,
}

impl KeyGraph for PaddedPairs<'_> {
    ghost letters = { λ s. s.letters };

    ghost is_graph = { λ s. IsTable (letters_of s.dfa.now) s.dfa.now.states × (s.letters ≡ letters_of s.dfa.now) };

    ghost is_key = { λ s. IsPair s.dfa.now };

    ghost start = { λ s. twice (first_of s.dfa.now) };

    ghost after = { λ s. pair_after s.dfa.now };

    ghost accepts = { λ s key. flag_at s.flags.now (slice_index key 0) };

    ghost start_is_key = { λ s graph. first_is_pair s.dfa.now };

    ghost after_is_key = { λ s key letter graph is_pair small. pair_after_is_pair s.dfa.now graph.0 key letter is_pair };

    fn first_key(&self, alloc: Global) -> Result<Vec<u32>, OutOfMemory> {
        let state = initial_state(self.dfa);
        Ok(Vec::from_slice(alloc, &[state, state])?)
    }

    fn transitions(
        &self,
        alloc: Global,
        key: &[u32],
        out: &mut KeyTransitions,
    ) -> Result<(), OutOfMemory> {
        push_by_zero(self.dfa, self.letters, key, out)?;
        let row = row_of(alloc, self.dfa, key[1])?;
        push_by_others(&row, out)
    }

    fn is_accepting(&self, key: &[u32]) -> bool {
        let stripped = key[0] as usize;
        stripped < self.flags.len() && self.flags[stripped]
    }
}

// Adds the transition from a pair by the zero letter: zeros may be trailing ones.
fn push_by_zero(
    d: &Dfa,
    letters: u32,
    key: &[u32],
    out: &mut KeyTransitions,
) -> Result<(), OutOfMemory>
    requires { IsPair d.now key.now }
    ensures { OnOk result (out.new ≡ out.old ++ transitions_by_zero d.now letters key.now) }
{
    if letters == 0 {
        return Ok(());
    }
    let sink = d.states();
    let whole = next_state(d, key[1], 0);
    if key[0] == sink && whole == sink {
        return Ok(());
    }
    out.push(0, &[key[0], whole])
}

// Adds the transitions from a pair by the other letters, after which no zeros trail.
fn push_by_others(row: &[Transition], out: &mut KeyTransitions) -> Result<(), OutOfMemory>
    ensures { OnOk result (out.new ≡ out.old ++ transitions_by_others row.now) }
{
    for transition in row {
        if transition.letter != 0 {
            out.push(transition.letter, &[transition.target, transition.target])?;
        }
    }
    Ok(())
}

// The transitions of a state, of which the sink has none.
fn row_of(alloc: Global, d: &Dfa, state: u32) -> Result<Vec<Transition>, OutOfMemory>
    ensures { IfOk result (λ row. row.items ≡ transitions_of d.now state) }
{
    let mut row = Vec::new(alloc);
    if state < d.states() {
        d.transitions_into(state, &mut row)?;
    }
    Ok(row)
}
