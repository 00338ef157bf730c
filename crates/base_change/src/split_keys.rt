//! The keys of the step `split`.

ghost use Rattle.std.specs.Prelude.{◌≡◌, ◌<◌, ◌∷◌, [], OnOk, false};
ghost use Rattle.residual_classes.specs.Classes.{first_of};
ghost use Rattle.base_change.specs.GroupKeys.{AreGroups, IsGroupKey, first_is_key, split_after, split_after_is_key, split_next};

use crate::digits::number_of;
use digit_tuple::dfa::Dfa;
use digit_tuple::faults::OutOfMemory;
use digit_tuple::key_graph::KeyGraph;
use digit_tuple::key_transitions::KeyTransitions;
use minimise::sink::{initial_state, next_state};
use std::alloc::Global;

/// A key is the state that the whole groups of digits lead to, which may be the sink, and the digits after them: an
/// automaton over base `root ^ digits` reads each group of so many digits in base `root` as one digit.
#[derive(Clone, Copy)]
pub struct SplitKeys<'a> {
    pub dfa: &'a Dfa,
    pub root: u32,
    pub digits: u32,
}

impl KeyGraph for SplitKeys<'_> {
    ghost letters = { λ s. s.root };

    ghost is_graph = { λ s. AreGroups s.dfa.now s.root s.digits };

    ghost is_key = { λ s. IsGroupKey s.dfa.now s.root s.digits };

    ghost start = { λ s. first_of s.dfa.now ∷ [] };

    ghost after = { λ s. split_after s.dfa.now s.root s.digits };

    ghost accepts = { λ s key. false };

    ghost start_is_key = { λ s graph. first_is_key s.dfa.now s.root s.digits graph.some };

    ghost after_is_key = { λ s key letter graph is small. split_after_is_key s.dfa.now s.root s.digits graph key letter is small };

    fn first_key(&self, alloc: Global) -> Result<Vec<u32>, OutOfMemory> {
        Ok(Vec::from_slice(alloc, &[initial_state(self.dfa)])?)
    }

    fn transitions(
        &self,
        alloc: Global,
        key: &[u32],
        out: &mut KeyTransitions,
    ) -> Result<(), OutOfMemory> {
        let mut next = out.take_spare(alloc);
        for digit in 0..self.root {
            write_next(self, key, digit, &mut next)?;
            out.push(digit, &next)?;
        }
        out.give_spare(next);
        Ok(())
    }

    fn is_accepting(&self, _key: &[u32]) -> bool {
        false
    }
}

// Writes the key that a digit leads to in place of what the list held.
fn write_next(
    keys: &SplitKeys<'_>,
    key: &[u32],
    digit: u32,
    next: &mut Vec<u32>,
) -> Result<(), OutOfMemory>
    requires groups { AreGroups keys.now.dfa.now keys.now.root keys.now.digits }
    requires key { IsGroupKey keys.now.dfa.now keys.now.root keys.now.digits key.now }
    requires digit { digit < keys.now.root }
    ensures { OnOk result (next.new.items ≡ split_next keys.now.dfa.now keys.now.root keys.now.digits key.now digit) }
{
    next.clear();
    next.extend_from_slice(key)?;
    next.push(digit)?;
    if next.len() > keys.digits as usize {
        let number = number_of(keys.root, &next[1..]);
        let state = next_state(keys.dfa, next[0], number);
        next.clear();
        next.push(state)?;
    }
    Ok(())
}
