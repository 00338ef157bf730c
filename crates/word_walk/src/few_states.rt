//! Few of the states of an automaton, as a list.

ghost use Rattle.std.specs.Prelude.{◌≡◌, ◌<◌, false, length, slice_index_or, IfOk, IfSome};
ghost use Rattle.std.specs.List.{All, list_any};
ghost use Rattle.word_walk.specs.FewStates.{flags_of};

use digit_tuple::faults::OutOfMemory;
use std::alloc::Global;
use std::marker::Model;

// States are few where they are no more than this part of all.
const PART: u32 = 8;

/// How many of so many states are few: their list takes half of the memory of a flag for each state.
pub(crate) fn most_of(count: u32) -> usize {
    (count / PART) as usize
}

/// Some states of an automaton, 4 bytes for each, seen as a flag for each state.
#[derive(Drop)]
pub(crate) struct FewStates {
    // How many states the automaton has.
    count: u32,
    // In order, each once.
    states: Vec<u32>,
}

impl Model for FewStates {
    ghost use Rattle.std.specs.Prelude.{Bool, List};
    ghost use Rattle.word_walk.specs.FewStates.{AreStates, flags_of};

    ghost Value = { List Bool };

    ghost view = { λ few. flags_of few.count few.states.items };

    ghost invariant = { λ few. AreStates few.count few.states.items };
}

impl FewStates {
    /// The states with a flag, or None if they are not few. It looks at each flag until they are too many.
    pub(crate) fn of_flags(
        alloc: Global,
        count: u32,
        flags: &[bool],
    ) -> Result<Option<Self>, OutOfMemory>
        requires { length flags.now ≡ count }
        ensures { IfOk result (λ found. IfSome found (λ few. few ≡ flags.now)) }
    {
        let most = most_of(count);
        let mut states = Vec::new(alloc);
        for state in 0..count {
            if flags[state as usize] {
                if states.len() == most {
                    return Ok(None);
                }
                states.push(state)?;
            }
        }
        states.shrink_to_fit();
        Ok(Some(FewStates { count, states }))
    }

    /// The states in a list, which may be in any order and there more than once.
    pub(crate) fn of_list(count: u32, mut states: Vec<u32>) -> Self
        requires { All (λ state. state < count) states.items }
        ensures { result ≡ flags_of count states.items }
    {
        states.sort_unstable();
        states.dedup();
        states.shrink_to_fit();
        FewStates { count, states }
    }

    /// The states.
    pub(crate) fn states(&self) -> &[u32]
        ensures flags { self.now ≡ flags_of (length self.now) result.now }
        ensures within { All (λ state. state < length self.now) result.now }
    {
        &self.states
    }

    /// A flag for each state.
    pub(crate) fn flags(&self, alloc: Global) -> Result<Vec<bool>, OutOfMemory>
        ensures { IfOk result (λ flags. flags.items ≡ self.now) }
    {
        flags_of(alloc, self.count, &self.states)
    }

    /// Whether a state is among them.
    pub(crate) fn has(&self, state: u32) -> bool
        requires { state < length self.now }
        ensures { result ≡ slice_index_or self.now state false }
    {
        self.states.binary_search(&state).is_ok()
    }

    /// Whether there is one.
    pub(crate) fn has_any(&self) -> bool
        ensures { result ≡ list_any (λ has. has) self.now }
    {
        !self.states.is_empty()
    }
}

// For each of so many states whether it is in the list.
fn flags_of(alloc: Global, count: u32, states: &[u32]) -> Result<Vec<bool>, OutOfMemory>
    requires { All (λ state. state < count) states.now }
    ensures { IfOk result (λ flags. flags.items ≡ flags_of count states.now) }
{
    let mut flags = vec![in alloc; false; count as usize]?;
    for state in states {
        flags[*state as usize] = true;
    }
    Ok(flags)
}
