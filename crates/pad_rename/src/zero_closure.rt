//! The states that zero letters lead to.

ghost use Rattle.std.specs.Prelude.{◌≡◌, ◌<◌, ◌↔◌, ◌^◌, ℕ, true, length, IfOk, OnOk};
ghost use Rattle.std.specs.List.{All, Contains};
ghost use Rattle.digit_tuple.specs.Automaton.{states_of};
ghost use Rattle.pad_rename.specs.ZeroClosure.{AreAfterZeros, AreFlagged, AreFound, AreFoundToo, IsReached, IsTargetOf, flag_at};

use digit_tuple::faults::OutOfMemory;
use digit_tuple::nfa::Nfa;
use digit_tuple::transitions::Transition;
use std::alloc::Global;

/// The states that zero letters alone lead to from the initial one, in order: those that some number
/// of zero letters leads to, none among them.
pub fn zero_closure(alloc: Global, nfa: &Nfa) -> Result<Vec<u32>, OutOfMemory>
    ensures { IfOk result (λ set. AreAfterZeros nfa.now set.items) }
{
    // The call reports that there is an initial state.
    let _states = nfa.states();
    let reached = reached(alloc, nfa, &[true], &[0])?;
    flagged(alloc, &reached)
}

/// For each state whether it is reached: whether a word over the flagged letters leads to it from one of the initial
/// states, which are states of the automaton. Each state and transition is looked at once.
pub fn reached(
    alloc: Global,
    nfa: &Nfa,
    letters: &[bool],
    first: &[u32],
) -> Result<Vec<bool>, OutOfMemory>
    requires { All (λ q. q < states_of nfa.now) first.now }
    ensures size { IfOk result (λ flags. length flags.items ≡ states_of nfa.now) }
    ensures reached { IfOk result (λ flags. (q : ℕ) → (flag_at flags.items q ≡ true) ↔ IsReached nfa.now letters.now first.now q) }
{
    let mut flags = vec![in alloc; false; nfa.states() as usize]?;
    let mut found = Vec::new(alloc);
    find_all(&mut flags, &mut found, first)?;
    let mut next = 0;
    while next < found.len() {
        let transitions = nfa.transitions(found[next]);
        find_targets(&mut flags, &mut found, letters, transitions)?;
        next += 1;
    }
    Ok(flags)
}

// Finds the states.
fn find_all(flags: &mut [bool], found: &mut Vec<u32>, states: &[u32]) -> Result<(), OutOfMemory>
    requires found { AreFound (length flags.old) flags.old found.old.items }
    requires states { All (λ q. q < length flags.old) states.now }
    ensures found { OnOk result (AreFound (length flags.old) flags.new found.new.items) }
    ensures too { OnOk result (AreFoundToo found.old.items found.new.items (Contains states.now)) }
{
    for state in states {
        find(flags, found, *state)?;
    }
    Ok(())
}

// Finds the targets of the transitions by flagged letters.
fn find_targets(
    flags: &mut [bool],
    found: &mut Vec<u32>,
    letters: &[bool],
    transitions: &[Transition],
) -> Result<(), OutOfMemory>
    requires found { AreFound (length flags.old) flags.old found.old.items }
    requires targets { All (λ transition. transition.target < length flags.old) transitions.now }
    ensures found { OnOk result (AreFound (length flags.old) flags.new found.new.items) }
    ensures too { OnOk result (AreFoundToo found.old.items found.new.items (IsTargetOf letters.now transitions.now)) }
{
    for transition in transitions {
        find_target(flags, found, letters, *transition)?;
    }
    Ok(())
}

// Finds the target of a transition, if its letter is flagged.
fn find_target(
    flags: &mut [bool],
    found: &mut Vec<u32>,
    letters: &[bool],
    transition: Transition,
) -> Result<(), OutOfMemory>
    requires found { AreFound (length flags.old) flags.old found.old.items }
    requires target { transition.target < length flags.old }
    ensures found { OnOk result (AreFound (length flags.old) flags.new found.new.items) }
    ensures too { OnOk result (AreFoundToo found.old.items found.new.items (λ q. (flag_at letters.now transition.letter ≡ true) × (transition.target ≡ q))) }
{
    if is_set(letters, transition.letter) {
        find(flags, found, transition.target)?;
    }
    Ok(())
}

// Finds a state, unless it was found before.
fn find(flags: &mut [bool], found: &mut Vec<u32>, state: u32) -> Result<(), OutOfMemory>
    requires found { AreFound (length flags.old) flags.old found.old.items }
    requires state { state < length flags.old }
    ensures found { OnOk result (AreFound (length flags.old) flags.new found.new.items) }
    ensures too { OnOk result (AreFoundToo found.old.items found.new.items (λ q. state ≡ q)) }
{
    if !flags[state as usize] {
        flags[state as usize] = true;
        found.push(state)?;
    }
    Ok(())
}

// Whether the flag at a place is there and set.
fn is_set(flags: &[bool], place: u32) -> bool
    ensures { result ≡ flag_at flags.now place }
{
    (place as usize) < flags.len() && flags[place as usize]
}

/// The flagged places, in order. They are fewer than 2^32.
pub fn flagged(alloc: Global, flags: &[bool]) -> Result<Vec<u32>, OutOfMemory>
    requires { length flags.now < 2 ^ 32 }
    ensures { IfOk result (λ set. AreFlagged flags.now set.items) }
{
    let mut set = Vec::new(alloc);
    for (place, flag) in flags.iter().enumerate() {
        if *flag {
            set.push(place as u32)?;
        }
    }
    Ok(set)
}
