//! Automata of base k: the words over its digits, and additions with their carries.

ghost use Rattle.std.specs.Prelude.{◌≡◌, ℕ, ◌*◌, ◌<◌, ◌≤◌, Some, nat_eq, IfSome, IfOk};
ghost use Rattle.digit_tuple.specs.declared.direction.Direction.{Direction};
ghost use Rattle.numeration.specs.Relations.{IsLanguageOf, IsAdderOf};
ghost use Rattle.base_k.specs.Positional.{base};
ghost use Rattle.digit_tuple.specs.TransitionsBy.{AreTransitionsBy};
ghost use Rattle.base_k.specs.Carries.{carry_in, carry_out, next_carry, carry_after};

use digit_tuple::alphabet::Alphabet;
use digit_tuple::dfa::{Dfa, DfaState};
use digit_tuple::direction::Direction;
use digit_tuple::faults::OutOfMemory;
use digit_tuple::transitions::Transition;
use std::alloc::Global;

/// The automaton of all words over the digits of a base, in either direction.
pub fn language_in(alloc: Global, k: u32) -> Result<Dfa, OutOfMemory>
    requires few { k ≤ 40 }
    ensures { IfOk result (λ dfa. (direction : Direction) → IsLanguageOf direction (base k) dfa) }
{
    let alphabet = Alphabet::fitting(alloc, &[k])?;
    let state = DfaState {
        accepting: true,
        transitions: transitions_home(alloc, k)?,
    };
    Dfa::from_states(alloc, alphabet, vec![in alloc; state]?)
}

/// The automaton of the triples of numbers of which the third is the sum of the others. Its states are
/// the carries: read from the most significant digit the one that must come from the digits after,
/// read from the least significant digit the one that came from the digits before.
pub fn adder_in(alloc: Global, direction: Direction, k: u32) -> Result<Dfa, OutOfMemory>
    requires some { 2 ≤ k }
    requires few { k ≤ 40 }
    ensures { IfOk result (λ dfa. IsAdderOf direction (base k) dfa) }
{
    let alphabet = Alphabet::fitting(alloc, &[k, k, k])?;
    let none = carry_state(alloc, direction, k, 0)?;
    let one = carry_state(alloc, direction, k, 1)?;
    Dfa::from_states(alloc, alphabet, vec![in alloc; none, one]?)
}

// Transitions by each digit to the first state.
fn transitions_home(alloc: Global, digits: u32) -> Result<Vec<Transition>, OutOfMemory>
    ensures { IfOk result (λ transitions. AreTransitionsBy (λ _. Some 0) digits 1 transitions.items) }
{
    let mut transitions = Vec::new(alloc);
    for letter in 0..digits {
        transitions.push(Transition { letter, target: 0 })?;
    }
    Ok(transitions)
}

// The state of a carry. It accepts where there is none.
fn carry_state(
    alloc: Global,
    direction: Direction,
    k: u32,
    carry: u32,
) -> Result<DfaState, OutOfMemory>
    requires some { 2 ≤ k }
    requires few { k ≤ 40 }
    requires carry { carry < 2 }
    ensures accepting { IfOk result (λ state. state.accepting ≡ nat_eq carry 0) }
    ensures transitions { IfOk result (λ state. AreTransitionsBy (carry_after direction k carry) (k * (k * k)) 2 state.transitions.items) }
{
    Ok(DfaState {
        accepting: carry == 0,
        transitions: carry_transitions(alloc, direction, k, carry)?,
    })
}

// The transitions of a carry: by each letter to the carry at the other side of its digits.
fn carry_transitions(
    alloc: Global,
    direction: Direction,
    k: u32,
    carry: u32,
) -> Result<Vec<Transition>, OutOfMemory>
    requires some { 2 ≤ k }
    requires few { k ≤ 40 }
    requires carry { carry < 2 }
    ensures { IfOk result (λ transitions. AreTransitionsBy (carry_after direction k carry) (k * (k * k)) 2 transitions.items) }
{
    let square = k * k;
    let mut transitions = Vec::new(alloc);
    for letter in 0..k * square {
        let rest = letter % square;
        let next = next_carry(direction, k, carry, letter / square, rest / k, rest % k);
        if let Some(target) = next {
            transitions.push(Transition { letter, target })?;
        }
    }
    Ok(transitions)
}

// The carry at the other side of a place with the digits x, y and z, of which z is the sum's: what must come into the
// place where the most significant digit comes first, else what goes out of it.
fn next_carry(direction: Direction, k: u32, carry: u32, x: u32, y: u32, z: u32) -> Option<u32>
    requires k { k ≤ 40 }
    requires carry { carry < 2 }
    requires x { x < k }
    requires y { y < k }
    requires z { z < k }
    ensures next { result ≡ next_carry direction k carry x y z }
    ensures carry { IfSome result (λ next. next < 2) }
{
    match direction {
        Direction::Msd => carry_in(k, carry, x, y, z),
        Direction::Lsd => carry_out(k, carry, x, y, z),
    }
}

// The carry that must come into a place, so that this carry goes out of it.
fn carry_in(k: u32, out: u32, x: u32, y: u32, z: u32) -> Option<u32>
    requires k { k ≤ 40 }
    requires out { out < 2 }
    requires x { x < k }
    requires y { y < k }
    requires z { z < k }
    ensures next { result ≡ carry_in k out x y z }
    ensures carry { IfSome result (λ next. next < 2) }
{
    let sum = out * k + z;
    if sum == x + y {
        Some(0)
    } else if sum == x + y + 1 {
        Some(1)
    } else {
        None
    }
}

// The carry that goes out of a place, where this carry came into it.
fn carry_out(k: u32, into: u32, x: u32, y: u32, z: u32) -> Option<u32>
    requires k { k ≤ 40 }
    requires into { into < 2 }
    requires x { x < k }
    requires y { y < k }
    requires z { z < k }
    ensures next { result ≡ carry_out k into x y z }
    ensures carry { IfSome result (λ next. next < 2) }
{
    let sum = x + y + into;
    if sum == z {
        Some(0)
    } else if sum == z + k {
        Some(1)
    } else {
        None
    }
}
