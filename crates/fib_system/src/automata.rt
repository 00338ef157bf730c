//! Automata of the Fibonacci system: its words, and its additions.

ghost use Rattle.std.specs.Prelude.{◌≡◌, IfOk};
ghost use Rattle.digit_tuple.specs.declared.direction.Direction.{Direction};
ghost use Rattle.digit_tuple.specs.declared.direction.Direction.TheVariants.{Msd, Lsd};
ghost use Rattle.numeration.specs.Relations.{IsLanguageOf, IsAdderOf};
ghost use Rattle.fib_system.specs.Fibonacci.{fibonacci};

use crate::additions::Additions;
use determinise::reversal::reverse;
use digit_tuple::alphabet::Alphabet;
use digit_tuple::dfa::Dfa;
use digit_tuple::dfa_builder::DfaBuilder;
use digit_tuple::direction::Direction;
use digit_tuple::exploration::explore;
use digit_tuple::faults::OutOfMemory;
use digit_tuple::limit::Limit;
use std::alloc::Global;

/// The automaton of the words without 11, in either direction. Its second state is that after a 1.
pub fn language_of(alloc: Global) -> Result<Dfa, OutOfMemory>
    ensures { IfOk result (λ dfa. (direction : Direction) → IsLanguageOf direction fibonacci dfa) }
{
    let alphabet = Alphabet::fitting(alloc, &[2])?;
    let mut builder = DfaBuilder::new(alloc, alphabet)?;
    let first = builder.add_state(true)?;
    let after_1 = builder.add_state(true)?;
    builder.set(first, 0, first)?;
    builder.set(first, 1, after_1)?;
    builder.set(after_1, 0, first)?;
    builder.finish()
}

/// The automaton of the triples of numbers of which the third is the sum of the others. With the least
/// significant digit first it accepts the reversed words.
pub fn adder_in(alloc: Global, direction: Direction) -> Result<Dfa, OutOfMemory>
    ensures { IfOk result (λ dfa. IsAdderOf direction fibonacci dfa) }
{
    let adder = msd_adder(alloc)?;
    match direction {
        Direction::Msd => Ok(adder),
        Direction::Lsd => reversed_adder(alloc, &adder),
    }
}

// The adder with the most significant digit first, explored without a limit: seven pairs of excesses and
// eight letters make at most 56 keys.
fn msd_adder(alloc: Global) -> Result<Dfa, OutOfMemory>
    ensures { IfOk result (λ dfa. IsAdderOf Msd fibonacci dfa) }
{
    let alphabet = Alphabet::fitting(alloc, &[2, 2, 2])?;
    match explore(alloc, &Additions, alphabet, Limit::none()) {
        Ok(stepped) => Ok(stepped.result),
        Err(_) => Err(OutOfMemory),
    }
}

// The adder with the least significant digit first, from that with the most significant one first, without
// a limit.
fn reversed_adder(alloc: Global, adder: &Dfa) -> Result<Dfa, OutOfMemory>
    requires { IsAdderOf Msd fibonacci adder.now }
    ensures { IfOk result (λ dfa. IsAdderOf Lsd fibonacci dfa) }
{
    match reverse(alloc, adder, Limit::none()) {
        Ok(stepped) => Ok(stepped.result),
        Err(_) => Err(OutOfMemory),
    }
}
