//! The Fibonacci numeration system.

ghost use Rattle.std.specs.Prelude.{◌≡◌, IfOk};
ghost use Rattle.fib_system.specs.Fibonacci.{fibonacci};

use crate::automata::{adder_in, language_of};
use digit_tuple::dfa::Dfa;
use digit_tuple::direction::Direction;
use digit_tuple::faults::OutOfMemory;
use numeration::num_system::NumSystem;
use std::alloc::Global;

/// The Fibonacci numeration system: the words over 0 and 1 in which no 1 comes next to another are valid, and each
/// represents the sum of the weights 1, 2, 3, 5, .. of its digits 1 (Zeckendorf, "Représentation des nombres naturels
/// par une somme de nombres de Fibonacci ou de nombres de Lucas").
#[derive(Clone, Copy)]
pub struct Fib {
    /// Which digit of a word comes first.
    pub direction: Direction,
}

impl Fib {
    /// The system whose words have the digit first that the direction says.
    pub fn new(direction: Direction) -> Fib
        ensures { result.direction ≡ direction }
    {
        Fib { direction }
    }
}

impl NumSystem for Fib {
    ghost use Rattle.fib_system.specs.FibonacciLaws.{fibonacci_is_system};

    ghost system = { λ s. fibonacci };

    ghost first_digit = { λ s. s.direction };

    /// Two, 0 and 1.
    fn digits(&self) -> u32 {
        2
    }

    /// Which digit of a word comes first.
    fn direction(&self) -> Direction {
        self.direction
    }

    /// The automaton of the words without 11. It has two states.
    fn language(&self, alloc: Global) -> Result<Dfa, OutOfMemory> {
        language_of(alloc)
    }

    /// The automaton of the additions. It has a few dozen states.
    fn adder(&self, alloc: Global) -> Result<Dfa, OutOfMemory> {
        adder_in(alloc, self.direction)
    }

    ghost laws = { λ s. fibonacci_is_system };
}
