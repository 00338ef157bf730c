//! A numeration system that is known.

use base_k::base_k::BaseK;
use digit_tuple::dfa::Dfa;
use digit_tuple::direction::Direction;
use digit_tuple::faults::OutOfMemory;
use fib_system::fib::Fib;
use numeration::num_system::NumSystem;
use std::alloc::Global;

/// A numeration system that is known, with the direction of its words.
#[derive(Clone, Copy)]
pub enum KnownSystem {
    /// Base k.
    Base(BaseK),
    /// The Fibonacci system.
    Fibonacci(Fib),
}

impl NumSystem for KnownSystem {
    ghost use Rattle.named_systems.specs.KnownSystems.{system_of, direction_of, known_is_system};

    ghost system = { system_of };

    ghost first_digit = { direction_of };

    fn digits(&self) -> u32 {
        match self {
            KnownSystem::Base(system) => system.digits(),
            KnownSystem::Fibonacci(system) => system.digits(),
        }
    }

    fn direction(&self) -> Direction {
        match self {
            KnownSystem::Base(system) => system.direction(),
            KnownSystem::Fibonacci(system) => system.direction(),
        }
    }

    fn language(&self, alloc: Global) -> Result<Dfa, OutOfMemory> {
        match self {
            KnownSystem::Base(system) => system.language(alloc),
            KnownSystem::Fibonacci(system) => system.language(alloc),
        }
    }

    fn adder(&self, alloc: Global) -> Result<Dfa, OutOfMemory> {
        match self {
            KnownSystem::Base(system) => system.adder(alloc),
            KnownSystem::Fibonacci(system) => system.adder(alloc),
        }
    }

    ghost laws = { known_is_system };
}
