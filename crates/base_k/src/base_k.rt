//! The numeration system in base k.

ghost use Rattle.std.specs.Prelude.{◌≡◌, ◌≤◌, ◌↔◌, IsSome, IfSome, IfOk};
ghost use Rattle.base_k.specs.Positional.{base};

use crate::automata::{adder_in, language_in};
use digit_tuple::dfa::Dfa;
use digit_tuple::direction::Direction;
use digit_tuple::faults::OutOfMemory;
use numeration::num_system::NumSystem;
use std::alloc::Global;

/// The least base.
pub const LEAST_BASE: u32 = 2;

/// The greatest base: in it a letter of three tracks is one of 64,000.
pub const GREATEST_BASE: u32 = 40;

/// The numeration system in base k: each word over the k digits is valid, and represents its
/// positional value (Allouche and Shallit, "Automatic Sequences").
#[derive(Clone, Copy)]
pub struct BaseK {
    /// The base, which is the number of digits.
    pub base: u32,
    /// Which digit of a word comes first.
    pub direction: Direction,
    ghost at_least: { 2 ≤ base },
    ghost at_most: { base ≤ 40 },
}

impl BaseK {
    /// The system in base `k`, whose words have the digit first that the direction says. There is none if and only if
    /// `k` is outside of 2 to 40.
    pub fn new(k: u32, direction: Direction) -> Option<BaseK>
        ensures exists { IsSome result ↔ ((2 ≤ k) × (k ≤ 40)) }
        ensures base { IfSome result (λ system. system.base ≡ k) }
        ensures direction { IfSome result (λ system. system.direction ≡ direction) }
    {
        if LEAST_BASE <= k && k <= GREATEST_BASE {
            Some(BaseK { base: k, direction })
        } else {
            None
        }
    }
}

impl NumSystem for BaseK {
    ghost use Rattle.base_k.specs.BaseLaws.{base_is_system};

    ghost system = { λ s. base s.base };

    ghost first_digit = { λ s. s.direction };

    /// The base.
    fn digits(&self) -> u32 {
        self.base
    }

    /// Which digit of a word comes first.
    fn direction(&self) -> Direction {
        self.direction
    }

    /// The automaton of all words over the digits. It has one state.
    fn language(&self, alloc: Global) -> Result<Dfa, OutOfMemory> {
        language_in(alloc, self.base)
    }

    /// The automaton of the additions. Its states are the two carries.
    fn adder(&self, alloc: Global) -> Result<Dfa, OutOfMemory> {
        adder_in(alloc, self.direction, self.base)
    }

    ghost laws = { λ s. base_is_system s.base s.at_least };
}
