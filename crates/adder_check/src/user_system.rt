//! Numeration systems that users bring along.

ghost use Rattle.std.specs.Prelude.{◌≡◌, ◌∷◌, [], IfOk};
ghost use Rattle.numeration.specs.Relations.{IsAdderOf};
ghost use Rattle.numeration.specs.Systems.{IsSystem};
ghost use Rattle.endless.specs.LanguageLaws.{system_in};

use digit_tuple::dfa::Dfa;
use digit_tuple::direction::Direction;
use digit_tuple::faults::OutOfMemory;
use numeration::num_system::NumSystem;
use std::alloc::Global;

/// A numeration system by the automata of its words and of its sums, of which it is known that they are
/// those of a numeration system and its addition.
#[derive(Drop)]
pub struct UserSystem {
    /// How many digits there are.
    pub digits: u32,
    /// Which digit of a word comes first.
    pub direction: Direction,
    /// The automaton of the valid words.
    pub language: Dfa,
    /// The automaton of the triples of numbers of which the third is the sum of the others.
    pub adder: Dfa,
    ghost sizes: { language.sizes ≡ digits ∷ [] },
    ghost is_system: { ∥ IsSystem (system_in direction digits language) ∥₁ },
    ghost adds: { ∥ IsAdderOf direction (system_in direction digits language) adder ∥₁ },
}

impl NumSystem for UserSystem {
    ghost use Rattle.adder_check.specs.SureSystems.{surely_system};

    ghost system = { λ s. system_in s.direction s.digits s.language };

    ghost first_digit = { λ s. s.direction };

    /// How many digits there are.
    fn digits(&self) -> u32 {
        self.digits
    }

    /// Which digit of a word comes first.
    fn direction(&self) -> Direction {
        self.direction
    }

    /// The automaton of the valid words, in memory of its own.
    fn language(&self, alloc: Global) -> Result<Dfa, OutOfMemory> {
        self.language.copy(alloc)
    }

    /// The automaton of the triples of numbers of which the third is the sum of the others, in memory of
    /// its own.
    fn adder(&self, alloc: Global) -> Result<Dfa, OutOfMemory> {
        self.adder.copy(alloc)
    }

    ghost laws = { λ s. surely_system (system_in s.direction s.digits s.language) s.is_system };
}
