//! What a numeration system gives, and its laws.

ghost use Rattle.std.specs.Prelude.{◌≡◌, IfOk};
ghost use Rattle.numeration.specs.Systems.{System, IsSystem};
ghost use Rattle.numeration.specs.Relations.{IsLanguageOf, IsAdderOf};

use digit_tuple::dfa::Dfa;
use digit_tuple::direction::Direction;
use digit_tuple::faults::{OpFault, OutOfMemory};
use std::alloc::Global;

/// A numeration system: the words of a language represent their ranks, the numbers of words without leading zero that
/// come before them, shorter words first (Allouche and Shallit, "Automatic Sequences"). Its relations are those that
/// automata hold of (Büchi, "Weak second-order arithmetic and finite automata"; Bruyère, Hansel, Michaux and
/// Villemaire, "Logic and p-recognizable sets of integers").
pub trait NumSystem {
    ghost use Rattle.digit_tuple.specs.declared.direction.Direction.{Direction};

    /// The number of digits and the language, read from the most significant digit on.
    ghost system: { Self → System };

    /// Which digit of a word comes first.
    ghost first_digit: { Self → Direction };

    /// How many digits there are.
    fn digits(&self) -> u32
        ensures { result ≡ (system self.now).digits };

    /// Which digit of a word comes first.
    fn direction(&self) -> Direction
        ensures { result ≡ first_digit self.now };

    /// The automaton of the valid words.
    fn language(&self, alloc: Global) -> Result<Dfa, OutOfMemory>
        ensures { IfOk result (λ dfa. IsLanguageOf (first_digit self.now) (system self.now) dfa) };

    /// The automaton of the triples of numbers of which the third is the sum of the others.
    fn adder(&self, alloc: Global) -> Result<Dfa, OutOfMemory>
        ensures { IfOk result (λ dfa. IsAdderOf (first_digit self.now) (system self.now) dfa) };

    /// The language is that of a numeration system.
    ghost laws: { (s : Self) → IsSystem (system s) };
}
