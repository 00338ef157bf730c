//! Sealed systems.

ghost use Rattle.std.specs.Prelude.{◌≡◌};
ghost use Rattle.minimise.specs.Canonical.{IsCanonical};
ghost use Rattle.numeration.specs.Systems.{IsSystem};
ghost use Rattle.numeration.specs.Relations.{IsLanguageOf, IsAdderOf, IsEqualityOf, IsOrderOf, IsZeroOf};
ghost use Rattle.num_system.specs.Successor.{IsSuccessorOf};
ghost use Rattle.num_system.specs.Sealed.{SystemValue, system_of, sealed_of, IsSealed};

use crate::relations::Relations;
use digit_tuple::dfa::Dfa;
use digit_tuple::direction::Direction;
use std::marker::Model;
use std::rc::Rc;

/// A numeration system, of which the laws are known.
#[derive(Drop)]
pub struct System {
    digit_count: u32,
    first_digit: Direction,
    valid: Rc<Dfa>,
    sum: Dfa,
    relations: Relations,
}

impl Model for System {
    ghost use Rattle.num_system.specs.Sealed.{SystemValue, sealed_of, IsSealed};

    ghost Value = { SystemValue };

    ghost view = { λ s. sealed_of s.digit_count s.first_digit s.valid.value s.sum s.relations };

    ghost invariant = { λ s. IsSealed (sealed_of s.digit_count s.first_digit s.valid.value s.sum s.relations) };
}

impl System {
    /// The system of these automata.
    pub(crate) fn from_parts(
        digits: u32,
        direction: Direction,
        language: Rc<Dfa>,
        adder: Dfa,
        relations: Relations,
    ) -> System
        requires { IsSealed (sealed_of digits direction language.value adder relations) }
        ensures { result ≡ sealed_of digits direction language.value adder relations }
    {
        System {
            digit_count: digits,
            first_digit: direction,
            valid: language,
            sum: adder,
            relations,
        }
    }

    /// How many digits there are.
    pub fn digits(&self) -> u32
        ensures value { result ≡ self.now.digits }
        ensures laws { IsSystem (system_of self.now) }
    {
        self.digit_count
    }

    /// Which digit of a word comes first.
    pub fn direction(&self) -> Direction
        ensures value { result ≡ self.now.direction }
        ensures laws { IsSystem (system_of self.now) }
    {
        self.first_digit
    }

    /// The canonical automaton of the valid words.
    pub fn language(&self) -> &Rc<Dfa>
        ensures value { result.now.value ≡ self.now.language }
        ensures language { IsLanguageOf self.now.direction (system_of self.now) result.now.value }
        ensures canonical { IsCanonical result.now.value }
        ensures laws { IsSystem (system_of self.now) }
    {
        &self.valid
    }

    /// The canonical automaton of the triples of numbers of which the third is the sum of the others.
    pub fn adder(&self) -> &Dfa
        ensures value { result.now ≡ self.now.adder }
        ensures adder { IsAdderOf self.now.direction (system_of self.now) result.now }
        ensures canonical { IsCanonical result.now }
        ensures laws { IsSystem (system_of self.now) }
    {
        &self.sum
    }

    /// The canonical automaton of the pairs of equal numbers.
    pub fn equal(&self) -> &Dfa
        ensures value { result.now ≡ self.now.equal }
        ensures equality { IsEqualityOf self.now.direction (system_of self.now) result.now }
        ensures canonical { IsCanonical result.now }
        ensures laws { IsSystem (system_of self.now) }
    {
        &self.relations.equal
    }

    /// The canonical automaton of the pairs of numbers of which the first is less.
    pub fn less(&self) -> &Dfa
        ensures value { result.now ≡ self.now.less }
        ensures order { IsOrderOf self.now.direction (system_of self.now) result.now }
        ensures canonical { IsCanonical result.now }
        ensures laws { IsSystem (system_of self.now) }
    {
        &self.relations.less
    }

    /// The canonical automaton of the pairs of numbers of which the second is one more than the first.
    pub fn successor(&self) -> &Dfa
        ensures value { result.now ≡ self.now.successor }
        ensures successor { IsSuccessorOf self.now.direction (system_of self.now) result.now }
        ensures canonical { IsCanonical result.now }
        ensures laws { IsSystem (system_of self.now) }
    {
        &self.relations.successor
    }

    /// The canonical automaton of the number 0.
    pub fn zero(&self) -> &Dfa
        ensures value { result.now ≡ self.now.zero }
        ensures zero { IsZeroOf self.now.direction (system_of self.now) result.now }
        ensures canonical { IsCanonical result.now }
        ensures laws { IsSystem (system_of self.now) }
    {
        &self.relations.zero
    }
}
