//! Canonical automata whose tracks have names.

ghost use Rattle.std.specs.Prelude.{◌≡◌, length, IfOk};
ghost use Rattle.digit_tuple.specs.Names.{AreDistinct};
ghost use Rattle.minimise.specs.Residuals.{SameLanguage};
ghost use Rattle.minimise.specs.Canonical.{IsCanonical};
ghost use Rattle.minimise.specs.Tracked.{IsTracked};

use crate::canonical::canonical;
use digit_tuple::dfa::Dfa;
use digit_tuple::faults::OutOfMemory;
use digit_tuple::name::Name;
use std::alloc::Global;
use std::marker::Model;

/// A canonical automaton with a name for each track, no two the same.
#[derive(Drop)]
pub struct Tracked {
    minimal: Dfa,
    track_names: Vec<Name>,
}

impl Model for Tracked {
    ghost use Rattle.minimise.specs.Tracked.{NamedAutomaton, IsTracked};

    ghost Value = { NamedAutomaton };

    ghost view = { λ t. record { names = t.track_names.items; automaton = t.minimal } };

    ghost invariant = { λ t. IsTracked (record { names = t.track_names.items; automaton = t.minimal }) };
}

impl Tracked {
    /// The canonical automaton with the same language, its tracks under these names: one for each track, no two the
    /// same. OutOfMemory comes too where 2^32 - 1 states are not enough, or there are 2^32 transitions.
    pub fn new(alloc: Global, d: &Dfa, names: &[Name]) -> Result<Self, OutOfMemory>
        requires count { length names.now ≡ length d.now.sizes }
        requires distinct { AreDistinct names.now }
        ensures names { IfOk result (λ tracked. tracked.names ≡ names.now) }
        ensures sizes { IfOk result (λ tracked. tracked.automaton.sizes ≡ d.now.sizes) }
        ensures language { IfOk result (λ tracked. SameLanguage d.now tracked.automaton) }
        ensures canonical { IfOk result (λ tracked. IsCanonical tracked.automaton) }
    {
        let mut track_names = Vec::with_capacity(alloc, names.len())?;
        for name in names {
            track_names.push(name.copy(alloc)?)?;
        }
        let minimal = canonical(alloc, d)?;
        Ok(Tracked {
            minimal,
            track_names,
        })
    }

    /// A canonical automaton, its tracks under these names: one for each track, no two the same.
    pub fn of_canonical(dfa: Dfa, names: Vec<Name>) -> Self
        requires canonical { IsCanonical dfa }
        requires count { length names.items ≡ length dfa.sizes }
        requires distinct { AreDistinct names.items }
        ensures { result ≡ record { names = names.items; automaton = dfa } }
    {
        Tracked {
            minimal: dfa,
            track_names: names,
        }
    }

    /// The canonical automaton, without the names.
    pub fn into_dfa(self) -> Dfa
        ensures value { result ≡ self.automaton }
        ensures canonical { IsCanonical result }
    {
        self.minimal
    }

    /// The canonical automaton.
    pub fn dfa(&self) -> &Dfa
        ensures value { result.now ≡ self.now.automaton }
        ensures tracked { IsTracked self.now }
    {
        &self.minimal
    }

    /// The names of the tracks, in their order.
    pub fn names(&self) -> &[Name]
        ensures value { result.now ≡ self.now.names }
        ensures tracked { IsTracked self.now }
    {
        &self.track_names
    }
}
