//! Relations on numbers.

ghost use Rattle.std.specs.Prelude.{◌≡◌, ◌↔◌, [], map, IsSome, IsTrue, IfSome};
ghost use Rattle.std.specs.Rc.{rc_value};
ghost use Rattle.minimise.specs.Tracked.{IsTracked};
ghost use Rattle.number_relations.specs.Relations.{IsRelation, RelationHolds, named_of, relation_over};

use digit_tuple::dfa::Dfa;
use digit_tuple::name::Name;
use minimise::tracked::Tracked;
use num_system::system::System;
use std::marker::Model;
use std::rc::Rc;

/// A relation on numbers: the canonical automaton of all representations of the tuples of which it holds, with a name
/// and a sealed system for each track. The names are different, and the systems have one direction. A relation without
/// tracks is a sentence, which is true or false.
#[derive(Drop)]
pub struct Relation {
    tracks: Tracked,
    track_systems: Vec<Rc<System>>,
}

impl Model for Relation {
    ghost use Rattle.std.specs.Prelude.{map};
    ghost use Rattle.std.specs.Rc.{rc_value};
    ghost use Rattle.number_relations.specs.Relations.{RelationValue, IsRelation, relation_over};

    ghost Value = { RelationValue };

    ghost view = { λ r. relation_over r.tracks (map rc_value r.track_systems.items) };

    ghost invariant = { λ r. IsRelation (relation_over r.tracks (map rc_value r.track_systems.items)) };
}

impl Relation {
    /// The relation of a canonical automaton with named tracks over these systems: it accepts each representation of
    /// the numbers of which it accepts some representation, and no other word. It takes no memory.
    pub fn from_parts(tracked: Tracked, systems: Vec<Rc<System>>) -> Self
        requires { IsRelation (relation_over tracked (map rc_value systems.items)) }
        ensures { result ≡ relation_over tracked (map rc_value systems.items) }
    {
        Relation {
            tracks: tracked,
            track_systems: systems,
        }
    }

    /// The names of the tracks, in their order.
    pub fn names(&self) -> &[Name]
        ensures value { result.now ≡ self.now.names }
        ensures relation { IsRelation self.now }
    {
        self.tracks.names()
    }

    /// The systems of the tracks, in their order.
    pub fn systems(&self) -> &[Rc<System>]
        ensures value { map rc_value result.now ≡ self.now.systems }
        ensures relation { IsRelation self.now }
    {
        &self.track_systems
    }

    /// The canonical automaton of the representations.
    pub fn dfa(&self) -> &Dfa
        ensures value { result.now ≡ self.now.automaton }
        ensures relation { IsRelation self.now }
    {
        self.tracks.dfa()
    }

    /// The automaton with the names of its tracks.
    pub(crate) fn tracked(&self) -> &Tracked
        ensures value { result.now ≡ named_of self.now }
        ensures relation { IsRelation self.now }
    {
        &self.tracks
    }

    /// Whether a sentence is true, or None where there is a track.
    pub fn verdict(&self) -> Option<bool>
        ensures sentence { IsSome result ↔ (self.now.names ≡ []) }
        ensures truth { IfSome result (λ holds. IsTrue holds ↔ RelationHolds self.now []) }
        ensures relation { IsRelation self.now }
    {
        if self.tracks.names().is_empty() {
            Some(self.tracks.dfa().accepts(&[]))
        } else {
            None
        }
    }
}
