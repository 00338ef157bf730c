//! The tracks of relations in a list.

ghost use Rattle.std.specs.Prelude.{◌≡◌, ◌<◌, ◌↔◌, length, map, IsTrue, MatchOption};
ghost use Rattle.std.specs.Rc.{rc_value};
ghost use Rattle.combinations.specs.Parts.{systems_at};
ghost use Rattle.combinations.specs.Shapes.{AreSameSystem, HaveOneShape, HaveSameTracks, IsShapeFault};

use crate::part::Part;
use minimise::comparison::same;
use num_system::system::System;
use std::rc::Rc;

/// The places, from 0, of the first relation and of the first whose tracks are not those of the first one;
/// 0 twice where the first has no track. None where all have the same tracks. Names do not count. It takes
/// no memory; the time follows the tables of the systems.
pub(crate) fn shape_fault(parts: &[Part]) -> Option<(usize, usize)>
    ensures { MatchOption result (HaveOneShape parts.now) (λ places. IsShapeFault parts.now places.0 places.1) }
{
    match parts.first() {
        Some(part) => first_other(parts, part.relation().systems()),
        None => None,
    }
}

// The fault of relations, the first of which has these systems.
fn first_other(parts: &[Part], first: &[Rc<System>]) -> Option<(usize, usize)>
    requires some { 0 < length parts.now }
    requires first { map rc_value first.now ≡ systems_at parts.now 0 }
    ensures { MatchOption result (HaveOneShape parts.now) (λ places. IsShapeFault parts.now places.0 places.1) }
{
    if first.is_empty() {
        return Some((0, 0));
    }
    for (place, part) in parts.iter().enumerate() {
        if !have_same_tracks(first, part.relation().systems()) {
            return Some((0, place));
        }
    }
    None
}

// Whether there are as many tracks, over the same systems.
fn have_same_tracks(systems: &[Rc<System>], others: &[Rc<System>]) -> bool
    ensures { IsTrue result ↔ HaveSameTracks (map rc_value systems.now) (map rc_value others.now) }
{
    if systems.len() != others.len() {
        return false;
    }
    for (track, system) in systems.iter().enumerate() {
        if !are_same_system(system.as_ref(), others[track].as_ref()) {
            return false;
        }
    }
    true
}

// Whether the systems have the same digits, direction and language.
fn are_same_system(system: &System, other: &System) -> bool
    ensures { IsTrue result ↔ AreSameSystem system.now other.now }
{
    if system.digits() != other.digits() {
        return false;
    }
    if system.direction() != other.direction() {
        return false;
    }
    same(system.language().as_ref(), other.language().as_ref())
}
