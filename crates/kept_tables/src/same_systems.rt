//! Whether systems are the same.

ghost use Rattle.std.specs.Prelude.{◌≡◌, map, IsTrue};
ghost use Rattle.std.specs.Rc.{rc_value};

use minimise::comparison::same;
use num_system::sealed::is_sealed;
use num_system::system::System;
use std::rc::Rc;

/// Whether the systems are the same, one after another. The time is in proportion to the automata of their languages.
pub(crate) fn are_same(systems: &[Rc<System>], others: &[Rc<System>]) -> bool
    ensures { IsTrue result → map rc_value systems.now ≡ map rc_value others.now }
{
    if systems.len() != others.len() {
        return false;
    }
    for (track, system) in systems.iter().enumerate() {
        if !is_same(system.as_ref(), others[track].as_ref()) {
            return false;
        }
    }
    true
}

/// Whether the systems have the same digits, direction and language. Then they are the same, since a language has one addition.
fn is_same(system: &System, other: &System) -> bool
    ensures { IsTrue result → system.now ≡ other.now }
{
    is_sealed(system);
    is_sealed(other);
    if system.digits() != other.digits() {
        return false;
    }
    if system.direction() != other.direction() {
        return false;
    }
    same(system.language().as_ref(), other.language().as_ref())
}
