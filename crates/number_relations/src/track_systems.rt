//! The systems of a step's tracks.

ghost use Rattle.std.specs.Prelude.{◌≡◌, ◌++◌, ◌⊎◌, map, IfOk};
ghost use Rattle.std.specs.List.{All, Contains};
ghost use Rattle.std.specs.Rc.{rc_value};
ghost use Rattle.num_system.specs.Tracks.{system_under, systems_under};

use crate::placed::system_for;
use crate::relation::Relation;
use digit_tuple::faults::OutOfMemory;
use digit_tuple::name::Name;
use digit_tuple::names::find_name;
use num_system::system::System;
use std::alloc::Global;
use std::rc::Rc;

/// The systems of the tracks of these names, each a track of the one or of the other.
pub(crate) fn joint_systems(
    alloc: Global,
    a: &Relation,
    b: &Relation,
    names: &[Name],
) -> Result<Vec<Rc<System>>, OutOfMemory>
    requires { All (λ name. Contains a.now.names name ⊎ Contains b.now.names name) names.now }
    ensures { IfOk result (λ systems. map rc_value systems.items ≡ systems_under (a.now.names ++ b.now.names) (a.now.systems ++ b.now.systems) names.now) }
{
    let mut systems = Vec::with_capacity(alloc, names.len())?;
    for name in names {
        systems.push(joint_system(a, b, name)?)?;
    }
    Ok(systems)
}

// The system of the track of this name in the one, or else in the other.
fn joint_system(a: &Relation, b: &Relation, name: &Name) -> Result<Rc<System>, OutOfMemory>
    requires { Contains a.now.names name.now ⊎ Contains b.now.names name.now }
    ensures { IfOk result (λ system. system.value ≡ system_under (a.now.names ++ b.now.names) (a.now.systems ++ b.now.systems) name.now) }
{
    let names = a.names();
    let systems = a.systems();
    match find_name(names, name) {
        Some(place) => Ok(systems[place].clone()?),
        None => system_for(b.systems(), b.names(), name),
    }
}
