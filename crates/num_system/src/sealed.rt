//! What sealed systems say, seen from outside.

ghost use Rattle.std.specs.Prelude.{map};
ghost use Rattle.std.specs.List.{AllByRecursion};
ghost use Rattle.std.specs.Rc.{rc_value};
ghost use Rattle.num_system.specs.Sealed.{IsSealed};

use crate::system::System;
use std::rc::Rc;

/// A system that was sealed has the laws. It does nothing.
pub fn is_sealed(system: &System)
    ensures { IsSealed system.now }
{
    let _ = system.language();
    let _ = system.adder();
    let _ = system.equal();
    let _ = system.less();
    let _ = system.successor();
    let _ = system.zero();
}

/// And so have all of some systems.
pub fn are_sealed(systems: &[Rc<System>])
    ensures { AllByRecursion IsSealed (map rc_value systems.now) }
{
    for system in systems {
        is_sealed(system.as_ref());
    }
}
