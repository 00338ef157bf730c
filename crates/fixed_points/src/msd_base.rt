//! The system of a base, for one track.

ghost use Rattle.std.specs.Prelude.{◌≡◌, ◌∷◌, [], map, IfOk};
ghost use Rattle.std.specs.List.{AllByRecursion};
ghost use Rattle.std.specs.Rc.{rc_value};
ghost use Rattle.digit_tuple.specs.declared.direction.Direction.TheVariants.{Msd};
ghost use Rattle.base_k.specs.Positional.{base};
ghost use Rattle.num_system.specs.Sealed.{IsSealed};
ghost use Rattle.num_system.specs.Tracks.{systems_of, direction_of};
ghost use Rattle.morph_words.specs.MorphismKinds.{IsBase};

use base_k::base_k::BaseK;
use digit_tuple::direction::Direction;
use digit_tuple::faults::OutOfMemory;
use num_system::seal::seal_built_in;
use num_system::sealed::are_sealed;
use num_system::system::System;
use std::alloc::Global;
use std::rc::Rc;

/// The system in base `k` whose words have the most significant digit first, sealed, as that of one track.
pub(crate) fn msd_base(alloc: Global, k: u32) -> Result<Vec<Rc<System>>, OutOfMemory>
    requires { IsBase k }
    ensures systems { IfOk result (λ systems. systems_of (map rc_value systems.items) ≡ base k ∷ []) }
    ensures direction { IfOk result (λ systems. direction_of (map rc_value systems.items) ≡ Msd) }
    ensures sealed { IfOk result (λ systems. AllByRecursion IsSealed (map rc_value systems.items)) }
{
    let system = BaseK {
        base: k,
        direction: Direction::Msd,
    };
    let sealed = seal_built_in(alloc, &system)?;
    let mut systems = Vec::new(alloc);
    systems.push(Rc::new(alloc, sealed)?)?;
    are_sealed(&systems);
    Ok(systems)
}
