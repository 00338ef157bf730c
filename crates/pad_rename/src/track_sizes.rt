//! Sizes of some of the tracks.

ghost use Rattle.std.specs.Prelude.{◌≡◌, ◌<◌, length, IfOk};
ghost use Rattle.std.specs.List.{All};
ghost use Rattle.digit_tuple.specs.Parts.{picked};

use digit_tuple::faults::OutOfMemory;
use std::alloc::Global;

/// The sizes at these places, counted from 0.
pub fn sizes_at(alloc: Global, sizes: &[u32], places: &[u32]) -> Result<Vec<u32>, OutOfMemory>
    requires { All (λ place. place < length sizes.now) places.now }
    ensures { IfOk result (λ some. some.items ≡ picked places.now sizes.now) }
{
    let mut some = Vec::with_capacity(alloc, places.len())?;
    for place in places {
        some.push(sizes[*place as usize])?;
    }
    Ok(some)
}
