//! The tracks of what is made.

ghost use Rattle.std.specs.Prelude.{◌≡◌, IfOk};

use digit_tuple::faults::OutOfMemory;
use digit_tuple::name::Name;
use std::alloc::Global;

/// A track: a variable's own, or a fresh one for the value of a term.
#[derive(Drop)]
pub enum Track {
    /// The track of the variable of this name.
    Own(Name),
    /// The fresh track of this number.
    Fresh(u64),
}

impl Track {
    /// The same track, in memory of its own.
    pub fn copy(&self, alloc: Global) -> Result<Track, OutOfMemory>
        ensures { IfOk result (λ track. track ≡ self.now) }
    {
        match self {
            Track::Own(name) => Ok(Track::Own(name.copy(alloc)?)),
            Track::Fresh(number) => Ok(Track::Fresh(*number)),
        }
    }
}
