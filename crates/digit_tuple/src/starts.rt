//! Places in a buffer at which lists begin.

ghost use Rattle.std.specs.Prelude.{◌≡◌, ◌<◌, ◌++◌, ◌∷◌, [], length, slice_index, IfOk, OnOk, OnErr};
ghost use Rattle.digit_tuple.specs.Starts.{base_at};

use crate::faults::OutOfMemory;
use std::alloc::Global;
use std::marker::Model;

/// Places, one after another, of 4 bytes each: a place is kept as its distance from a base. The first base is 0, and
/// where a place is too far from the last base, it becomes one itself.
#[derive(Drop)]
pub(crate) struct Starts {
    offsets: Vec<u32>,
    bases: Vec<Base>,
}

/// A place from which those with this index or a later one are counted, up to the next base.
#[derive(Clone, Copy)]
struct Base {
    first: usize,
    place: usize,
}

impl Model for Starts {
    ghost use Rattle.std.specs.Prelude.{ℕ, List, ◌<◌, ◌^◌};
    ghost use Rattle.std.specs.List.{All};
    ghost use Rattle.digit_tuple.specs.Starts.{places_from};

    ghost Value = { List ℕ };

    ghost view = { λ s. places_from 0 s.offsets.items s.bases.items };

    ghost invariant = { λ s. All (λ place. place < 2 ^ 64) (places_from 0 s.offsets.items s.bases.items) };
}

impl Starts {
    /// No places, and memory for so many.
    pub(crate) fn with_capacity(alloc: Global, capacity: usize) -> Result<Self, OutOfMemory>
        ensures { IfOk result (λ starts. starts ≡ []) }
    {
        Ok(Starts {
            offsets: Vec::with_capacity(alloc, capacity)?,
            bases: Vec::new(alloc),
        })
    }

    /// How many places there are.
    pub(crate) fn len(&self) -> usize
        ensures { result ≡ length self.now }
    {
        self.offsets.len()
    }

    /// The place with an index.
    pub(crate) fn get(&self, index: usize) -> usize
        requires { index < length self.now }
        ensures { result ≡ slice_index self.now index }
    {
        base_of(&self.bases, index) + self.offsets[index] as usize
    }

    /// Adds a place at the end.
    pub(crate) fn push(&mut self, place: usize) -> Result<(), OutOfMemory>
        ensures added { OnOk result (self.new ≡ self.old ++ place ∷ []) }
        ensures refused { OnErr result (self.new ≡ self.old) }
    {
        let first = self.offsets.len();
        let base = base_of(&self.bases, first);
        if base <= place && place - base <= u32::MAX as usize {
            self.offsets.push((place - base) as u32)?;
            return Ok(());
        }
        self.bases.push(Base { first, place })?;
        self.offsets.push(0)?;
        Ok(())
    }

    /// Gives back memory that is not in use.
    pub(crate) fn shrink_to_fit(&mut self)
        ensures { self.new ≡ self.old }
    {
        self.offsets.shrink_to_fit();
        self.bases.shrink_to_fit();
    }

    /// The same places, in memory of their own.
    pub(crate) fn copy(&self, alloc: Global) -> Result<Self, OutOfMemory>
        ensures { IfOk result (λ starts. starts ≡ self.now) }
    {
        Ok(Starts {
            offsets: Vec::from_slice(alloc, &self.offsets)?,
            bases: Vec::from_slice(alloc, &self.bases)?,
        })
    }
}

// The base from which the place with an index is counted.
fn base_of(bases: &[Base], index: usize) -> usize
    ensures { result ≡ base_at 0 bases.now index }
{
    let mut place = 0;
    for base in bases {
        if base.first <= index {
            place = base.place;
        }
    }
    place
}
