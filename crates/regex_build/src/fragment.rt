//! What is known of a part of an expression while its automaton is made.

ghost use Rattle.std.specs.Prelude.{◌≡◌, ◌↔◌, ◌⊎◌, ◌∷◌, [], IsTrue, Contains, IfOk};
ghost use Rattle.regex_build.specs.Fragments.{IsEither, IsStar, IsPlus, IsOptional, IsEmptyWord, IsPlace};

use digit_tuple::faults::OutOfMemory;
use std::alloc::Global;

/// Pairs of places: each of the first list with each of the second.
#[derive(Drop)]
pub struct Crossing {
    pub lasts: Vec<u32>,
    pub firsts: Vec<u32>,
}

/// A part of an expression. What may come right after its places is listed elsewhere, but for the pairs that are owed.
/// Each of these leads from a last place to a first one, so where the part is repeated they need not be listed:
/// repetition pairs all last places with all first ones, and no pair is listed twice.
#[derive(Drop)]
pub struct Fragment {
    /// Whether the empty word matches.
    pub nullable: bool,
    /// Whether each first place may come right after each last one.
    pub repeats: bool,
    pub firsts: Vec<u32>,
    pub lasts: Vec<u32>,
    pub owed: Vec<Crossing>,
}

impl Fragment {
    /// The empty word.
    pub fn empty(alloc: Global) -> Self
        ensures { IsEmptyWord result }
    {
        Fragment {
            nullable: true,
            repeats: false,
            firsts: Vec::new(alloc),
            lasts: Vec::new(alloc),
            owed: Vec::new(alloc),
        }
    }

    /// A letter at a place.
    pub fn letter(alloc: Global, place: u32) -> Result<Self, OutOfMemory>
        ensures { IfOk result (IsPlace place) }
    {
        Ok(Fragment {
            nullable: false,
            repeats: false,
            firsts: one(alloc, place)?,
            lasts: one(alloc, place)?,
            owed: Vec::new(alloc),
        })
    }

    /// One of two expressions.
    pub fn either(self, other: Fragment) -> Result<Self, OutOfMemory>
        ensures { IfOk result (IsEither self other) }
    {
        Ok(Fragment {
            nullable: self.nullable || other.nullable,
            repeats: false,
            firsts: merged(self.firsts, other.firsts)?,
            lasts: merged(self.lasts, other.lasts)?,
            owed: merged(self.owed, other.owed)?,
        })
    }

    /// The expression any number of times.
    pub fn star(self, alloc: Global) -> Result<Self, OutOfMemory>
        ensures { IfOk result (IsStar self) }
    {
        Ok(self.plus(alloc)?.optional())
    }

    /// The expression at least once. All that is owed is among the pairs of its last and its first
    /// places.
    pub fn plus(self, alloc: Global) -> Result<Self, OutOfMemory>
        ensures { IfOk result (IsPlus self) }
    {
        if self.repeats {
            return Ok(self);
        }
        let mut owed = Vec::new(alloc);
        owed.push(Crossing {
            lasts: Vec::from_slice(alloc, &self.lasts)?,
            firsts: Vec::from_slice(alloc, &self.firsts)?,
        })?;
        Ok(Fragment {
            nullable: self.nullable,
            repeats: true,
            firsts: self.firsts,
            lasts: self.lasts,
            owed,
        })
    }

    /// The expression at most once.
    pub fn optional(self) -> Self
        ensures { IsOptional self result }
    {
        Fragment {
            nullable: true,
            repeats: self.repeats,
            firsts: self.firsts,
            lasts: self.lasts,
            owed: self.owed,
        }
    }
}

// The list of one place.
fn one(alloc: Global, place: u32) -> Result<Vec<u32>, OutOfMemory>
    ensures { IfOk result (λ places. places.items ≡ place ∷ []) }
{
    let mut places = Vec::new(alloc);
    places.push(place)?;
    Ok(places)
}

/// The elements of both lists. The shorter is moved after the longer.
pub fn merged<T: Drop>(mut left: Vec<T>, mut right: Vec<T>) -> Result<Vec<T>, OutOfMemory>
    ensures { IfOk result (λ both. (x : T) → Contains both.items x ↔ (Contains left.items x ⊎ Contains right.items x)) }
{
    if left.len() < right.len() {
        right.append(&mut left)?;
        Ok(right)
    } else {
        left.append(&mut right)?;
        Ok(left)
    }
}

/// The elements of the first list, and those of the second if they are wanted.
pub fn merged_if<T: Drop>(wanted: bool, left: Vec<T>, right: Vec<T>) -> Result<Vec<T>, OutOfMemory>
    ensures { IfOk result (λ both. (x : T) → Contains both.items x ↔ (Contains left.items x ⊎ (IsTrue wanted × Contains right.items x))) }
{
    if wanted {
        merged(left, right)
    } else {
        Ok(left)
    }
}
