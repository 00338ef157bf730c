//! Names of tracks.

ghost use Rattle.std.specs.Prelude.{◌≡◌, ◌↔◌, ◌≤◌, ◌<◌, ◌^◌, ◌++◌, ◌∷◌, ℕ, length, take, drop, IsSome, IfSome, IsTrue, IfOk, OnOk, MatchOption};
ghost use Rattle.std.specs.List.{All, Contains};
ghost use Rattle.digit_tuple.specs.Names.{AreDistinct, AreJoint, place_of, places_of, with_name, with_names, joint_names as joint_names_of, names_without as names_without_of};

use crate::faults::OutOfMemory;
use crate::name::Name;
use std::alloc::Global;
use std::cmp::Ordering;

/// The place of the first of the names that is this one, counted from 0, or None if it isn't there.
pub fn find_name(names: &[Name], name: &Name) -> Option<usize>
    ensures there { IsSome result ↔ Contains names.now name.now }
    ensures place { IfSome result (λ place. place ≡ place_of names.now name.now) }
{
    for (place, other) in names.iter().enumerate() {
        if other.as_bytes() == name.as_bytes() {
            return Some(place);
        }
    }
    None
}

/// Whether no two of the names are the same. It compares each with each, as tracks are few.
pub fn are_distinct(names: &[Name]) -> bool
    ensures { IsTrue result ↔ AreDistinct names.now }
{
    for place in 0..names.len() {
        if find_name(&names[..place], &names[place]).is_some() {
            return false;
        }
    }
    true
}

/// The names but this one, in their order.
pub fn names_without(alloc: Global, names: &[Name], name: &Name) -> Result<Vec<Name>, OutOfMemory>
    ensures { IfOk result (λ rest. rest.items ≡ names_without_of names.now name.now) }
{
    let mut rest = Vec::new(alloc);
    for other in names {
        if other.as_bytes() != name.as_bytes() {
            rest.push(other.copy(alloc)?)?;
        }
    }
    Ok(rest)
}

/// The names of both lists in byte order, each once. So are the tracks of a product.
pub fn joint_names(alloc: Global, first: &[Name], second: &[Name]) -> Result<Vec<Name>, OutOfMemory>
    ensures names { IfOk result (λ names. names.items ≡ joint_names_of first.now second.now) }
    ensures joint { IfOk result (λ names. AreJoint first.now second.now names.items) }
{
    let mut names = Vec::new(alloc);
    insert_names(alloc, &mut names, first)?;
    insert_names(alloc, &mut names, second)?;
    Ok(names)
}

// Adds names at their places.
fn insert_names(alloc: Global, names: &mut Vec<Name>, more: &[Name]) -> Result<(), OutOfMemory>
    ensures { OnOk result (names.new.items ≡ with_names names.old.items more.now) }
{
    for name in more {
        insert_name(alloc, names, name)?;
    }
    Ok(())
}

// Adds a name at its place, unless it is there.
fn insert_name(alloc: Global, names: &mut Vec<Name>, name: &Name) -> Result<(), OutOfMemory>
    ensures { OnOk result (names.new.items ≡ with_name names.old.items name.now) }
{
    if let Some(place) = new_place(names, name) {
        names.insert(place, name.copy(alloc)?)?;
    }
    Ok(())
}

// The place at which the name is to be, or None if it is among the names.
fn new_place(names: &[Name], name: &Name) -> Option<usize>
    ensures within { IfSome result (λ place. place ≤ length names.now) }
    ensures place { MatchOption result (with_name names.now name.now ≡ names.now)
        (λ place. with_name names.now name.now ≡ take place names.now ++ name.now ∷ drop place names.now) }
{
    for (place, other) in names.iter().enumerate() {
        match other.as_bytes().cmp(name.as_bytes()) {
            Ordering::Less => {}
            Ordering::Equal => return None,
            Ordering::Greater => return Some(place),
        }
    }
    Some(names.len())
}

/// The place of each of some names among the names. They are there, and fewer than 2^32.
pub fn places_in(alloc: Global, names: &[Name], some: &[Name]) -> Result<Vec<u32>, OutOfMemory>
    requires there { All (Contains names.now) some.now }
    requires few { length names.now < 2 ^ 32 }
    ensures { IfOk result (λ places. places.items ≡ places_of names.now some.now) }
{
    let mut places = Vec::with_capacity(alloc, some.len())?;
    for name in some {
        places.push(place_in(names, name))?;
    }
    Ok(places)
}

// The place of a name that is among the names.
fn place_in(names: &[Name], name: &Name) -> u32
    requires there { Contains names.now name.now }
    requires few { length names.now < 2 ^ 32 }
    ensures { result ≡ place_of names.now name.now }
{
    match find_name(names, name) {
        Some(place) => place as u32,
        None => unreachable!(),
    }
}
