//! Automata on the words of which two tracks are equal.

ghost use Rattle.std.specs.Prelude.{◌≡◌, ◌↔◌, ℕ, List, IfOk, OnOk, IsTrue};
ghost use Rattle.digit_tuple.specs.Deterministic.{accepts_of};
ghost use Rattle.digit_tuple.specs.Letters.{product, IsWord};
ghost use Rattle.digit_tuple.specs.Names.{names_without as names_without_of};
ghost use Rattle.minimise.specs.Canonical.{IsCanonical};
ghost use Rattle.pad_rename.specs.Restriction.{name_for as name_for_of, names_for as names_for_of, word_with, AreTwoTracks, HasEqualTracks};
ghost use Rattle.pad_rename.specs.StayingTracks.{staying_sizes};

use crate::substitution::substitute;
use digit_tuple::faults::OutOfMemory;
use digit_tuple::name::Name;
use digit_tuple::names::{find_name, names_without};
use minimise::tracked::Tracked;
use std::alloc::Global;

/// The words of `a` of which the tracks of these two names are equal, without the second of these tracks. They are two
/// of its tracks, and have one number of digits (`are_two_tracks`). The result is canonical; its tracks are as in `a`,
/// and it accepts a word if and only if `a` accepts the one word with equal tracks that this is without the dropped
/// track. OutOfMemory comes too where 2^32 - 1 states are not enough. Time and memory follow the states, transitions
/// and letters of `a`.
pub fn restrict(
    alloc: Global,
    a: &Tracked,
    kept: &Name,
    dropped: &Name,
) -> Result<Tracked, OutOfMemory>
    requires { AreTwoTracks a.now kept.now dropped.now }
    ensures names { IfOk result (λ restricted. restricted.names ≡ names_without_of a.now.names dropped.now) }
    ensures sizes { IfOk result (λ restricted. restricted.automaton.sizes ≡ staying_sizes a.now dropped.now) }
    ensures canonical { IfOk result (λ restricted. IsCanonical restricted.automaton) }
    ensures language { IfOk result (λ restricted. (w : List ℕ) → IsWord (product (staying_sizes a.now dropped.now)) w
        → accepts_of restricted.automaton w ≡ accepts_of a.now.automaton (word_with a.now kept.now dropped.now w)) }
    ensures equal_tracks { IfOk result (λ restricted. (w x : List ℕ) → HasEqualTracks a.now kept.now dropped.now w x
        → accepts_of restricted.automaton w ≡ accepts_of a.now.automaton x) }
    ensures each_word { OnOk result ((w : List ℕ) → IsWord (product (staying_sizes a.now dropped.now)) w
        → HasEqualTracks a.now kept.now dropped.now w (word_with a.now kept.now dropped.now w)) }
{
    let names = a.names();
    let rest = names_without(alloc, names, dropped)?;
    let under = names_for(alloc, names, kept, dropped)?;
    substitute(alloc, a.dfa(), &under, &rest)
}

/// Whether the names are those of two tracks of `a`, which have one number of digits.
pub fn are_two_tracks(a: &Tracked, kept: &Name, dropped: &Name) -> bool
    ensures { IsTrue result ↔ AreTwoTracks a.now kept.now dropped.now }
{
    let names = a.names();
    let sizes = a.dfa().alphabet().sizes();
    match (find_name(names, kept), find_name(names, dropped)) {
        (Some(first), Some(second)) => first != second && sizes[first] == sizes[second],
        _ => false,
    }
}

// The names with the kept one in the place of the dropped one.
fn names_for(
    alloc: Global,
    names: &[Name],
    kept: &Name,
    dropped: &Name,
) -> Result<Vec<Name>, OutOfMemory>
    ensures { IfOk result (λ under. under.items ≡ names_for_of names.now kept.now dropped.now) }
{
    let mut under = Vec::with_capacity(alloc, names.len())?;
    for name in names {
        under.push(name_for(kept, dropped, name).copy(alloc)?)?;
    }
    Ok(under)
}

// The name that takes a name's place.
fn name_for<'a>(kept: &'a Name, dropped: &Name, name: &'a Name) -> &'a Name
    ensures { result.now ≡ name_for_of kept.now dropped.now name.now }
{
    if name.as_bytes() == dropped.as_bytes() {
        kept
    } else {
        name
    }
}
