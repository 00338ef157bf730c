//! Automata with new names for their tracks.

ghost use Rattle.std.specs.Prelude.{◌≡◌, ◌↔◌, ℕ, [], List, length, IfOk, IsTrue};
ghost use Rattle.std.specs.List.{AllPairs};
ghost use Rattle.digit_tuple.specs.Deterministic.{accepts_of};
ghost use Rattle.digit_tuple.specs.Letters.{product, IsWord};
ghost use Rattle.digit_tuple.specs.Names.{AreDistinct, IsBytesBefore, with_names};
ghost use Rattle.minimise.specs.Canonical.{IsCanonical};
ghost use Rattle.pad_rename.specs.Substitution.{sizes_under, word_under};

use crate::substitution::substitute;
use digit_tuple::faults::OutOfMemory;
use digit_tuple::name::Name;
use digit_tuple::names::joint_names;
use minimise::tracked::Tracked;
use std::alloc::Global;

/// The automaton with these names for its tracks: one for each, in the order of the tracks of `a`, no two the same. The
/// result is canonical; its tracks are in byte order of the new names, and it accepts a word if and only if `a` accepts
/// the word that has, on each track, the digits of the track of its new name. Where the new names are in byte order
/// already its table is a copy of that of `a`, and time and memory follow its transitions; else they follow its states,
/// transitions and letters, and OutOfMemory comes too where 2^32 - 1 states are not enough.
pub fn rename(alloc: Global, a: &Tracked, names: &[Name]) -> Result<Tracked, OutOfMemory>
    requires count { length names.now ≡ length a.now.names }
    requires distinct { AreDistinct names.now }
    ensures names { IfOk result (λ renamed. renamed.names ≡ with_names [] names.now) }
    ensures ordered { IfOk result (λ renamed. AllPairs IsBytesBefore renamed.names) }
    ensures sizes { IfOk result (λ renamed. renamed.automaton.sizes ≡ sizes_under a.now.automaton.sizes names.now (with_names [] names.now)) }
    ensures canonical { IfOk result (λ renamed. IsCanonical renamed.automaton) }
    ensures language { IfOk result (λ renamed. (w : List ℕ) → IsWord (product (sizes_under a.now.automaton.sizes names.now (with_names [] names.now))) w
        → accepts_of renamed.automaton w ≡ accepts_of a.now.automaton (word_under a.now.automaton.sizes names.now (with_names [] names.now) w)) }
{
    let dfa = a.dfa();
    let ordered = joint_names(alloc, names, &[])?;
    if !are_equal(&ordered, names) {
        return substitute(alloc, dfa, names, &ordered);
    }
    let table = dfa.copy(alloc)?;
    Ok(Tracked::of_canonical(table, ordered))
}

// Whether the names are the same, one by one.
fn are_equal(a: &[Name], b: &[Name]) -> bool
    ensures { IsTrue result ↔ (a.now ≡ b.now) }
{
    if a.len() != b.len() {
        return false;
    }
    for place in 0..a.len() {
        if a[place].as_bytes() != b[place].as_bytes() {
            return false;
        }
    }
    true
}
