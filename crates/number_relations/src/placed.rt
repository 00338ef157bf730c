//! Automata placed under names of which some may be the same.

ghost use Rattle.std.specs.Prelude.{◌≡◌, ◌++◌, ◌∷◌, [], ℕ, List, length, map, IfOk, OnOk};
ghost use Rattle.std.specs.List.{All, Contains};
ghost use Rattle.std.specs.Rc.{rc_value};
ghost use Rattle.digit_tuple.specs.Deterministic.{accepts_of};
ghost use Rattle.digit_tuple.specs.Letters.{product, IsWord};
ghost use Rattle.minimise.specs.Canonical.{IsCanonical};
ghost use Rattle.pad_rename.specs.Substitution.{IsSubstitution, sizes_under, word_under};
ghost use Rattle.num_system.specs.Tracks.{ShareDirection, system_under, AgreeUnder, systems_under};
ghost use Rattle.number_relations.specs.Relations.{IsClosedOver, system_named};
ghost use Rattle.number_relations.specs.Placed.{IsPlaced, IsRenamed, changed_name as changed_name_of, changed_names as changed_names_of, each_once as each_once_of};

use crate::relation::Relation;
use digit_tuple::dfa::Dfa;
use digit_tuple::faults::OutOfMemory;
use digit_tuple::name::Name;
use digit_tuple::names::find_name;
use minimise::tracked::Tracked;
use num_system::sealed::are_sealed;
use num_system::system::System;
use pad_rename::substitution::substitute;
use std::alloc::Global;
use std::rc::Rc;

impl Relation {
    /// The relation of which a canonical automaton holds, its tracks under these names. There is a system for each
    /// track, all of one direction, and `dfa` accepts each representation of the numbers of which it accepts some
    /// representation, and no other word. `under` has a name for each track. Tracks under one name have one system, and
    /// become one track, as where a relation of two arguments is asked of x and x. The tracks of the result are in
    /// order of first occurrence of their names.
    ///
    /// Where the names are different the table is a copy of that of `dfa`, and time and memory follow its transitions;
    /// else they follow the states of `dfa`, the letters of the result, and the letters by which these states lead on.
    /// Only OutOfMemory is answered, which comes too where 2^32 - 1 states are not enough.
    pub fn placed(
        alloc: Global,
        dfa: &Dfa,
        systems: &[Rc<System>],
        under: &[Name],
    ) -> Result<Self, OutOfMemory>
        requires canonical { IsCanonical dfa.now }
        requires count { length under.now ≡ length systems.now }
        requires agree { AgreeUnder under.now (map rc_value systems.now) }
        requires direction { ShareDirection (map rc_value systems.now) }
        requires closed { IsClosedOver (map rc_value systems.now) dfa.now }
        ensures { IfOk result (IsPlaced dfa.now (map rc_value systems.now) under.now) }
    {
        are_sealed(systems);
        let names = each_once(alloc, under)?;
        let tracked = placed_table(alloc, dfa, under, names)?;
        let kept = systems_for(alloc, systems, under, tracked.names())?;
        Ok(Relation::from_parts(tracked, kept))
    }

    /// The relation with the track of one name under another one, and the same relation where there is no track of that
    /// name. If there is a track of the new name too, the tracks have one system, and become one track. The tracks are
    /// in order of first occurrence of their names. The cost and the one fault are those of `placed`.
    pub fn renamed(&self, alloc: Global, from: &Name, to: &Name) -> Result<Self, OutOfMemory>
        requires { Contains self.now.names from.now → Contains self.now.names to.now → system_named self.now from.now ≡ system_named self.now to.now }
        ensures { IfOk result (IsRenamed self.now from.now to.now) }
    {
        let under = changed_names(alloc, self.names(), from, to)?;
        Relation::placed(alloc, self.dfa(), self.systems(), &under)
    }
}

// Each name once, in order of first occurrence.
fn each_once(alloc: Global, names: &[Name]) -> Result<Vec<Name>, OutOfMemory>
    ensures { IfOk result (λ once. once.items ≡ each_once_of names.now) }
{
    let mut once = Vec::new(alloc);
    for name in names {
        add_once(alloc, &mut once, name)?;
    }
    Ok(once)
}

// Adds a name, unless it is there.
fn add_once(alloc: Global, once: &mut Vec<Name>, name: &Name) -> Result<(), OutOfMemory>
    ensures known { OnOk result (Contains once.old.items name.now → once.new.items ≡ once.old.items) }
    ensures unknown { OnOk result (¬ Contains once.old.items name.now → once.new.items ≡ once.old.items ++ name.now ∷ []) }
{
    if find_name(once, name).is_none() {
        once.push(name.copy(alloc)?)?;
    }
    Ok(())
}

// The automaton under the names, each once: a copy where none is there twice.
fn placed_table(
    alloc: Global,
    dfa: &Dfa,
    under: &[Name],
    names: Vec<Name>,
) -> Result<Tracked, OutOfMemory>
    requires canonical { IsCanonical dfa.now }
    requires names { names.items ≡ each_once_of under.now }
    requires substitution { IsSubstitution dfa.now.sizes under.now names.items }
    ensures names { IfOk result (λ tracked. tracked.names ≡ names.items) }
    ensures sizes { IfOk result (λ tracked. tracked.automaton.sizes ≡ sizes_under dfa.now.sizes under.now names.items) }
    ensures canonical { IfOk result (λ tracked. IsCanonical tracked.automaton) }
    ensures language { IfOk result (λ tracked. (w : List ℕ) → IsWord (product (sizes_under dfa.now.sizes under.now names.items)) w
        → accepts_of tracked.automaton w ≡ accepts_of dfa.now (word_under dfa.now.sizes under.now names.items w)) }
{
    if names.len() < under.len() {
        return substitute(alloc, dfa, under, &names);
    }
    let table = dfa.copy(alloc)?;
    Ok(Tracked::of_canonical(table, names))
}

/// The systems of these names, each that of the first track under it. Time is the number of names times
/// that of tracks.
pub fn systems_for(
    alloc: Global,
    systems: &[Rc<System>],
    under: &[Name],
    names: &[Name],
) -> Result<Vec<Rc<System>>, OutOfMemory>
    requires count { length under.now ≡ length systems.now }
    requires there { All (Contains under.now) names.now }
    ensures { IfOk result (λ kept. map rc_value kept.items ≡ systems_under under.now (map rc_value systems.now) names.now) }
{
    let mut kept = Vec::with_capacity(alloc, names.len())?;
    for name in names {
        kept.push(system_for(systems, under, name)?)?;
    }
    Ok(kept)
}

/// The system of the first track under a name.
pub(crate) fn system_for(
    systems: &[Rc<System>],
    under: &[Name],
    name: &Name,
) -> Result<Rc<System>, OutOfMemory>
    requires count { length under.now ≡ length systems.now }
    requires there { Contains under.now name.now }
    ensures { IfOk result (λ system. system.value ≡ system_under under.now (map rc_value systems.now) name.now) }
{
    match find_name(under, name) {
        Some(place) => Ok(systems[place].clone()?),
        None => unreachable!(),
    }
}

// The names with one of them changed.
fn changed_names(
    alloc: Global,
    names: &[Name],
    from: &Name,
    to: &Name,
) -> Result<Vec<Name>, OutOfMemory>
    ensures { IfOk result (λ changed. changed.items ≡ changed_names_of from.now to.now names.now) }
{
    let mut changed = Vec::with_capacity(alloc, names.len())?;
    for name in names {
        changed.push(changed_name(name, from, to).copy(alloc)?)?;
    }
    Ok(changed)
}

// The name, or the new one where it is the one that changes.
fn changed_name<'a>(name: &'a Name, from: &Name, to: &'a Name) -> &'a Name
    ensures { result.now ≡ changed_name_of from.now to.now name.now }
{
    if name.as_bytes() == from.as_bytes() {
        to
    } else {
        name
    }
}
