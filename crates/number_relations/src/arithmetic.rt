//! The comparisons, the sums and the numbers of one system, made without a step.

ghost use Rattle.std.specs.Prelude.{◌≡◌, ◌∷◌, [], ℕ, List, length, map, IfOk};
ghost use Rattle.minimise.specs.Canonical.{IsCanonical};
ghost use Rattle.numeration.specs.Relations.{HoldsOf};
ghost use Rattle.num_system.specs.Sealed.{system_of};
ghost use Rattle.number_relations.specs.Relations.{HoldsOver, IsClosedOver};
ghost use Rattle.number_relations.specs.Comparisons.{IsAnyNumber, IsComparison, IsOverOne, IsSumRelation, compared_names as compared_names_of};

use crate::relation::Relation;
use digit_tuple::dfa::Dfa;
use digit_tuple::faults::OutOfMemory;
use digit_tuple::limit::Limit;
use digit_tuple::name::Name;
use minimise::tracked::Tracked;
use num_system::comparison::Comparison;
use num_system::sealed::is_sealed;
use num_system::system::System;
use std::alloc::Global;
use std::rc::Rc;
use validity::valid_words::complement_in;

impl Relation {
    /// The numbers of a system that compare so, under two names, which may be the same. The tracks are in this order,
    /// but for `Greater` and `AtMost` in the other one: these are determined by the order with its tracks exchanged.
    /// `Unequal`, `AtMost` and `AtLeast` are the pairs of valid words outside the equality and the order. Only
    /// OutOfMemory is answered, which comes too where 2^32 - 1 states are not enough. Time and memory follow the
    /// transitions of two tracks of the system.
    pub fn comparison(
        alloc: Global,
        system: &Rc<System>,
        comparison: Comparison,
        first: &Name,
        second: &Name,
    ) -> Result<Self, OutOfMemory>
        ensures { IfOk result (IsComparison system.now.value comparison first.now second.now) }
    {
        let sealed = system.as_ref();
        is_sealed(sealed);
        let under = compared_names(alloc, comparison, first, second)?;
        match comparison {
            Comparison::Equal => over_one(alloc, system, sealed.equal(), &under),
            Comparison::Less => over_one(alloc, system, sealed.less(), &under),
            Comparison::Greater => over_one(alloc, system, sealed.less(), &under),
            Comparison::Unequal => outside(alloc, system, sealed.equal(), &under),
            Comparison::AtMost => outside(alloc, system, sealed.less(), &under),
            Comparison::AtLeast => outside(alloc, system, sealed.less(), &under),
        }
    }

    /// The numbers of a system of which the third is the sum of the others, under three names, of which some may be the
    /// same. The tracks are in order of first occurrence. Only OutOfMemory is answered. The cost is that of `placed` on
    /// the system's adder.
    pub fn sum(
        alloc: Global,
        system: &Rc<System>,
        x: &Name,
        y: &Name,
        z: &Name,
    ) -> Result<Self, OutOfMemory>
        ensures { IfOk result (IsSumRelation system.now.value x.now y.now z.now) }
    {
        let first = x.copy(alloc)?;
        let second = y.copy(alloc)?;
        let third = z.copy(alloc)?;
        let under = vec![in alloc; first, second, third]?;
        let sealed = system.as_ref();
        is_sealed(sealed);
        over_one(alloc, system, sealed.adder(), &under)
    }

    /// Any number of a system, under one name: the system's language. Only OutOfMemory is answered. Time and memory
    /// follow the language's transitions.
    pub fn number(alloc: Global, system: &Rc<System>, name: &Name) -> Result<Self, OutOfMemory>
        ensures { IfOk result (IsAnyNumber system.now.value name.now) }
    {
        let track = name.copy(alloc)?;
        let under = vec![in alloc; track]?;
        let sealed = system.as_ref();
        is_sealed(sealed);
        over_one(alloc, system, sealed.language().as_ref(), &under)
    }
}

// The names of the two numbers in the order of the tracks.
fn compared_names(
    alloc: Global,
    comparison: Comparison,
    first: &Name,
    second: &Name,
) -> Result<Vec<Name>, OutOfMemory>
    ensures { IfOk result (λ names. names.items ≡ compared_names_of comparison first.now second.now) }
{
    let one = first.copy(alloc)?;
    let other = second.copy(alloc)?;
    match comparison {
        Comparison::Greater | Comparison::AtMost => Ok(vec![in alloc; other, one]?),
        _ => Ok(vec![in alloc; one, other]?),
    }
}

// The relation that an automaton holds of whose tracks all are over one system, under these names.
pub(crate) fn over_one(
    alloc: Global,
    system: &Rc<System>,
    dfa: &Dfa,
    under: &[Name],
) -> Result<Relation, OutOfMemory>
    requires canonical { IsCanonical dfa.now }
    requires closed { IsClosedOver (map (λ name. system.now.value) under.now) dfa.now }
    ensures { IfOk result (IsOverOne system.now.value under.now (λ number_of. HoldsOver (map (λ name. system.now.value) under.now) dfa.now (map number_of under.now))) }
{
    let mut systems = Vec::with_capacity(alloc, under.len())?;
    for _name in under {
        systems.push(system.clone()?)?;
    }
    Relation::placed(alloc, dfa, &systems, under)
}

// The pairs of numbers of which an automaton does not hold, under two names.
fn outside(
    alloc: Global,
    system: &Rc<System>,
    dfa: &Dfa,
    under: &[Name],
) -> Result<Relation, OutOfMemory>
    requires canonical { IsCanonical dfa.now }
    requires pair { length under.now ≡ 2 }
    requires closed { let s = system.now.value in IsClosedOver (s ∷ s ∷ []) dfa.now }
    ensures { let s = system.now.value in IfOk result (IsOverOne s under.now (λ number_of. ¬ HoldsOver (s ∷ s ∷ []) dfa.now (map number_of under.now))) }
{
    is_sealed(system.as_ref());
    let others = other_pairs(alloc, system, dfa)?;
    over_one(alloc, system, &others, under)
}

// The canonical automaton of the pairs of numbers of which the automaton does not hold.
fn other_pairs(alloc: Global, system: &Rc<System>, dfa: &Dfa) -> Result<Dfa, OutOfMemory>
    requires canonical { IsCanonical dfa.now }
    requires closed { let s = system.now.value in IsClosedOver (s ∷ s ∷ []) dfa.now }
    ensures canonical { IfOk result IsCanonical }
    ensures holds { let s = system.now.value in IfOk result (λ other. HoldsOf s.direction (system_of s ∷ system_of s ∷ []) (λ ns. ¬ HoldsOver (s ∷ s ∷ []) dfa.now ns) other) }
{
    let sealed = system.as_ref();
    is_sealed(sealed);
    let language = sealed.language();
    let first = language.clone()?;
    let second = language.clone()?;
    let languages = vec![in alloc; first, second]?;
    let pairs = named_pairs(alloc, dfa)?;
    match complement_in(alloc, &pairs, &languages, Limit::none()) {
        Ok(stepped) => Ok(stepped.result.into_dfa()),
        Err(_) => Err(OutOfMemory),
    }
}

// The automaton with names for its two tracks.
fn named_pairs(alloc: Global, dfa: &Dfa) -> Result<Tracked, OutOfMemory>
    requires canonical { IsCanonical dfa.now }
    requires tracks { (digits : ℕ) × (dfa.now.sizes ≡ digits ∷ digits ∷ []) }
    ensures { IfOk result (λ pairs. pairs.automaton ≡ dfa.now) }
{
    let first = Name::new(alloc, "x")?;
    let second = Name::new(alloc, "y")?;
    let names = vec![in alloc; first, second]?;
    Ok(Tracked::of_canonical(dfa.copy(alloc)?, names))
}
