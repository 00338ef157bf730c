//! Closure under leading zeros.

ghost use Rattle.std.specs.Prelude.{◌≡◌, ℕ, ◌+◌, ◌≤◌, ◌++◌, ◌<◌, ◌↔◌, [], List, filter, IfOk, OnOk, IsTrue};
ghost use Rattle.std.specs.List.{All};
ghost use Rattle.std.specs.Result.{IsErrOf};
ghost use Rattle.digit_tuple.specs.Automaton as branching;
ghost use Rattle.digit_tuple.specs.Automaton.{IsBranchTable};
ghost use Rattle.digit_tuple.specs.Deterministic.{accepts_of, letters_of, states_of};
ghost use Rattle.digit_tuple.specs.Keys.{AreKeyTransitions};
ghost use Rattle.digit_tuple.specs.Letters.{IsWord};
ghost use Rattle.digit_tuple.specs.Width.{HasApart, HasWidth};
ghost use Rattle.digit_tuple.specs.declared.direction.Direction.TheVariants.{Msd};
ghost use Rattle.determinise.specs.Subsets.{set_after, has_accepting};
ghost use Rattle.minimise.specs.Canonical.{IsCanonical};
ghost use Rattle.pad_rename.specs.Padding.{IsPadded, PaddedAlike};
ghost use Rattle.pad_rename.specs.PaddedSets.{IsStateList, AreFirst, padded_after, padded_accepts, transitions_by_zero, is_by_other, nothing_is_state_list, padded_after_is_state_list};
ghost use Rattle.pad_rename.specs.SameBranching.{branching_as};

use crate::emptiness::accepts_nothing;
use crate::same_branching::same_branching;
use crate::zero_closure::zero_closure;
use crate::zeros_stay::{pad_itself, zeros_stay};
use determinise::subsets::Subsets;
use digit_tuple::dfa::Dfa;
use digit_tuple::faults::{OpFault, OutOfMemory};
use digit_tuple::key_graph::KeyGraph;
use digit_tuple::key_transitions::KeyTransitions;
use digit_tuple::limit::Limit;
use digit_tuple::nfa::Nfa;
use digit_tuple::stepped::Stepped;
use minimise::canonical_exploration::explore_canonical;
use std::alloc::Global;

/// The sets of states that words without their leading zeros lead to, from the states of a first set,
/// each as the list of its states in order. The empty list is the first set, after zeros
/// alone; else the empty set is no key.
#[derive(Clone, Copy)]
struct PaddedSets<'a> {
    nfa: &'a Nfa,
    first: &'a [u32],
}

impl KeyGraph for PaddedSets<'_> {
    ghost letters = { λ s. branching.letters_of s.nfa.now };

    ghost is_graph = { λ s. IsBranchTable (branching.letters_of s.nfa.now) s.nfa.now.states × IsStateList s.nfa.now s.first.now };

    ghost is_key = { λ s. IsStateList s.nfa.now };

    ghost start = { λ s. [] };

    ghost after = { λ s. padded_after s.nfa.now s.first.now };

    ghost accepts = { λ s. padded_accepts s.nfa.now s.first.now };

    ghost start_is_key = { λ s graph. nothing_is_state_list s.nfa.now };

    ghost after_is_key = { λ s key letter graph is_list small. padded_after_is_state_list s.nfa.now s.first.now key letter };

    fn first_key(&self, alloc: Global) -> Result<Vec<u32>, OutOfMemory> {
        Ok(Vec::new(alloc))
    }

    fn transitions(
        &self,
        alloc: Global,
        key: &[u32],
        out: &mut KeyTransitions,
    ) -> Result<(), OutOfMemory> {
        if key.is_empty() {
            first_transitions(alloc, self.nfa, self.first, out)
        } else {
            set_transitions(alloc, self.nfa, key, out)
        }
    }

    fn is_accepting(&self, key: &[u32]) -> bool {
        if key.is_empty() {
            any_accepting(self.nfa, self.first)
        } else {
            any_accepting(self.nfa, key)
        }
    }
}

// Whether a state of the set accepts.
fn any_accepting(nfa: &Nfa, set: &[u32]) -> bool
    requires { All (λ q. q < branching.states_of nfa.now) set.now }
    ensures { result ≡ has_accepting nfa.now set.now }
{
    set.iter().any(|state| nfa.is_accepting(*state))
}

// Writes the transitions after zeros alone: zeros stay, and the other letters lead from the first set on.
fn first_transitions(
    alloc: Global,
    nfa: &Nfa,
    first: &[u32],
    out: &mut KeyTransitions,
) -> Result<(), OutOfMemory>
    requires table { IsBranchTable (branching.letters_of nfa.now) nfa.now.states }
    requires first { IsStateList nfa.now first.now }
    requires empty { out.old ≡ [] }
    ensures { OnOk result (AreKeyTransitions (branching.letters_of nfa.now) (padded_after nfa.now first.now []) out.new) }
{
    let mut others = KeyTransitions::new(alloc);
    set_transitions(alloc, nfa, first, &mut others)?;
    push_by_zero(nfa.alphabet().letters(), out)?;
    push_by_others(&others, out)
}

// Adds the transition by the zero letter to the empty list, if there is such a letter.
fn push_by_zero(letters: u32, out: &mut KeyTransitions) -> Result<(), OutOfMemory>
    ensures { OnOk result (out.new ≡ out.old ++ transitions_by_zero letters) }
{
    if letters == 0 {
        return Ok(());
    }
    out.push(0, &[])
}

// Adds the transitions that are by other letters.
fn push_by_others(transitions: &KeyTransitions, out: &mut KeyTransitions) -> Result<(), OutOfMemory>
    ensures { OnOk result (out.new ≡ out.old ++ filter is_by_other transitions.now) }
{
    for place in 0..transitions.len() {
        if transitions.letter(place) != 0 {
            out.push(transitions.letter(place), transitions.key(place))?;
        }
    }
    Ok(())
}

// Writes the transitions from a set.
fn set_transitions(
    alloc: Global,
    nfa: &Nfa,
    set: &[u32],
    out: &mut KeyTransitions,
) -> Result<(), OutOfMemory>
    requires table { IsBranchTable (branching.letters_of nfa.now) nfa.now.states }
    requires set { IsStateList nfa.now set.now }
    requires empty { out.old ≡ [] }
    ensures { OnOk result (AreKeyTransitions (branching.letters_of nfa.now) (set_after nfa.now set.now) out.new) }
{
    if set.is_empty() {
        return Ok(());
    }
    let subsets = Subsets { nfa, first: set };
    subsets.transitions(alloc, set, out)
}

// The states that some number of zero letters leads to. None are where nothing is accepted.
fn first_set(alloc: Global, a: &Dfa, nfa: &Nfa) -> Result<Vec<u32>, OutOfMemory>
    requires canonical { IsCanonical a.now }
    requires same { nfa.now ≡ branching_as a.now }
    ensures { IfOk result (λ set. AreFirst a.now set.items) }
{
    if accepts_nothing(a) {
        return Ok(Vec::new(alloc));
    }
    zero_closure(alloc, nfa)
}

/// The closure under leading zeros. `pad` says more.
pub fn pad_msd(alloc: Global, a: &Dfa, limit: Limit<'_>) -> Result<Stepped<Dfa>, OpFault>
    requires { IsCanonical a.now }
    ensures sizes { IfOk result (λ stepped. stepped.result.sizes ≡ a.now.sizes) }
    ensures canonical { IfOk result (λ stepped. IsCanonical stepped.result) }
    ensures language { IfOk result (λ stepped. (w : List ℕ) → IsWord (letters_of a.now) w
        → IsTrue (accepts_of stepped.result w) ↔ IsPadded Msd a.now w) }
    ensures width { IfOk result (λ stepped. HasWidth (PaddedAlike Msd a.now) (letters_of a.now) stepped.width) }
    ensures size { IfOk result (λ stepped. states_of stepped.result ≤ stepped.width) }
    ensures within { IfOk result (λ stepped. stepped.width ≤ limit.entry.most) }
    ensures states { IsErrOf result OpFault.States → HasApart (PaddedAlike Msd a.now) (letters_of a.now) (limit.entry.most + 1) }
    ensures no_letters { ¬ IsErrOf result OpFault.Letters }
{
    if zeros_stay(a) {
        pad_itself(alloc, a, limit)
    } else {
        explore_sets(alloc, a, limit)
    }
}

// The closure of an automaton at whose initial state zeros need not stay.
fn explore_sets(alloc: Global, a: &Dfa, limit: Limit<'_>) -> Result<Stepped<Dfa>, OpFault>
    requires { IsCanonical a.now }
    ensures sizes { IfOk result (λ stepped. stepped.result.sizes ≡ a.now.sizes) }
    ensures canonical { IfOk result (λ stepped. IsCanonical stepped.result) }
    ensures language { IfOk result (λ stepped. (w : List ℕ) → IsWord (letters_of a.now) w
        → IsTrue (accepts_of stepped.result w) ↔ IsPadded Msd a.now w) }
    ensures width { IfOk result (λ stepped. HasWidth (PaddedAlike Msd a.now) (letters_of a.now) stepped.width) }
    ensures size { IfOk result (λ stepped. states_of stepped.result ≤ stepped.width) }
    ensures within { IfOk result (λ stepped. stepped.width ≤ limit.entry.most) }
    ensures states { IsErrOf result OpFault.States → HasApart (PaddedAlike Msd a.now) (letters_of a.now) (limit.entry.most + 1) }
    ensures no_letters { ¬ IsErrOf result OpFault.Letters }
{
    let nfa = same_branching(alloc, a)?;
    let first = first_set(alloc, a, &nfa)?;
    let alphabet = a.alphabet().copy(alloc)?;
    let sets = PaddedSets {
        nfa: &nfa,
        first: &first,
    };
    explore_canonical(alloc, &sets, alphabet, limit)
}
