//! The canonical automaton of a language.

ghost use Rattle.std.specs.Prelude.{◌≡◌, ◌↔◌, ℕ, ◌+◌, ◌*◌, ◌<◌, ◌≤◌, ◌^◌, List, IfOk, IfSome, IfNone, IsTrue};
ghost use Rattle.digit_tuple.specs.Deterministic.{states_of};
ghost use Rattle.digit_tuple.specs.TransitionCounts.{transition_count};
ghost use Rattle.digit_tuple.specs.FirstWords.{IsNumberedByFirsts};
ghost use Rattle.minimise.specs.Residuals.{SameLanguage};
ghost use Rattle.minimise.specs.Canonical.{IsCanonical};

use crate::canonical_classes::{canonical_classes, canonical_classes_counted};
use crate::minimal::minimal;
use digit_tuple::dfa::Dfa;
use digit_tuple::faults::OutOfMemory;
use residual_classes::classes::residual_classes;
use residual_classes::leaders::are_alone;
use residual_classes::looks::Looks;
use residual_classes::machine::{Machine, accepting_outputs};
use std::alloc::Global;
use std::sync::ledger::Ledger;

/// The canonical automaton with the same language: its states are the residual languages that words lead to, the empty
/// one only where the language is empty, numbered in the order of the first words that lead to them. OutOfMemory comes
/// too where 2^32 - 1 of them are not enough, or there are 2^32 transitions.
pub fn canonical(alloc: Global, d: &Dfa) -> Result<Dfa, OutOfMemory>
    ensures sizes { IfOk result (λ minimal. minimal.sizes ≡ d.now.sizes) }
    ensures language { IfOk result (λ minimal. SameLanguage d.now minimal) }
    ensures canonical { IfOk result (λ minimal. IsCanonical minimal) }
{
    let outputs = accepting_outputs(alloc, d)?;
    let (minimal, _) = canonical_classes(alloc, d, &outputs)?;
    Ok(minimal)
}

/// The automaton that `canonical` gives, with a count of looks at transitions: at most the binary digits of the number of
/// states for each, also where memory runs out. A look is a transition that a round or Hopcroft's algorithm reads.
pub fn canonical_counted<L: Ledger>(
    alloc: Global,
    d: &Dfa,
    looks: &mut Looks<L>,
) -> Result<Dfa, OutOfMemory>
    ensures sizes { IfOk result (λ minimal. minimal.sizes ≡ d.now.sizes) }
    ensures language { IfOk result (λ minimal. SameLanguage d.now minimal) }
    ensures canonical { IfOk result (λ minimal. IsCanonical minimal) }
    ensures looks { (b : ℕ) → states_of d.now < 2 ^ b → looks.new ≤ looks.old + transition_count d.now * b }
{
    let outputs = accepting_outputs(alloc, d)?;
    let (minimal, _) = canonical_classes_counted(alloc, d, &outputs, looks)?;
    Ok(minimal)
}

/// The canonical automaton with the same language as an automaton whose states are numbered in the
/// order of the first words that lead to them: that automaton itself where it is canonical. `canonical`
/// says more.
pub fn canonical_of_numbered(alloc: Global, d: Dfa) -> Result<Dfa, OutOfMemory>
    requires { (firsts : List (List ℕ)) × IsNumberedByFirsts d firsts }
    ensures sizes { IfOk result (λ minimal. minimal.sizes ≡ d.sizes) }
    ensures language { IfOk result (λ minimal. SameLanguage d minimal) }
    ensures canonical { IfOk result (λ minimal. IsCanonical minimal) }
{
    match minimal_unless_canonical(alloc, &d)? {
        Some(minimal) => Ok(minimal),
        None => Ok(d),
    }
}

// The canonical automaton with the same language, or None where it is this one.
fn minimal_unless_canonical(alloc: Global, d: &Dfa) -> Result<Option<Dfa>, OutOfMemory>
    requires { (firsts : List (List ℕ)) × IsNumberedByFirsts d.now firsts }
    ensures sizes { IfOk result (λ made. IfSome made (λ minimal. minimal.sizes ≡ d.now.sizes)) }
    ensures language { IfOk result (λ made. IfSome made (λ minimal. SameLanguage d.now minimal)) }
    ensures minimal { IfOk result (λ made. IfSome made IsCanonical) }
    ensures canonical { IfOk result (λ made. IfNone made (IsCanonical d.now)) }
{
    // That the states and transitions of an automaton are a table.
    let _states = d.states();
    let outputs = accepting_outputs(alloc, d)?;
    let machine = Machine {
        dfa: d,
        outputs: &outputs,
    };
    let classes = residual_classes(alloc, &machine)?;
    if are_alone(alloc, &classes)? {
        return Ok(None);
    }
    let (minimal, _) = minimal(alloc, &machine, &classes)?;
    Ok(Some(minimal))
}
