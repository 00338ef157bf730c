//! The canonical automaton of a function from words to classes.

ghost use Rattle.std.specs.Prelude.{◌≡◌, ℕ, ◌+◌, ◌*◌, ◌<◌, ◌≤◌, ◌^◌, length, IfOk};
ghost use Rattle.digit_tuple.specs.Deterministic.{states_of};
ghost use Rattle.digit_tuple.specs.TransitionCounts.{transition_count};
ghost use Rattle.residual_classes.specs.ClassFunctions.{SameClassFunction};
ghost use Rattle.minimise.specs.Canonical.{IsCanonicalWithClasses};

use crate::minimal::minimal;
use digit_tuple::dfa::Dfa;
use digit_tuple::faults::OutOfMemory;
use residual_classes::classes::{counted_classes, residual_classes};
use residual_classes::looks::Looks;
use residual_classes::machine::Machine;
use std::alloc::Global;
use std::sync::ledger::Ledger;

/// The canonical automaton of the function from a word to the class of the state that it leads to, with the class of
/// each of its states. There is a class for each state. Class 0 says that a word has none, as a missing transition
/// does. The states are numbered in the order of the first words that lead to them; those with a class accept. The time
/// is that of `canonical`. OutOfMemory comes too where 2^32 - 1 of them are not enough, or there are 2^32 transitions.
pub fn canonical_classes(
    alloc: Global,
    d: &Dfa,
    classes: &[u32],
) -> Result<(Dfa, Vec<u32>), OutOfMemory>
    requires { length classes.now ≡ states_of d.now }
    ensures sizes { IfOk result (λ made. made.0.sizes ≡ d.now.sizes) }
    ensures function { IfOk result (λ made. SameClassFunction d.now classes.now made.0 made.1.items) }
    ensures canonical { IfOk result (λ made. IsCanonicalWithClasses made.0 made.1.items) }
{
    let machine = Machine {
        dfa: d,
        outputs: classes,
    };
    let residuals = residual_classes(alloc, &machine)?;
    minimal(alloc, &machine, &residuals)
}

/// What `canonical_classes` gives, with a count of looks at transitions: at most the binary digits of the number of states
/// for each.
pub fn canonical_classes_counted<L: Ledger>(
    alloc: Global,
    d: &Dfa,
    classes: &[u32],
    looks: &mut Looks<L>,
) -> Result<(Dfa, Vec<u32>), OutOfMemory>
    requires { length classes.now ≡ states_of d.now }
    ensures sizes { IfOk result (λ made. made.0.sizes ≡ d.now.sizes) }
    ensures function { IfOk result (λ made. SameClassFunction d.now classes.now made.0 made.1.items) }
    ensures canonical { IfOk result (λ made. IsCanonicalWithClasses made.0 made.1.items) }
    ensures looks { (b : ℕ) → states_of d.now < 2 ^ b → looks.new ≤ looks.old + transition_count d.now * b }
{
    let machine = Machine {
        dfa: d,
        outputs: classes,
    };
    let residuals = counted_classes(alloc, &machine, looks)?;
    minimal(alloc, &machine, &residuals)
}
