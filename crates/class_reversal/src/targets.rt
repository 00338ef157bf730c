//! Where letters lead, letter by letter.

ghost use Rattle.std.specs.Prelude.{◌≡◌, ◌++◌, ◌<◌, IfOk, OnOk};
ghost use Rattle.digit_tuple.specs.Deterministic.{letters_of};
ghost use Rattle.class_reversal.specs.BackwardClasses.{AreTargets, targets_by};

use digit_tuple::dfa::Dfa;
use digit_tuple::faults::OutOfMemory;
use minimise::sink::next_state;
use std::alloc::Global;

/// For each letter in turn, where it leads from each state, to the sink where there is no transition.
pub fn targets(alloc: Global, dfa: &Dfa) -> Result<Vec<u32>, OutOfMemory>
    ensures { IfOk result (λ targets. AreTargets dfa.now targets.items) }
{
    let letters = dfa.alphabet().letters();
    let room = letters as usize * dfa.states() as usize;
    let mut targets = Vec::with_capacity(alloc, room)?;
    for letter in 0..letters {
        push_targets(dfa, letter, &mut targets)?;
    }
    Ok(targets)
}

// Adds where a letter leads from each state.
fn push_targets(dfa: &Dfa, letter: u32, targets: &mut Vec<u32>) -> Result<(), OutOfMemory>
    ensures { OnOk result (targets.new.items ≡ targets.old.items ++ targets_by dfa.now letter) }
{
    for state in 0..dfa.states() {
        targets.push(next_state(dfa, state, letter))?;
    }
    Ok(())
}
