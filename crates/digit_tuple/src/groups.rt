//! Transitions gathered by their letters.

ghost use Rattle.std.specs.Prelude.{◌≡◌, ◌≢◌, ℕ, ◌<◌, ◌≤◌, length, slice_index_or, OnOk};
ghost use Rattle.std.specs.List.{AllPairs, AllWithin};
ghost use Rattle.digit_tuple.specs.Automaton.{IsBefore};
ghost use Rattle.digit_tuple.specs.declared.transitions.Transition.{Transition};
ghost use Rattle.digit_tuple.specs.Groups.{AreGroups};

use crate::faults::OutOfMemory;
use crate::key_transitions::KeyTransitions;
use crate::transitions::Transition;

/// Writes, for each letter of the transitions, the targets of the transitions by it, in place of what was there.
pub fn group_into(transitions: &[Transition], out: &mut KeyTransitions) -> Result<(), OutOfMemory>
    requires { AllPairs IsBefore transitions.now }
    ensures { OnOk result (AreGroups transitions.now out.new) }
{
    out.clear();
    let mut place = 0;
    while place < transitions.len() {
        let letter = transitions[place].letter;
        let end = group_end(transitions, place + 1, letter);
        out.push_targets(letter, &transitions[place..end])?;
        place = end;
    }
    Ok(())
}

// Where the transitions by the letter, from one on, end.
fn group_end(transitions: &[Transition], from: usize, letter: u32) -> usize
    requires { from ≤ length transitions.now }
    ensures after { from ≤ result }
    ensures within { result ≤ length transitions.now }
    ensures same { AllWithin (λ transition. transition.letter ≡ letter) transitions.now from result }
    ensures other { (d : Transition) → result < length transitions.now → (slice_index_or transitions.now result d).letter ≢ letter }
{
    let mut end = from;
    while end < transitions.len() && transitions[end].letter == letter {
        end += 1;
    }
    end
}
