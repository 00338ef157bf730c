//! Sets of states, gathered by the letters that lead to others, and by their classes.

ghost use Rattle.std.specs.Prelude.{◌+◌, ◌<◌, ◌≤◌, length, sum_by, OnOk};
ghost use Rattle.std.specs.List.{All, flat_map};
ghost use Rattle.residual_classes.specs.Gathering.{HaveLetters, IsGathered, transitions_by_class};
ghost use Rattle.residual_classes.specs.ReversedTransitions.{in_degree, transitions_into};

use crate::looks::Looks;
use crate::reversed_transitions::ReversedTransitions;
use digit_tuple::faults::OutOfMemory;
use digit_tuple::groups::group_into;
use digit_tuple::key_transitions::KeyTransitions;
use digit_tuple::transitions::Transition;
use std::sync::ledger::Ledger;

/// Writes from where transitions lead to the states of the set, for each letter that one of these transitions has, and
/// looks at each once. The buffer of transitions may hold anything.
pub fn sources_by_letter<L: Ledger>(
    reversed: &ReversedTransitions,
    set: &[u32],
    transitions: &mut Vec<Transition>,
    out: &mut KeyTransitions,
    looks: &mut Looks<L>,
) -> Result<(), OutOfMemory>
    ensures looks { looks.new ≤ looks.old + sum_by (in_degree reversed.now) set.now }
    ensures gathered { OnOk result (All (λ part. IsGathered (flat_map (transitions_into reversed.now) set.now) part.letter part.key) out.new) }
    ensures letters { OnOk result (HaveLetters out.new (flat_map (transitions_into reversed.now) set.now)) }
{
    transitions.clear();
    for state in set {
        reversed.add_transitions_to(*state, transitions, looks)?;
    }
    gather(transitions, out)
}

/// Writes the states of the set by their classes, in place of letters. The buffer of transitions may hold anything.
pub fn states_by_class(
    classes: &[u32],
    set: &[u32],
    transitions: &mut Vec<Transition>,
    out: &mut KeyTransitions,
) -> Result<(), OutOfMemory>
    requires { All (λ q. q < length classes.now) set.now }
    ensures gathered { OnOk result (All (λ part. IsGathered (transitions_by_class classes.now set.now) part.letter part.key) out.new) }
    ensures letters { OnOk result (HaveLetters out.new (transitions_by_class classes.now set.now)) }
{
    transitions.clear();
    for state in set {
        transitions.push(Transition {
            letter: classes[*state as usize],
            target: *state,
        })?;
    }
    gather(transitions, out)
}

// Writes the targets of the transitions, by letter.
fn gather(transitions: &mut Vec<Transition>, out: &mut KeyTransitions) -> Result<(), OutOfMemory>
    ensures gathered { OnOk result (All (λ part. IsGathered transitions.old.items part.letter part.key) out.new) }
    ensures letters { OnOk result (HaveLetters out.new transitions.old.items) }
{
    transitions.sort_unstable();
    transitions.dedup();
    group_into(transitions, out)
}
