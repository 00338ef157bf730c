//! Hashes of states, which rounds make anew: states of one hash are those that a class holds together.

ghost use Rattle.std.specs.Prelude.{◌≡◌, ℕ, ◌+◌, ◌<◌, ◌≤◌, ◌^◌, length, IfOk, OnOk};
ghost use Rattle.digit_tuple.specs.Deterministic.{states_of};
ghost use Rattle.digit_tuple.specs.TransitionCounts.{transition_count};
ghost use Rattle.residual_classes.specs.Classes.{class_of};
ghost use Rattle.residual_classes.specs.CoarseClasses.{AreCoarseClasses, AreCoarseNumbers};
ghost use Rattle.residual_classes.specs.FlatTransitions.{AreFlat, AreLaidOut};
ghost use Rattle.residual_classes.specs.Hashes.{AreHashed, output_hash};
ghost use Rattle.residual_classes.specs.LookCounts.{all_looked_at};
ghost use Rattle.residual_classes.specs.Outputs.{HasOutputs};
ghost use Rattle.residual_classes.specs.TransitionLetters.{listed};

use crate::first_places::first_places;
use crate::flat_transitions::FlatTransitions;
use crate::hashing::{LetterSpan, RoundPart};
use crate::looks::Looks;
use crate::machine::Machine;
use digit_tuple::faults::OutOfMemory;
use digit_tuple::key_hashes::mix;
use std::alloc::Global;
use std::sync::ledger::Ledger;

// What outputs are mixed with, so that their hashes are spread over all bits.
const SEED: u64 = 0x8000_0000_0000_0000;

// How many states the sample has at least.
const MINIMAL_SAMPLE: usize = 16;

/// The hashes of the states and last of the sink, 8 bytes each, and a sample of states.
#[derive(Drop)]
pub struct StateHashes {
    hashes: Vec<u64>,
    // Some states, each at a place that its hash before a round gave.
    sample: Vec<u32>,
}

impl StateHashes {
    /// The hashes of the states' outputs.
    pub fn new(alloc: Global, machine: &Machine) -> Result<Self, OutOfMemory>
        requires { HasOutputs machine.now }
        ensures { IfOk result (λ made. AreCoarseNumbers machine.now.dfa.now machine.now.outputs.now made.hashes.items) }
    {
        let states = machine.dfa.states();
        let count = states as usize + 1;
        let places = (count.next_power_of_two() / 16).max(MINIMAL_SAMPLE);
        Ok(StateHashes {
            hashes: output_hashes(alloc, machine, count)?,
            sample: vec![in alloc; 0; places]?,
        })
    }

    /// A round: the hashes of states by their transitions to those that were distinguished. The transitions by the first half
    /// of the letters are looked at before the others, which lead to what is distinguished by then, so that few rounds say of
    /// long words. Gives whether it is seen to part states, which may stay unseen where it parts few. Its time follows the
    /// transitions, and 8 bytes a state are free again at its end.
    pub fn advance<L: Ledger>(
        &mut self,
        alloc: Global,
        machine: &Machine,
        flat: &FlatTransitions,
        looks: &mut Looks<L>,
    ) -> Result<bool, OutOfMemory>
        requires outputs { HasOutputs machine.now }
        requires flat { AreFlat machine.now.dfa.now flat.now }
        requires hashes { AreCoarseNumbers machine.now.dfa.now machine.now.outputs.now self.old.hashes.items }
        ensures coarse { OnOk result (AreCoarseNumbers machine.now.dfa.now machine.now.outputs.now self.new.hashes.items) }
        ensures looks { looks.new ≤ looks.old + transition_count machine.now.dfa.now }
    {
        let dfa = machine.dfa;
        let letters = dfa.alphabet().letters();
        let middle = letters - letters / 2;
        let mut between = vec![in alloc; 0; self.hashes.len()]?;
        let lower = RoundPart {
            dfa,
            starts: &flat.starts,
            letters: &flat.letters,
            targets: &flat.targets,
            hashes: &self.hashes,
            span: LetterSpan {
                first: 0,
                end: middle,
            },
        };
        write_hashes(&lower, &mut between, looks);
        let parts = is_seen_to_part(&self.hashes, &between, &mut self.sample);
        let upper = RoundPart {
            dfa,
            starts: &flat.starts,
            letters: &flat.letters,
            targets: &flat.targets,
            hashes: &between,
            span: LetterSpan {
                first: middle,
                end: letters,
            },
        };
        write_hashes(&upper, &mut self.hashes, looks);
        Ok(parts || is_seen_to_part(&between, &self.hashes, &mut self.sample))
    }

    /// The classes of states that have one hash.
    pub fn classes(&self, alloc: Global, machine: &Machine) -> Result<Vec<u32>, OutOfMemory>
        requires { AreCoarseNumbers machine.now.dfa.now machine.now.outputs.now self.now.hashes.items }
        ensures { IfOk result (λ classes. AreCoarseClasses machine.now.dfa.now machine.now.outputs.now classes.items) }
    {
        first_places(alloc, &self.hashes)
    }
}

// The hash of the output of each of the states and the sink.
fn output_hashes(alloc: Global, machine: &Machine, count: usize) -> Result<Vec<u64>, OutOfMemory>
    requires { count ≤ 2 ^ 32 }
    ensures width { IfOk result (λ hashes. length hashes.items ≡ count) }
    ensures are { IfOk result (λ hashes. (q : ℕ) → q < count → class_of hashes.items q ≡ output_hash (class_of machine.now.outputs.now q)) }
{
    let mut hashes = Vec::with_capacity(alloc, count)?;
    for state in 0..count {
        hashes.push(mix(SEED, u64::from(machine.output(state as u32))))?;
    }
    Ok(hashes)
}

// Writes the hashes that a part of a round makes of the old ones.
fn write_hashes<L: Ledger>(part: &RoundPart, out: &mut Vec<u64>, looks: &mut Looks<L>)
    requires flat { AreLaidOut part.now.dfa.now part.now.starts.now (listed part.now.letters.now) part.now.targets.now (states_of part.now.dfa.now) }
    requires width { length part.now.hashes.now ≡ states_of part.now.dfa.now + 1 }
    requires out { length out.old.items ≡ length part.now.hashes.now }
    ensures hashed { AreHashed part.now.dfa.now part.now.span.first part.now.span.end part.now.hashes.now out.new.items }
    ensures looks { looks.new ≤ looks.old + all_looked_at part.now.span.first part.now.span.end part.now.dfa.now }
{
    // That states are numbered by 32 bits.
    let _states = part.dfa.states();
    for state in 0..part.hashes.len() {
        out[state] = part.state_hash(state as u32, looks);
    }
}

// Whether a state that had one hash with one of the sample has another now. The sample goes on with the states that are
// looked at, up to the first such one.
fn is_seen_to_part(old: &[u64], new: &[u64], sample: &mut [u32]) -> bool {
    let mask = sample.len().saturating_sub(1);
    for state in 0..old.len().min(new.len()) {
        let place = old[state] as usize & mask;
        if place < sample.len() {
            let other = sample[place] as usize;
            if other < state && old[other] == old[state] && new[other] != new[state] {
                return true;
            }
            sample[place] = u32::try_from(state).unwrap_or(0);
        }
    }
    false
}
