//! Rounds that part states by hashes (Edward Moore, "Gedanken-experiments on sequential machines"), in time linear in the
//! table. Where two hashes happen to be equal, states stay together that a round could part; they are never parted
//! wrongly.

ghost use Rattle.std.specs.Prelude.{◌≡◌, ◌==◌, ℕ, ◌+◌, ◌*◌, ◌<◌, ◌≤◌, ◌^◌, false, count_by, length, IfOk, IsTrue, OnOk};
ghost use Rattle.std.specs.List.{All};
ghost use Rattle.digit_tuple.specs.Deterministic.{states_of};
ghost use Rattle.digit_tuple.specs.TransitionCounts.{transition_count};
ghost use Rattle.residual_classes.specs.CoarseClasses.{AreCoarseClasses, AreCoarseNumbers, AreResidualClasses};
ghost use Rattle.residual_classes.specs.FlatTransitions.{AreFlat};
ghost use Rattle.residual_classes.specs.Outputs.{HasOutputs};
ghost use Rattle.residual_classes.specs.RoundCosts.{AreCounted, HasRoom, IsCheap};

use crate::flat_transitions::FlatTransitions;
use crate::looks::Looks;
use crate::machine::Machine;
use crate::stability::is_stable;
use crate::state_hashes::StateHashes;
use digit_tuple::faults::OutOfMemory;
use std::alloc::Global;
use std::sync::ledger::Ledger;

/// Classes, and how many states the largest has at most.
#[derive(Drop)]
pub struct Counted {
    pub classes: Vec<u32>,
    pub largest: u32,
}

/// The classes that rounds leave, and whether no further round parts them.
#[derive(Drop)]
pub struct RoundClasses {
    pub counted: Counted,
    pub stable: bool,
}

/// The classes after rounds. They end where none parts the classes, where no two states are counted in one, or where one
/// more could cost too much: a round looks at each transition once, and to part what they leave by smaller parts takes
/// one look more, and on average half the binary logarithm of the size of the largest class. All of them are to be no
/// more than the binary digits of the number of states. Classes are numbered where a round is not seen to part any, and
/// to be counted where by the last count they could be too large. Where hashes are equal by chance, a count may find a
/// larger class than the one before: then the classes of that one stay.
pub fn classes_by_rounds<L: Ledger>(
    alloc: Global,
    machine: &Machine,
    flat: &FlatTransitions,
    looks: &mut Looks<L>,
) -> Result<RoundClasses, OutOfMemory>
    requires outputs { HasOutputs machine.now }
    requires flat { AreFlat machine.now.dfa.now flat.now }
    ensures coarse { IfOk result (λ left. AreCoarseClasses machine.now.dfa.now machine.now.outputs.now left.counted.classes.items) }
    ensures stable { IfOk result (λ left. IsTrue left.stable → AreResidualClasses machine.now.dfa.now machine.now.outputs.now left.counted.classes.items) }
    ensures looks { (b : ℕ) → states_of machine.now.dfa.now < 2 ^ b → looks.new ≤ looks.old + transition_count machine.now.dfa.now * b }
    ensures room { IfOk result (λ left. left.stable ≡ false → HasRoom machine.now.dfa.now left.counted looks.old looks.new) }
{
    let mut hashes = StateHashes::new(alloc, machine)?;
    classes_after_rounds(alloc, machine, flat, &mut hashes, looks)
}

// The classes after rounds that go on from hashes.
fn classes_after_rounds<L: Ledger>(
    alloc: Global,
    machine: &Machine,
    flat: &FlatTransitions,
    hashes: &mut StateHashes,
    looks: &mut Looks<L>,
) -> Result<RoundClasses, OutOfMemory>
    requires outputs { HasOutputs machine.now }
    requires flat { AreFlat machine.now.dfa.now flat.now }
    requires hashes { AreCoarseNumbers machine.now.dfa.now machine.now.outputs.now hashes.old.hashes.items }
    ensures coarse { IfOk result (λ left. AreCoarseClasses machine.now.dfa.now machine.now.outputs.now left.counted.classes.items) }
    ensures stable { IfOk result (λ left. IsTrue left.stable → AreResidualClasses machine.now.dfa.now machine.now.outputs.now left.counted.classes.items) }
    ensures looks { (b : ℕ) → states_of machine.now.dfa.now < 2 ^ b → looks.new ≤ looks.old + transition_count machine.now.dfa.now * b }
    ensures room { IfOk result (λ left. left.stable ≡ false → HasRoom machine.now.dfa.now left.counted looks.old looks.new) }
{
    let states = machine.dfa.states();
    let mut counted = Counted::one_class(alloc, machine)?;
    for round in 0..binary_digits(states) {
        let is_last = counted.is_last(alloc, machine, hashes, round)?;
        if is_last || counted.largest <= 1 {
            let stable = is_stable(alloc, machine, flat, &counted.classes)?;
            return Ok(RoundClasses { counted, stable });
        }
        if !hashes.advance(alloc, machine, flat, looks)? {
            let classes = hashes.classes(alloc, machine)?;
            if is_stable(alloc, machine, flat, &classes)? {
                let largest = states;
                return Ok(RoundClasses {
                    counted: Counted { classes, largest },
                    stable: true,
                });
            }
        }
    }
    Ok(RoundClasses {
        counted,
        stable: false,
    })
}

impl Counted {
    // One class of all states.
    fn one_class(alloc: Global, machine: &Machine) -> Result<Self, OutOfMemory>
        ensures counted { IfOk result (λ made. AreCounted machine.now.dfa.now machine.now.outputs.now made) }
        ensures largest { IfOk result (λ made. made.largest ≡ states_of machine.now.dfa.now) }
    {
        let states = machine.dfa.states();
        Ok(Counted {
            classes: vec![in alloc; 0; states as usize + 1]?,
            largest: states,
        })
    }

    // Whether one more round after so many could lead to too many looks. The classes of the hashes are counted where it
    // could by the last count.
    fn is_last(
        &mut self,
        alloc: Global,
        machine: &Machine,
        hashes: &StateHashes,
        rounds: u32,
    ) -> Result<bool, OutOfMemory>
        requires rounds { rounds ≤ 32 }
        requires counted { AreCounted machine.now.dfa.now machine.now.outputs.now self.old }
        requires hashes { AreCoarseNumbers machine.now.dfa.now machine.now.outputs.now hashes.now.hashes.items }
        ensures counted { OnOk result (AreCounted machine.now.dfa.now machine.now.outputs.now self.new) }
        ensures largest { OnOk result (self.new.largest ≤ self.old.largest) }
        ensures cheap { IfOk result (λ last. last ≡ false → IsCheap (states_of machine.now.dfa.now) (rounds + 1) self.new.largest) }
    {
        let states = machine.dfa.states();
        if !is_too_dear(states, rounds, self.largest) {
            return Ok(false);
        }
        self.take(alloc, machine, hashes.classes(alloc, machine)?)?;
        Ok(is_too_dear(states, rounds, self.largest))
    }

    // Takes other classes, unless their largest is larger.
    fn take(
        &mut self,
        alloc: Global,
        machine: &Machine,
        classes: Vec<u32>,
    ) -> Result<(), OutOfMemory>
        requires counted { AreCounted machine.now.dfa.now machine.now.outputs.now self.old }
        requires coarse { AreCoarseClasses machine.now.dfa.now machine.now.outputs.now classes.items }
        ensures counted { OnOk result (AreCounted machine.now.dfa.now machine.now.outputs.now self.new) }
        ensures largest { OnOk result (self.new.largest ≤ self.old.largest) }
    {
        let states = machine.dfa.states();
        let largest = largest_class(alloc, &classes[..states as usize])?;
        if largest <= self.largest {
            *self = Counted { classes, largest };
        }
        Ok(())
    }
}

// Whether one more round after so many could lead to too many looks at transitions, where no class is larger.
fn is_too_dear(states: u32, rounds: u32, largest: u32) -> bool
    requires { rounds ≤ 32 }
    ensures { result ≡ false → IsCheap states (rounds + 1) largest }
{
    let half_looks = 2 * (rounds + 2) + binary_digits(largest.saturating_sub(1));
    half_looks > 2 * binary_digits(states)
}

// How many binary digits a number has, none where it is 0.
fn binary_digits(number: u32) -> u32
    ensures few { result ≤ 32 }
    ensures enough { number < 2 ^ result }
    ensures least { (b : ℕ) → number < 2 ^ b → result ≤ b }
{
    32 - number.leading_zeros()
}

// How many states the largest class has.
fn largest_class(alloc: Global, classes: &[u32]) -> Result<u32, OutOfMemory>
    requires small { length classes.now < 2 ^ 32 }
    requires below { All (λ class. class ≤ length classes.now) classes.now }
    ensures { IfOk result (λ largest. (class : ℕ) → count_by (λ c. c == class) classes.now ≤ largest) }
{
    let mut counts = vec![in alloc; 0; classes.len() + 1]?;
    let mut largest = 0;
    for class in classes {
        let count = counts[*class as usize] + 1;
        counts[*class as usize] = count;
        if count > largest {
            largest = count;
        }
    }
    Ok(largest)
}
