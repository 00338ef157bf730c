//! Whether classes are such that no round parts them.

ghost use Rattle.std.specs.Prelude.{◌≡◌, ◌+◌, ◌↔◌, length, IfOk, IsTrue};
ghost use Rattle.digit_tuple.specs.Deterministic.{IsTable, letters_of, states_of};
ghost use Rattle.residual_classes.specs.Classes.{class_of};
ghost use Rattle.residual_classes.specs.CoarseClasses.{AreCoarseClasses, AreResidualClasses};
ghost use Rattle.residual_classes.specs.FlatTransitions.{AreFlat};
ghost use Rattle.residual_classes.specs.Leaders.{AreLeaders};
ghost use Rattle.residual_classes.specs.Outputs.{HasOutputs};
ghost use Rattle.residual_classes.specs.Alike.{AreAlike};

use crate::class_row::ClassRow;
use crate::flat_transitions::FlatTransitions;
use crate::leaders::leaders;
use crate::machine::Machine;
use digit_tuple::dfa::Dfa;
use digit_tuple::faults::OutOfMemory;
use std::alloc::Global;

/// Whether no round parts the classes and each has one output, so that they are the residuals: each state
/// and the sink is compared with one of its class, up to the first that differs.
pub fn is_stable(
    alloc: Global,
    machine: &Machine,
    flat: &FlatTransitions,
    classes: &[u32],
) -> Result<bool, OutOfMemory>
    requires outputs { HasOutputs machine.now }
    requires flat { AreFlat machine.now.dfa.now flat.now }
    requires classes { AreCoarseClasses machine.now.dfa.now machine.now.outputs.now classes.now }
    ensures { IfOk result (λ stable. IsTrue stable ↔ AreResidualClasses machine.now.dfa.now machine.now.outputs.now classes.now) }
{
    let leaders = leaders(alloc, classes, machine.dfa.states() as usize + 1)?;
    let mut rows = RowPair::new(alloc);
    are_like_leaders(machine, flat, classes, &leaders, &mut rows)
}

// Whether each state and the sink has the output of the leader of its class and is like that, up to the first that is not.
fn are_like_leaders(
    machine: &Machine,
    flat: &FlatTransitions,
    classes: &[u32],
    leaders: &[u32],
    rows: &mut RowPair,
) -> Result<bool, OutOfMemory>
    requires outputs { HasOutputs machine.now }
    requires flat { AreFlat machine.now.dfa.now flat.now }
    requires classes { AreCoarseClasses machine.now.dfa.now machine.now.outputs.now classes.now }
    requires leaders { AreLeaders classes.now leaders.now (states_of machine.now.dfa.now + 1) }
    ensures { IfOk result (λ alike. IsTrue alike ↔ AreResidualClasses machine.now.dfa.now machine.now.outputs.now classes.now) }
{
    let dfa = machine.dfa;
    for place in 0..dfa.states() as usize + 1 {
        let state = place as u32;
        let leader = leaders[classes[place] as usize];
        if machine.output(state) != machine.output(leader) {
            return Ok(false);
        }
        if leader != state
            && !lead_alike(dfa, flat, classes, state, leader)
            && !rows.are_alike(dfa, classes, state, leader)?
        {
            return Ok(false);
        }
    }
    Ok(true)
}

// Whether states of one class have transitions by the same letters to the same classes, one by one, so that they are
// alike. Where they do not, they still are if they differ by transitions to the sink's class alone.
fn lead_alike(dfa: &Dfa, flat: &FlatTransitions, classes: &[u32], p: u32, q: u32) -> bool
    requires flat { AreFlat dfa.now flat.now }
    requires width { length classes.now ≡ states_of dfa.now + 1 }
    requires own { class_of classes.now p ≡ class_of classes.now q }
    ensures { IsTrue result → AreAlike dfa.now classes.now p q }
{
    let states = dfa.states();
    if p >= states || q >= states {
        return false;
    }
    let start = flat.starts[p as usize] as usize;
    let other = flat.starts[q as usize] as usize;
    let count = flat.starts[p as usize + 1] as usize - start;
    if flat.starts[q as usize + 1] as usize - other != count {
        return false;
    }
    for place in 0..count {
        let letter = flat.letters.letter(start, start + place);
        if letter != flat.letters.letter(other, other + place) {
            return false;
        }
        let class = classes[flat.targets[start + place] as usize];
        if class != classes[flat.targets[other + place] as usize] {
            return false;
        }
    }
    true
}

// Two rows to be compared.
#[derive(Drop)]
struct RowPair {
    one: ClassRow,
    other: ClassRow,
}

impl RowPair {
    // Two empty rows.
    fn new(alloc: Global) -> Self {
        RowPair {
            one: ClassRow::new(alloc),
            other: ClassRow::new(alloc),
        }
    }

    // Whether two states of one class are alike.
    fn are_alike(&mut self, dfa: &Dfa, classes: &[u32], p: u32, q: u32) -> Result<bool, OutOfMemory>
        requires table { IsTable (letters_of dfa.now) dfa.now.states }
        requires width { length classes.now ≡ states_of dfa.now + 1 }
        requires own { class_of classes.now p ≡ class_of classes.now q }
        ensures { IfOk result (λ alike. IsTrue alike ↔ AreAlike dfa.now classes.now p q) }
    {
        self.one.read(dfa, classes, p)?;
        self.other.read(dfa, classes, q)?;
        Ok(self.one.as_slice() == self.other.as_slice())
    }
}
