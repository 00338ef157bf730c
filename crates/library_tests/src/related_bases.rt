//! Bases that are powers of one integer, and the letters of a word over such bases.

ghost use Rattle.std.specs.Prelude.{◌≡◌, ◌≤◌, ◌^◌, ◌∷◌, [], IsTrue};

use crate::fixed_words::{THUE_MORSE, fixed_word};
use crate::given::{given, no_answer};
use crate::letter_functions::step_fault_text;
use crate::outcomes::{after_lines, expect_text};
use crate::table_texts::table_of;
use base_change::join::join_letters;
use base_change::related::related;
use base_change::split::split_letters;
use base_k::base_k::{GREATEST_BASE, LEAST_BASE};
use digit_tuple::step_fault::StepFault;
use digit_tuple::steps::Steps;
use std::alloc::Global;
use std::process::Abort;
use word_output::letter_function::LetterFunction;

// The least root of two bases with the exponents, or a dash where there is none.
fn root_of(rt: &impl Abort, alloc: Global, old: u32, new: u32) -> String {
    if old < LEAST_BASE || GREATEST_BASE < old || new < LEAST_BASE || GREATEST_BASE < new {
        no_answer(rt);
    }
    let text = match related(old, new) {
        Some(common) => {
            format!(in alloc; "{} {} {}", common.root, common.old_power, common.new_power)
        }
        None => String::from_str(alloc, "-"),
    };
    given(rt, text)
}

// An old base, a new one, and the least root with the exponents.
static ROOTS: [(u32, u32, &str); 14] = [
    (2, 2, "2 1 1"),
    (2, 4, "2 1 2"),
    (4, 2, "2 2 1"),
    (4, 4, "2 2 2"),
    (8, 4, "2 3 2"),
    (8, 32, "2 3 5"),
    (16, 16, "2 4 4"),
    (27, 9, "3 3 2"),
    (6, 36, "6 1 2"),
    (40, 40, "40 1 1"),
    // one divides the other, or they have a common divisor
    (2, 6, "-"),
    (36, 4, "-"),
    (12, 6, "-"),
    (40, 39, "-"),
];

#[test]
fn roots_are_those_worked_out(rt: HostRuntime) {
    for (old, new, wanted) in &ROOTS {
        let found = root_of(&rt, rt.alloc(), *old, *new);
        expect_text(&rt, wanted, &found, wanted);
    }
}

// Whether the words of a function are over so many digits, on one track.
fn is_over(function: &LetterFunction, digits: u32) -> bool
    ensures { IsTrue result → function.now.automaton.sizes ≡ digits ∷ [] }
{
    match function.dfa().alphabet().sizes() {
        [size] => *size == digits,
        _ => false,
    }
}

// The letters of words over 2 digits as those over a power of 2, and these again as those over 2.
fn there_and_back(
    rt: &impl Abort,
    alloc: Global,
    function: &LetterFunction,
    power: u32,
    steps: &mut Steps,
) -> Result<LetterFunction, StepFault>
    requires some { 1 ≤ power }
    requires few { 2 ^ power ≤ 65536 }
{
    if !is_over(function, 2) {
        no_answer(rt);
    }
    let joined = join_letters(alloc, function, 2, power, steps)?;
    if !is_over(&joined, 2u32.pow(power)) {
        no_answer(rt);
    }
    split_letters(alloc, &joined, 2, power, steps)
}

// Whether the automaton that is made is that of a function, or the fault.
fn sameness(
    rt: &impl Abort,
    alloc: Global,
    made: &Result<LetterFunction, StepFault>,
    function: &LetterFunction,
) -> String {
    match made {
        Ok(made) => {
            let same = table_of(rt, alloc, made.dfa()) == table_of(rt, alloc, function.dfa());
            given(rt, same.to_string(alloc))
        }
        Err(fault) => step_fault_text(rt, alloc, *fault),
    }
}

// The lines of the steps there and back, and whether the automaton is the same then; or the lines and the fault.
fn changed(rt: &impl Abort, alloc: Global, threes: bool, limit: u32) -> String {
    let word = fixed_word(rt, alloc, THUE_MORSE);
    let function = word.function();
    let mut steps = Steps::new(alloc, limit);
    let back = if threes {
        there_and_back(rt, alloc, function, 3, &mut steps)
    } else {
        there_and_back(rt, alloc, function, 2, &mut steps)
    };
    let answer = sameness(rt, alloc, &back, function);
    after_lines(rt, alloc, &steps, &answer)
}

// Whether by three digits, the limit, and what is given. The widths are those of an independent program.
static CHANGED: [(bool, u32, &str); 6] = [
    (false, 6, "join 2 2, split 6 2, true"),
    (true, 14, "join 2 2, split 14 2, true"),
    // the first step past the limit
    (false, 5, "join 2 2, States(2)"),
    (true, 13, "join 2 2, States(2)"),
    (false, 1, "States(1)"),
    (true, 1, "States(1)"),
];

#[test]
fn widths_of_splits_and_joins_are_those_worked_out(rt: HostRuntime) {
    for (threes, limit, wanted) in &CHANGED {
        let found = changed(&rt, rt.alloc(), *threes, *limit);
        expect_text(&rt, wanted, &found, wanted);
    }
}
