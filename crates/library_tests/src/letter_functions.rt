//! What steps on words give, as texts: the lines of the steps, and the function or the fault.

use crate::given::given;
use crate::outcomes::{after_lines, letter_text};
use crate::table_texts::table_of;
use digit_tuple::step_fault::StepFault;
use digit_tuple::steps::Steps;
use std::alloc::Global;
use std::process::Abort;
use word_output::letter_function::LetterFunction;

/// The lines of steps and the function that they make, or the lines and the fault.
pub fn made_text(
    rt: &impl Abort,
    alloc: Global,
    steps: &Steps,
    made: &Result<LetterFunction, StepFault>,
) -> String {
    let answer = match made {
        Ok(made) => function_text(rt, alloc, made),
        Err(fault) => step_fault_text(rt, alloc, *fault),
    };
    after_lines(rt, alloc, steps, &answer)
}

/// The name of a fault of a step.
pub fn step_fault_text(rt: &impl Abort, alloc: Global, fault: StepFault) -> String {
    given(rt, format!(in alloc; "{fault:?}"))
}

// The table of a function, and the letters of its states, with a dash where there is none.
fn function_text(rt: &impl Abort, alloc: Global, function: &LetterFunction) -> String {
    let mut text = table_of(rt, alloc, function.dfa());
    given(rt, text.push_str(" ="));
    for output in &given(rt, function.outputs(alloc)) {
        given(rt, text.push_str(&letter_text(rt, alloc, *output)));
    }
    text
}
