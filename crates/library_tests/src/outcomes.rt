//! What calls give, as texts: the width and the automaton, or why there is none.

use crate::given::{given, no_answer};
use crate::table_texts::{line_of, table_of};
use digit_tuple::dfa::Dfa;
use digit_tuple::faults::OpFault;
use digit_tuple::stepped::Stepped;
use digit_tuple::steps::{StepLine, Steps};
use minimise::tracked::Tracked;
use std::alloc::Global;
use std::fmt::Debug;
use std::process::Abort;

/// The width and the line of an automaton with names, or why there is none.
pub fn outcome(rt: &impl Abort, alloc: Global, made: Result<Stepped<Tracked>, OpFault>) -> String {
    match made {
        Ok(stepped) => with_width(
            rt,
            alloc,
            stepped.width,
            &line_of(rt, alloc, &stepped.result),
        ),
        Err(fault) => refusal(rt, alloc, fault),
    }
}

/// The width and the table of an automaton, or why there is none.
pub fn table_outcome(
    rt: &impl Abort,
    alloc: Global,
    made: Result<Stepped<Dfa>, OpFault>,
) -> String {
    match made {
        Ok(stepped) => with_width(
            rt,
            alloc,
            stepped.width,
            &table_of(rt, alloc, &stepped.result),
        ),
        Err(fault) => refusal(rt, alloc, fault),
    }
}

// A width and a text.
fn with_width(rt: &impl Abort, alloc: Global, width: u32, text: &str) -> String {
    given(rt, format!(in alloc; "{width} {text}"))
}

// The text of a refusal.
fn refusal(rt: &impl Abort, alloc: Global, fault: OpFault) -> String {
    match fault {
        OpFault::States => given(rt, String::from_str(alloc, "States")),
        OpFault::Letters => given(rt, String::from_str(alloc, "Letters")),
        OpFault::Memory => no_answer(rt),
    }
}

/// The width with which the text of an outcome begins.
pub fn width_of(rt: &impl Abort, text: &str) -> u32 {
    let (width, _) = text.split_once(' ').expect(rt, "a row in form");
    given(rt, width.parse())
}

/// The lines of steps, each its kind, its width and its size.
pub fn lines_of(rt: &impl Abort, alloc: Global, steps: &Steps) -> String {
    let mut text = String::new(alloc);
    for number in 0..steps.count() {
        given(rt, text.push_str(&line_text(rt, alloc, steps.line(number))));
    }
    text
}

/// The lines of steps, and after them what the steps give.
pub fn after_lines(rt: &impl Abort, alloc: Global, steps: &Steps, answer: &str) -> String {
    let mut text = lines_of(rt, alloc, steps);
    given(rt, text.push_str(answer));
    text
}

// The text of a step's line.
fn line_text(rt: &impl Abort, alloc: Global, line: StepLine) -> String {
    let kind = line.kind.name();
    given(
        rt,
        format!(in alloc; "{kind} {} {}, ", line.width, line.size),
    )
}

/// A blank and a letter, or a blank and a dash where there is none.
pub fn letter_text(rt: &impl Abort, alloc: Global, letter: Option<i32>) -> String {
    match letter {
        Some(letter) => given(rt, format!(in alloc; " {letter}")),
        None => given(rt, String::from_str(alloc, " -")),
    }
}

/// Asserts that a row has this text.
pub fn expect_text(rt: &impl Abort, row: &str, found: &str, wanted: &str) {
    assert_eq!(rt; found, wanted, "of {row}");
}

/// Asserts that a row has these bytes.
pub fn expect_bytes(rt: &impl Abort, row: &str, found: &[u8], wanted: &[u8]) {
    assert_eq!(rt; found, wanted, "of {row}");
}

/// Asserts that a row has this value.
pub fn expect_value<T: Debug + PartialEq>(rt: &impl Abort, row: &str, found: &T, wanted: &T) {
    assert!(rt; found == wanted, "of {row}: {found:?}, not {wanted:?}");
}

/// Asserts that a row is so.
pub fn expect_so(rt: &impl Abort, row: &str, is_so: bool) {
    expect_value(rt, row, &is_so, &true);
}
