//! Words read from their other end: the widths, tables and letters, worked by hand.

use crate::fixed_words::{Change, DOUBLING, THUE_MORSE, changed, fixed_word};
use crate::given::{given, no_answer};
use crate::outcomes::expect_text;
use crate::table_texts::table_of;
use class_reversal::reversal::reverse_classes;
use digit_tuple::limit::Limit;
use std::alloc::Global;
use std::process::Abort;

// The parity of all ones is that of the reversed word; that of the last ones needs two states until the first zero, and two after.
static REVERSED: [(&str, &str, u32, &str); 5] = [
    (
        "Thue and Morse",
        THUE_MORSE,
        2,
        "reverse 2 2, /! 0>0 1>1/! 0>1 1>0 = 0 1",
    ),
    ("Thue and Morse, one less", THUE_MORSE, 1, "States(1)"),
    (
        "doubling",
        DOUBLING,
        4,
        "reverse 4 4, /! 0>1 1>2/! 0>1 1>1/! 0>3 1>0/! 0>3 1>3 = 0 0 1 1",
    ),
    ("doubling, one less", DOUBLING, 3, "States(1)"),
    ("one letter", "0->00", 1, "reverse 1 1, /! 0>0 1>0 = 0"),
];

#[test]
fn reversed_letters_are_those_worked_out(rt: HostRuntime) {
    for (row, rules, limit, wanted) in &REVERSED {
        let found = changed(&rt, rt.alloc(), Change::Reversed, rules, *limit);
        expect_text(&rt, row, &found, wanted);
    }
}

// There and back: the state after a zero is the first one, and after a one the other, if it was the first.
#[test]
fn a_function_is_the_reversal_of_its_reversal(rt: HostRuntime) {
    let found = changed(&rt, rt.alloc(), Change::ReversedTwice, DOUBLING, 4);
    let wanted = "reverse 4 4, reverse 2 2, /! 0>0 1>1/! 0>0 1>0 = 0 1";
    expect_text(&rt, "doubling", &found, wanted);
}

// The width, the table and the classes of the reversal of these classes of a fixed point's states, or the fault.
fn reversed_classes(rt: &impl Abort, alloc: Global, classes: &[u32], limit: u32) -> String {
    let word = fixed_word(rt, alloc, DOUBLING);
    let dfa = word.function().dfa();
    if classes.len() as u64 != u64::from(dfa.states()) {
        no_answer(rt);
    }
    let text = match reverse_classes(alloc, dfa, classes, Limit::new(limit)) {
        Ok(stepped) => {
            let (table, classes) = stepped.result;
            let table = table_of(rt, alloc, &table);
            format!(in alloc; "{} {table} {classes:?}", stepped.width)
        }
        Err(fault) => format!(in alloc; "{fault:?}"),
    };
    given(rt, text)
}

// Classes of the two states of a fixed point. What has no class counts in the width, and has no state.
static CLASSES: [(&str, &[u32], u32, &str); 7] = [
    (
        "two classes",
        &[1, 2],
        4,
        "4 /! 0>1 1>2/! 0>1 1>1/! 0>3 1>0/! 0>3 1>3 [1, 1, 2, 2]",
    ),
    ("two classes, one less", &[1, 2], 3, "States"),
    (
        "the other order",
        &[7, 3],
        4,
        "4 /! 0>1 1>2/! 0>1 1>1/! 0>3 1>0/! 0>3 1>3 [7, 7, 3, 3]",
    ),
    ("one class", &[5, 5], 1, "1 /! 0>0 1>0 [5]"),
    (
        "no class after an even number",
        &[0, 1],
        4,
        "4 / 1>1/! 0>2 1>0/! 0>2 1>2 [0, 1, 1]",
    ),
    (
        "no class after an odd number",
        &[1, 0],
        4,
        "4 /! 0>1 1>2/! 0>1 1>1/ 1>0 [1, 1, 0]",
    ),
    ("no class", &[0, 0], 1, "1 / [0]"),
];

#[test]
fn reversed_classes_are_those_worked_out(rt: HostRuntime) {
    for (row, classes, limit, wanted) in &CLASSES {
        let found = reversed_classes(&rt, rt.alloc(), classes, *limit);
        expect_text(&rt, row, &found, wanted);
    }
}
