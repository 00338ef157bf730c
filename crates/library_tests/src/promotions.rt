//! Fixed points of morphisms: the line of the step and the letters at the first positions, or why there is no word.

use crate::given::given;
use crate::outcomes::{after_lines, expect_text, letter_text};
use digit_tuple::steps::Steps;
use fixed_points::promote_fault::PromoteFault;
use fixed_points::promotion::promote;
use morph_words::Morphism;
use std::alloc::Global;
use std::process::Abort;
use word_output::word::Word;

// So many first positions are looked at.
const SOME: u32 = 8;

// The letter at a position that has at most three digits in a base, most significant digit first.
fn letter_at(word: &Word, base: u32, place: u32) -> Option<i32> {
    let digits = base.max(1);
    let high = place / digits;
    word.value(&[high / digits % digits, high % digits, place % digits])
}

// The letters at the first positions, each after a blank, and a dash where there is none.
fn letters_of(rt: &impl Abort, alloc: Global, word: &Word, base: u32) -> String {
    let mut text = String::new(alloc);
    for place in 0..SOME {
        given(
            rt,
            text.push_str(&letter_text(rt, alloc, letter_at(word, base, place))),
        );
    }
    text
}

// The letters at the first positions, or the fault.
fn letters_or_fault(
    rt: &impl Abort,
    alloc: Global,
    word: &Result<Word, PromoteFault>,
    base: u32,
) -> String {
    match word {
        Ok(word) => letters_of(rt, alloc, word, base),
        Err(fault) => given(rt, format!(in alloc; "{fault:?}")),
    }
}

// The lines of the steps, and the letters of the fixed point of rules in this base; or the lines and the fault.
fn promoted(rt: &impl Abort, alloc: Global, rules: &str, limit: u32, base: u32) -> String {
    let morphism = given(rt, Morphism::parse(alloc, rules.as_bytes()));
    let mut steps = Steps::new(alloc, limit);
    let word = promote(alloc, &morphism, &mut steps);
    let answer = letters_or_fault(rt, alloc, &word, base);
    after_lines(rt, alloc, &steps, &answer)
}

// Rules, the limit, the base of the word, and what is given: the line of the step and the letters at the positions 0 to 7, or the fault
// after no line.
static ROWS: [(&str, u32, u32, &str); 33] = [
    // the width is that of the letters that occur
    ("0->01 1->10", 10, 2, "promote 2 2,  0 1 1 0 1 0 0 1"),
    ("0->01 1->10", 2, 2, "promote 2 2,  0 1 1 0 1 0 0 1"),
    ("0->01 1->10", 1, 2, "Step(States(1))"),
    ("0->01 1->10", 0, 2, "Step(States(1))"),
    ("0->01 1->10 2->22", 2, 2, "promote 2 2,  0 1 1 0 1 0 0 1"),
    ("0->02 1->20 2->02", 2, 2, "promote 2 2,  0 2 0 2 0 2 0 2"),
    ("0->02 1->20 2->02", 1, 2, "Step(States(1))"),
    ("0->00", 1, 2, "promote 1 1,  0 0 0 0 0 0 0 0"),
    ("0->00", 0, 2, "Step(States(1))"),
    (
        "0->01 1->23 2->45 3->32 4->54 5->10",
        6,
        2,
        "promote 6 6,  0 1 2 3 4 5 3 2",
    ),
    (
        "0->01 1->23 2->45 3->32 4->54 5->10",
        5,
        2,
        "Step(States(1))",
    ),
    // any letters
    ("0->0[7] [7]->[7][7]", 2, 2, "promote 2 2,  0 7 7 7 7 7 7 7"),
    (
        "0->0[-1] [-1]->[-1]0",
        2,
        2,
        "promote 2 2,  0 -1 -1 0 -1 0 0 -1",
    ),
    // other bases
    (
        "0->012 1->120 2->201",
        3,
        3,
        "promote 3 3,  0 1 2 1 2 0 2 0",
    ),
    (
        "0->0000000000000000000000000000000000000000",
        1,
        40,
        "promote 1 1,  0 0 0 0 0 0 0 0",
    ),
    // images of more than one length
    ("0->01 1->1", 10, 2, "Morphism(NotUniform(1))"),
    ("0->01 1->10 2->0", 10, 2, "Morphism(NotUniform(2))"),
    ("[-1]->0 0->01 1->10", 10, 2, "Morphism(NotUniform(0))"),
    // a length that is none of 2 to 40
    ("0->0", 10, 1, "Morphism(Length(0))"),
    ("[-1]->0 0->0", 10, 1, "Morphism(Length(-1))"),
    (
        "0->00000000000000000000000000000000000000000",
        10,
        41,
        "Morphism(Length(0))",
    ),
    // letters that have no image
    ("0->01", 10, 2, "Morphism(NotClosed(1))"),
    ("0->03 3->02", 10, 2, "Morphism(NotClosed(2))"),
    ("0->0[-5] 1->02", 10, 2, "Morphism(NotClosed(-5))"),
    // an image of 0 that does not begin with it
    ("0->10 1->01", 10, 2, "Morphism(NotFixed(0))"),
    ("1->12 2->21", 10, 2, "Morphism(NotFixed(0))"),
    // the first kind that applies, and each before the limit
    ("0->11 1->1", 10, 2, "Morphism(NotUniform(1))"),
    ("0->01 1->2", 10, 2, "Morphism(NotUniform(1))"),
    ("0->1 1->00", 10, 2, "Morphism(NotUniform(1))"),
    ("0->1", 10, 2, "Morphism(Length(0))"),
    ("0->12", 10, 2, "Morphism(NotClosed(1))"),
    ("0->10 1->01", 0, 2, "Morphism(NotFixed(0))"),
    ("0->01", 0, 2, "Morphism(NotClosed(1))"),
];

#[test]
fn fixed_points_are_those_worked_out(rt: HostRuntime) {
    for (rules, limit, base, wanted) in &ROWS {
        expect_text(
            &rt,
            rules,
            &promoted(&rt, rt.alloc(), rules, *limit, *base),
            wanted,
        );
    }
}
