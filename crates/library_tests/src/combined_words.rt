//! Words of several relations: the line of the step and some letters, or why there is no word.

use crate::given::{given, no_answer};
use crate::outcomes::{after_lines, expect_text, letter_text};
use crate::reading_steps::{Base, relation_over, systems_for};
use combinations::combine::combine;
use combinations::combine_fault::CombineFault;
use combinations::part::Part;
use digit_tuple::direction::Direction;
use digit_tuple::steps::Steps;
use num_system::system::System;
use number_relations::relation::Relation;
use std::alloc::Global;
use std::process::Abort;
use std::rc::Rc;
use word_output::word::Word;

// A sentence that is true, or the relation of a file over systems of this direction.
#[derive(Clone, Copy)]
enum Listed {
    Truth,
    File(&'static [u8], Direction, &'static [Base]),
}

// The relation.
fn relation_of(rt: &impl Abort, alloc: Global, listed: Listed) -> Relation {
    match listed {
        Listed::Truth => given(rt, Relation::truth(alloc, true)),
        Listed::File(text, direction, bases) => {
            let systems = systems_for(rt, alloc, bases, direction);
            let mut steps = Steps::new(alloc, 1000);
            given(rt, relation_over(rt, alloc, text, &systems, &mut steps))
        }
    }
}

// Relations, each with its letter.
fn parts_of(rt: &impl Abort, alloc: Global, list: &[(Listed, i32)]) -> Vec<Part> {
    let mut parts = Vec::new(alloc);
    for (listed, letter) in list {
        let relation = given(rt, Rc::new(alloc, relation_of(rt, alloc, *listed)));
        given(rt, parts.push(Part::new(relation, *letter)));
    }
    parts
}

// The word of relations over the systems of the first, or of none over one system.
fn word_of(
    rt: &impl Abort,
    alloc: Global,
    (parts, systems): (&[Part], &[Rc<System>]),
    rest: Option<i32>,
    steps: &mut Steps,
) -> Result<Word, CombineFault> {
    match (parts, systems) {
        ([first, ..], _) => combine(alloc, parts, first.relation().systems(), rest, steps),
        ([], [_]) => combine(alloc, parts, systems, rest, steps),
        _ => no_answer(rt),
    }
}

// The letters of some words.
fn letters_of(rt: &impl Abort, alloc: Global, word: &Word, words: &[&[u32]]) -> String {
    let mut text = String::new(alloc);
    for digits in words {
        given(
            rt,
            text.push_str(&letter_text(rt, alloc, word.value(digits))),
        );
    }
    text
}

// A name, relations with their letters, the system where there is none, the letter where none holds, the limit, words of digits, and what
// is given: the line of the step and the letters of these words, or the fault after no line.
#[derive(Drop)]
struct Row {
    name: &'static str,
    list: &'static [(Listed, i32)],
    system: Base,
    rest: Option<i32>,
    limit: u32,
    words: &'static [&'static [u32]],
    wanted: &'static str,
}

// The letters of some words, or the fault.
fn letters_or_fault(
    rt: &impl Abort,
    alloc: Global,
    word: &Result<Word, CombineFault>,
    words: &[&[u32]],
) -> String {
    match word {
        Ok(word) => letters_of(rt, alloc, word, words),
        Err(fault) => given(rt, format!(in alloc; "{fault:?}")),
    }
}

// The lines of the steps and the letters of some words, or the lines and the fault.
fn combined(rt: &impl Abort, alloc: Global, row: &Row) -> String {
    let parts = parts_of(rt, alloc, row.list);
    let systems = systems_for(rt, alloc, &[row.system], Direction::Msd);
    let mut steps = Steps::new(alloc, row.limit);
    let word = word_of(rt, alloc, (&parts, &systems), row.rest, &mut steps);
    let answer = letters_or_fault(rt, alloc, &word, row.words);
    after_lines(rt, alloc, &steps, &answer)
}

// The numbers below 3 and those below 5, in msd_2.
const BELOW_3: Listed = Listed::File(
    b"msd_2\n0 1\n0 -> 0\n1 -> 1\n1 1\n0 -> 2\n2 1\n",
    Direction::Msd,
    &[Some(2)],
);

const BELOW_5: Listed = Listed::File(
    b"msd_2\n0 1\n0 -> 0\n1 -> 1\n1 1\n0 -> 2\n1 -> 3\n2 1\n0 -> 4\n3 1\n4 1\n",
    Direction::Msd,
    &[Some(2)],
);

// Two numbers of which the first is less.
const LESS: Listed = Listed::File(
    b"msd_2 msd_2\n0 0\n0 0 -> 0\n1 1 -> 0\n0 1 -> 1\n1 1\n* * -> 1\n",
    Direction::Msd,
    &[Some(2), Some(2)],
);

// Any number, in other systems.
const IN_LSD_2: Listed = Listed::File(b"lsd_2\n0 1\n* -> 0\n", Direction::Lsd, &[Some(2)]);

const IN_MSD_3: Listed = Listed::File(b"msd_3\n0 1\n* -> 0\n", Direction::Msd, &[Some(3)]);

const IN_MSD_FIB: Listed = Listed::File(b"msd_fib\n0 1\n* -> 0\n", Direction::Msd, &[None]);

// The representations of 0 to 6 in msd_2. In msd_fib 11 and 110 represent no number.
const NUMBERS: &[&[u32]] = &[
    &[],
    &[1],
    &[1, 0],
    &[1, 1],
    &[1, 0, 0],
    &[1, 0, 1],
    &[0, 1, 1, 0],
];

// The representations of (0, 0), (0, 1), (1, 0), (2, 3), (3, 2) and (1, 2).
const PAIRS: &[&[u32]] = &[&[], &[1], &[2], &[3, 1], &[3, 2], &[1, 2]];

static WORDS: [Row; 12] = [
    // the first that holds decides, also where its letter is 0
    Row {
        name: "below 3, below 5",
        list: &[(BELOW_3, 7), (BELOW_5, 9)],
        system: None,
        rest: Some(0),
        limit: 5,
        words: NUMBERS,
        wanted: "combine 5 5,  7 7 7 9 9 0 0",
    },
    Row {
        name: "below 3 once more",
        list: &[(BELOW_3, 7), (BELOW_5, 9), (BELOW_3, 8)],
        system: None,
        rest: Some(0),
        limit: 5,
        words: NUMBERS,
        wanted: "combine 5 5,  7 7 7 9 9 0 0",
    },
    Row {
        name: "below 5, below 3",
        list: &[(BELOW_5, 9), (BELOW_3, 7)],
        system: None,
        rest: Some(0),
        limit: 5,
        words: NUMBERS,
        wanted: "combine 5 5,  9 9 9 9 9 0 0",
    },
    Row {
        name: "the letter 0",
        list: &[(BELOW_3, 0), (BELOW_5, -9)],
        system: None,
        rest: Some(0),
        limit: 5,
        words: NUMBERS,
        wanted: "combine 5 5,  0 0 0 -9 -9 0 0",
    },
    // the width counts what no letter says
    Row {
        name: "one letter",
        list: &[(BELOW_3, 0)],
        system: None,
        rest: Some(0),
        limit: 4,
        words: NUMBERS,
        wanted: "combine 4 1,  0 0 0 0 0 0 0",
    },
    // two tracks
    Row {
        name: "less",
        list: &[(LESS, 5)],
        system: None,
        rest: Some(0),
        limit: 3,
        words: PAIRS,
        wanted: "combine 3 3,  0 5 0 5 0 5",
    },
    // other words than representations have no letter
    Row {
        name: "any number in msd_fib",
        list: &[(IN_MSD_FIB, 4)],
        system: None,
        rest: Some(0),
        limit: 3,
        words: NUMBERS,
        wanted: "combine 3 2,  4 4 4 - 4 4 -",
    },
    // no relation
    Row {
        name: "none over msd_2",
        list: &[],
        system: Some(2),
        rest: Some(0),
        limit: 1,
        words: NUMBERS,
        wanted: "combine 1 1,  0 0 0 0 0 0 0",
    },
    Row {
        name: "none over msd_fib",
        list: &[],
        system: None,
        rest: Some(0),
        limit: 3,
        words: NUMBERS,
        wanted: "combine 3 2,  0 0 0 - 0 0 -",
    },
    // another letter where none holds, and none
    Row {
        name: "below 3, else -4",
        list: &[(BELOW_3, 7)],
        system: None,
        rest: Some(-4),
        limit: 4,
        words: NUMBERS,
        wanted: "combine 4 4,  7 7 7 -4 -4 -4 -4",
    },
    Row {
        name: "below 3, else none",
        list: &[(BELOW_3, 7)],
        system: None,
        rest: None,
        limit: 4,
        words: NUMBERS,
        wanted: "combine 4 3,  7 7 7 - - - -",
    },
    Row {
        name: "no letter at all",
        list: &[],
        system: Some(2),
        rest: None,
        limit: 1,
        words: NUMBERS,
        wanted: "combine 1 1,  - - - - - - -",
    },
];

#[test]
fn words_have_the_letter_of_the_first_relation_that_holds(rt: HostRuntime) {
    for row in &WORDS {
        let found = combined(&rt, rt.alloc(), row);
        expect_text(&rt, row.name, &found, row.wanted);
    }
}

// Names, relations with their letters, limits, and the fault.
static REFUSED: [(&str, &[(Listed, i32)], u32, &str); 11] = [
    ("true", &[(Listed::Truth, 1)], 9, "Shape(0, 0)"),
    (
        "true, below 3",
        &[(Listed::Truth, 1), (BELOW_3, 2)],
        9,
        "Shape(0, 0)",
    ),
    (
        "below 3, true",
        &[(BELOW_3, 1), (Listed::Truth, 2)],
        9,
        "Shape(0, 1)",
    ),
    (
        "below 3, less",
        &[(BELOW_3, 1), (LESS, 2)],
        9,
        "Shape(0, 1)",
    ),
    (
        "below 3, below 5, less",
        &[(BELOW_3, 1), (BELOW_5, 2), (LESS, 3)],
        9,
        "Shape(0, 2)",
    ),
    // systems that differ in their direction, their digits or their language alone
    (
        "msd_2, lsd_2",
        &[(BELOW_3, 1), (IN_LSD_2, 2)],
        9,
        "Shape(0, 1)",
    ),
    (
        "msd_2, msd_3",
        &[(BELOW_3, 1), (IN_MSD_3, 2)],
        9,
        "Shape(0, 1)",
    ),
    (
        "msd_2, msd_fib",
        &[(BELOW_3, 1), (IN_MSD_FIB, 2)],
        9,
        "Shape(0, 1)",
    ),
    // the shape before the limit
    (
        "below 3, less under no state",
        &[(BELOW_3, 1), (LESS, 2)],
        0,
        "Shape(0, 1)",
    ),
    (
        "below 3, below 5 under 4 states",
        &[(BELOW_3, 7), (BELOW_5, 9)],
        4,
        "Step(States(1))",
    ),
    ("less under 2 states", &[(LESS, 5)], 2, "Step(States(1))"),
];

#[test]
fn relations_of_several_shapes_and_words_past_the_limit_are_refused(rt: HostRuntime) {
    for (name, list, limit, wanted) in &REFUSED {
        let row = Row {
            name: *name,
            list: *list,
            system: Some(2),
            rest: Some(0),
            limit: *limit,
            words: NUMBERS,
            wanted: *wanted,
        };
        let found = combined(&rt, rt.alloc(), &row);
        expect_text(&rt, row.name, &found, row.wanted);
    }
}
