//! The words of single numbers in some bases, and their automata.

use crate::calls::{Call, expect_widths};
use crate::given::{given, no_answer};
use crate::outcomes::{expect_so, table_outcome};
use crate::sealed_systems::sealed;
use constants::constant::constant;
use constants::representation::representation;
use digit_tuple::direction::Direction;
use digit_tuple::faults::OpFault;
use digit_tuple::limit::Limit;
use num_system::system::System;
use std::alloc::Global;
use std::process::Abort;

// Some bases.
static BASES: [(&str, u32, Direction); 6] = [
    ("msd_2", 2, Direction::Msd),
    ("lsd_2", 2, Direction::Lsd),
    ("msd_3", 3, Direction::Msd),
    ("lsd_3", 3, Direction::Lsd),
    ("msd_10", 10, Direction::Msd),
    ("lsd_10", 10, Direction::Lsd),
];

// The word of a number, of so many letters at most.
fn word(rt: &impl Abort, alloc: Global, system: &System, number: u64, longest: u32) -> Vec<u32> {
    let language = system.language();
    given(
        rt,
        representation(alloc, language, system.direction(), number, longest),
    )
}

// Whether the word has no leading zero, and the number as its positional value.
fn represents_number(word: &[u32], base: u32, number: u64) -> bool {
    let mut value: u128 = 0;
    for digit in word {
        value = value
            .saturating_mul(u128::from(base))
            .saturating_add(u128::from(*digit));
    }
    word.first() != Some(&0) && value == u128::from(number)
}

// Whether each number up to a bound, and the greatest, is given its word.
fn gives_words(rt: &impl Abort, alloc: Global, base: u32, direction: Direction) -> bool {
    let system = sealed(rt, alloc, base, direction, 1000);
    let mut right = gives_word(rt, alloc, &system, base, u64::MAX);
    for number in 0..131 {
        right = right && gives_word(rt, alloc, &system, base, number);
    }
    right
}

// Whether a number is given its word.
fn gives_word(rt: &impl Abort, alloc: Global, system: &System, base: u32, number: u64) -> bool {
    let word = word(rt, alloc, system, number, 64);
    represents_number(&word, base, number)
}

#[test]
fn words_have_their_positional_values(rt: HostRuntime) {
    for (row, base, direction) in &BASES {
        expect_so(&rt, row, gives_words(&rt, rt.alloc(), *base, *direction));
    }
}

// Numbers, lengths, and the words in base 2, if they are no longer.
static WORDS: [(&str, u64, u32, Option<&[u32]>); 5] = [
    ("7 in 3 letters", 7, 3, Some(&[1, 1, 1])),
    ("8 in 3 letters", 8, 3, None),
    ("8 in 4 letters", 8, 4, Some(&[1, 0, 0, 0])),
    ("0 in no letter", 0, 0, Some(&[])),
    ("1 in no letter", 1, 0, None),
];

// The word of a number, if it is no longer.
fn short_word(
    rt: &impl Abort,
    alloc: Global,
    system: &System,
    number: u64,
    longest: u32,
) -> Option<Vec<u32>> {
    let language = system.language();
    match representation(alloc, language, system.direction(), number, longest) {
        Ok(word) => Some(word),
        Err(OpFault::States) => None,
        Err(_) => no_answer(rt),
    }
}

// Whether the word of a number in base 2 is this, if it is no longer.
fn is_word(
    rt: &impl Abort,
    alloc: Global,
    direction: Direction,
    (number, longest): (u64, u32),
    wanted: Option<&[u32]>,
) -> bool {
    let system = sealed(rt, alloc, 2, direction, 1000);
    short_word(rt, alloc, &system, number, longest).as_deref() == wanted
}

#[test]
fn longer_words_are_refused(rt: HostRuntime) {
    for (row, number, longest, wanted) in &WORDS {
        let msd = is_word(
            &rt,
            rt.alloc(),
            Direction::Msd,
            (*number, *longest),
            *wanted,
        );
        expect_so(&rt, row, msd);
        let lsd = is_word(
            &rt,
            rt.alloc(),
            Direction::Lsd,
            (*number, *longest),
            *wanted,
        );
        expect_so(&rt, row, lsd);
    }
}

// The automaton of a number in a base, under a limit, or why there is none.
pub fn number_in(
    rt: &impl Abort,
    alloc: Global,
    (base, direction): (u32, Direction),
    number: u64,
    limit: u32,
) -> String {
    let system = sealed(rt, alloc, base, direction, 1000);
    let language = system.language();
    table_outcome(
        rt,
        alloc,
        constant(
            alloc,
            language,
            system.direction(),
            number,
            Limit::new(limit),
        ),
    )
}

// Bases, directions and numbers, and their automata.
static NUMBERS: [(Call, &str); 8] = [
    (Call::Number(3, Direction::Msd, 5), "4 / 0>0 1>1/ 2>2/!"),
    (Call::Number(3, Direction::Lsd, 5), "4 / 2>1/ 1>2/! 0>2"),
    (
        Call::Number(2, Direction::Msd, 6),
        "5 / 0>0 1>1/ 1>2/ 0>3/!",
    ),
    (
        Call::Number(2, Direction::Lsd, 6),
        "5 / 0>1/ 1>2/ 1>3/! 0>3",
    ),
    (Call::Number(2, Direction::Msd, 0), "2 /! 0>0"),
    (Call::Number(2, Direction::Lsd, 0), "2 /! 0>0"),
    (Call::Number(10, Direction::Msd, 41), "4 / 0>0 4>1/ 1>2/!"),
    (Call::Number(10, Direction::Lsd, 80), "4 / 0>1/ 8>2/! 0>2"),
];

#[test]
fn single_numbers_are_those_worked_out(rt: HostRuntime) {
    expect_widths(&rt, rt.alloc(), &NUMBERS);
}
