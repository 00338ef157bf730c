//! Orders and equalities of numbers, worked by hand.

ghost use Rattle.std.specs.Prelude.{◌≡◌, ◌<◌, length};

use crate::calls::{Call, expect_letters, expect_widths};
use crate::given::{given, no_answer};
use crate::outcomes::{expect_text, table_outcome};
use crate::table_texts::{language, table_of};
use digit_tuple::direction::Direction;
use digit_tuple::limit::Limit;
use number_order::order::{equality_of, order_of};
use number_order::zero::zero_of;
use std::alloc::Global;
use std::process::Abort;

// All words of two digits, and those without two 1s in a row.
const BINARY: &str = "x:2 = .*";

const SPARSE: &str = "x:2 = (0|10)*1?";

// The order of a language's numbers under a limit, if it has one track, or why there is none.
pub fn ordered(
    rt: &impl Abort,
    alloc: Global,
    line: &str,
    direction: Direction,
    limit: u32,
) -> String {
    let language = language(rt, alloc, line);
    if language.alphabet().sizes().len() == 1 {
        table_outcome(
            rt,
            alloc,
            order_of(alloc, &language, direction, Limit::new(limit)),
        )
    } else {
        no_answer(rt)
    }
}

// The equality of a language's numbers under a limit, if it has one track, or why there is none.
pub fn equal(
    rt: &impl Abort,
    alloc: Global,
    line: &str,
    direction: Direction,
    limit: u32,
) -> String {
    let language = language(rt, alloc, line);
    if language.alphabet().sizes().len() == 1 {
        table_outcome(
            rt,
            alloc,
            equality_of(alloc, &language, direction, Limit::new(limit)),
        )
    } else {
        no_answer(rt)
    }
}

// Languages and directions, and their orders.
static ORDERS: [(Call, &str); 4] = [
    (
        Call::Ordered(BINARY, Direction::Msd),
        "3 / 0>0 1>1 3>0/! 0>1 1>1 2>1 3>1",
    ),
    (
        Call::Ordered(BINARY, Direction::Lsd),
        "3 / 0>0 1>1 2>0 3>0/! 0>1 1>1 2>0 3>1",
    ),
    (
        Call::Ordered(SPARSE, Direction::Msd),
        "21 / 0>0 1>1 3>2/! 0>3 2>4/ 0>0/! 0>3 1>1 2>4 3>5/! 0>3 1>1/! 0>3",
    ),
    (
        Call::Ordered(SPARSE, Direction::Lsd),
        "19 / 0>0 1>1 2>2 3>3/! 0>4 2>2/ 0>0 1>1/ 0>0/! 0>4 1>1 2>2 3>5/! 0>4",
    ),
];

// Their equalities.
static EQUALITIES: [(Call, &str); 4] = [
    (Call::Equal(BINARY, Direction::Msd), "3 /! 0>0 3>0"),
    (Call::Equal(BINARY, Direction::Lsd), "3 /! 0>0 3>0"),
    (Call::Equal(SPARSE, Direction::Msd), "21 /! 0>0 3>1/! 0>0"),
    (Call::Equal(SPARSE, Direction::Lsd), "19 /! 0>0 3>1/! 0>0"),
];

#[test]
fn orders_are_those_worked_out(rt: HostRuntime) {
    expect_widths(&rt, rt.alloc(), &ORDERS);
}

#[test]
fn equalities_are_those_worked_out(rt: HostRuntime) {
    expect_widths(&rt, rt.alloc(), &EQUALITIES);
}

// Relations of two tracks of 300 digits.
static LARGE: [Call; 2] = [
    Call::Ordered("x:300 = /! 0>0", Direction::Msd),
    Call::Equal("x:300 = /! 0>0", Direction::Msd),
];

#[test]
fn two_tracks_of_300_digits_are_too_large(rt: HostRuntime) {
    expect_letters(&rt, rt.alloc(), &LARGE);
}

// The number 0 over a language's digits, if there are some.
fn zero(rt: &impl Abort, alloc: Global, line: &str) -> String {
    let language = language(rt, alloc, line);
    if language.alphabet().letters() > 0 {
        table_of(rt, alloc, &given(rt, zero_of(alloc, &language)))
    } else {
        no_answer(rt)
    }
}

#[test]
fn zeros_alone_are_zero(rt: HostRuntime) {
    expect_text(&rt, SPARSE, &zero(&rt, rt.alloc(), SPARSE), "/! 0>0");
}
