//! Closures under padding, worked by hand.

use crate::calls::{Call, expect_widths};
use crate::outcomes::table_outcome;
use crate::table_texts::language;
use digit_tuple::direction::Direction;
use digit_tuple::limit::Limit;
use pad_rename::padding::pad;
use std::alloc::Global;
use std::process::Abort;

// Automata and directions, and their closures.
static PADDINGS: [(Call, &str); 8] = [
    // one word gets zeros
    (Call::Padded("x:2 = 1", Direction::Msd), "3 / 0>0 1>1/!"),
    (Call::Padded("x:2 = 1", Direction::Lsd), "5 / 1>1/! 0>1"),
    // zeros are taken away too
    (
        Call::Padded("x:2 = 10", Direction::Msd),
        "4 / 0>0 1>1/ 0>2/!",
    ),
    (Call::Padded("x:2 = 10", Direction::Lsd), "6 / 1>1/! 0>1"),
    // zeros lead to two residuals
    (
        Call::Padded("x:2 = 01|11", Direction::Msd),
        "4 / 0>0 1>1/! 1>2/!",
    ),
    (
        Call::Padded("x:2 = 01|11", Direction::Lsd),
        "8 / 0>1 1>1/ 1>2/! 0>2",
    ),
    // nothing stays nothing
    (Call::Padded("x:2 = /", Direction::Msd), "2 /"),
    (Call::Padded("x:2 = /", Direction::Lsd), "1 /"),
];

// The closure under a limit, or why there is none.
pub fn padded(
    rt: &impl Abort,
    alloc: Global,
    line: &str,
    direction: Direction,
    limit: u32,
) -> String {
    let a = language(rt, alloc, line);
    table_outcome(rt, alloc, pad(alloc, &a, direction, Limit::new(limit)))
}

#[test]
fn closures_are_those_worked_out(rt: HostRuntime) {
    expect_widths(&rt, rt.alloc(), &PADDINGS);
}
