//! Calls under a limit of states: each is made at its width, and refused below it.

use crate::matches::built;
use crate::minimal::{of_sets, turned};
use crate::orders::{equal, ordered};
use crate::outcomes::{expect_text, width_of};
use crate::paddings::padded;
use crate::products::{ProductRow, Restriction, joined, restricted};
use crate::projections::dropped;
use crate::sealed_systems::{between, chain, next};
use crate::single_numbers::number_in;
use digit_tuple::direction::Direction;
use std::alloc::Global;
use std::process::Abort;

/// A call on automata of lines.
pub enum Call {
    /// The subset construction.
    Sets(&'static str),
    Reversal(&'static str),
    /// The matches of an expression over the digits 0 and 1.
    Built(&'static str),
    Padded(&'static str, Direction),
    /// The automaton, the track that is dropped, and the direction.
    Projected(&'static str, &'static str, Direction),
    Ordered(&'static str, Direction),
    Equal(&'static str, Direction),
    /// A base, its direction and a number.
    Number(u32, Direction, u64),
    Product(ProductRow),
    /// The complement or the valid part, of an automaton with a language for each track.
    Restricted(Restriction, &'static str, &'static [&'static str]),
    /// The first step of a successor, of an order.
    Chain(&'static str),
    /// The second one, of the triples of the first.
    Between(&'static str, Direction),
    /// The third one, of the order and the pairs of the second.
    Next(&'static str, &'static str),
}

/// What a call gives under a limit: its width and an automaton, or why there is none.
pub fn outcome_of(rt: &impl Abort, alloc: Global, call: &Call, limit: u32) -> String {
    match call {
        Call::Sets(line) => of_sets(rt, alloc, line, limit),
        Call::Reversal(line) => turned(rt, alloc, line, limit),
        Call::Built(text) => built(rt, alloc, &[2], text, limit),
        Call::Padded(line, direction) => padded(rt, alloc, line, *direction, limit),
        Call::Projected(line, track, direction) => dropped(
            rt,
            alloc,
            (line, track),
            *direction,
            limit,
        ),
        Call::Ordered(line, direction) => ordered(rt, alloc, line, *direction, limit),
        Call::Equal(line, direction) => equal(rt, alloc, line, *direction, limit),
        Call::Number(base, direction, number) => number_in(
            rt,
            alloc,
            (*base, *direction),
            *number,
            limit,
        ),
        Call::Product(row) => joined(rt, alloc, row, limit),
        Call::Restricted(direction, line, valid) => restricted(
            rt,
            alloc,
            *direction,
            (line, valid),
            limit,
        ),
        Call::Chain(order) => chain(rt, alloc, order, limit),
        Call::Between(line, direction) => between(rt, alloc, line, *direction, limit),
        Call::Next(order, line) => next(rt, alloc, order, line, limit),
    }
}

/// Asserts that each call gives its outcome at its width, and is refused below.
pub fn expect_widths(rt: &impl Abort, alloc: Global, rows: &[(Call, &str)]) {
    for (call, wanted) in rows {
        let width = width_of(rt, wanted);
        let below = width.saturating_sub(1);
        expect_text(rt, wanted, &outcome_of(rt, alloc, call, width), wanted);
        expect_text(rt, wanted, &outcome_of(rt, alloc, call, below), "States");
    }
}

/// Asserts that each call is refused for its letters, before the limit is looked at.
pub fn expect_letters(rt: &impl Abort, alloc: Global, calls: &[Call]) {
    for call in calls {
        expect_text(
            rt,
            "a large alphabet",
            &outcome_of(rt, alloc, call, 0),
            "Letters",
        );
    }
}
