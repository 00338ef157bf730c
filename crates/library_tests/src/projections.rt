//! Projections, worked by hand, and the states that zeros lead to.

use crate::calls::{Call, expect_letters, expect_widths};
use crate::given::{given, no_answer};
use crate::outcomes::{expect_so, outcome};
use crate::table_texts::{table, tracked};
use digit_tuple::direction::Direction;
use digit_tuple::limit::Limit;
use digit_tuple::name::Name;
use digit_tuple::names::find_name;
use pad_rename::zero_closure::{flagged, zero_closure};
use project_close::projection::project;
use std::alloc::Global;
use std::process::Abort;

// The pairs of x and y = 2 * x in base 2. With the most significant digit first a digit of y is the next digit of x;
// else it is the one before.
const DOUBLES_MSD: &str = "x:2 y:2 = ([0,0]|[0,1][1,1]*[1,0])*";

const DOUBLES_LSD: &str = "x:2 y:2 = ([0,0]|[1,0][1,1]*[0,1])*";

// Automata, the track that is dropped, directions and the projections.
static PROJECTIONS: [(Call, &str); 8] = [
    // Zeros before the word lead to both states at once, and from both a digit leads to both: one set.
    (
        Call::Projected(DOUBLES_MSD, "y", Direction::Msd),
        "1 x:2 = /! 0>0 1>0",
    ),
    // Each word leads to the state of its last digit, and both accept, as a zero may come after.
    (
        Call::Projected(DOUBLES_LSD, "y", Direction::Lsd),
        "2 x:2 = /! 0>0 1>0",
    ),
    // The halves of even numbers: the last digit read, and the first one, says whether the number is even.
    (
        Call::Projected(DOUBLES_MSD, "x", Direction::Msd),
        "2 y:2 = /! 0>0 1>1/ 0>0 1>1",
    ),
    (
        Call::Projected(DOUBLES_LSD, "x", Direction::Lsd),
        "3 y:2 = /! 0>1/! 0>1 1>1",
    ),
    // Without tracks a word is a length. The sets of states: both, then the second, then none.
    (
        Call::Projected("x:2 = 1", "x", Direction::Msd),
        "3 = /! 0>1/!",
    ),
    // The sets of states: the first, then the second, then none.
    (
        Call::Projected("x:2 = 1", "x", Direction::Lsd),
        "3 = /! 0>1/!",
    ),
    // No word has a residual that is not empty.
    (
        Call::Projected("x:2 y:2 = /", "x", Direction::Msd),
        "1 y:2 = /",
    ),
    // No letter stays.
    (
        Call::Projected("x:300 y:300 z:0 = /!", "x", Direction::Msd),
        "1 y:300 z:0 = /!",
    ),
];

// The projection under a limit, if the track is there, or why there is none.
pub fn dropped(
    rt: &impl Abort,
    alloc: Global,
    (line, track): (&str, &str),
    direction: Direction,
    limit: u32,
) -> String {
    let a = tracked(rt, alloc, line);
    let track = given(rt, Name::new(alloc, track));
    if find_name(a.names(), &track).is_some() {
        outcome(
            rt,
            alloc,
            project(alloc, &a, &track, direction, Limit::new(limit)),
        )
    } else {
        no_answer(rt)
    }
}

#[test]
fn projections_are_those_worked_out(rt: HostRuntime) {
    expect_widths(&rt, rt.alloc(), &PROJECTIONS);
}

// A track without digits leaves no letter, and dropping it leaves 90,000.
static LARGE: [Call; 1] = [Call::Projected("x:300 y:300 z:0 = /!", "z", Direction::Msd)];

#[test]
fn too_many_letters_may_stay(rt: HostRuntime) {
    expect_letters(&rt, rt.alloc(), &LARGE);
}

// Tables, and the states that zeros alone lead to from the initial one.
static AFTER_ZEROS: [(&str, &[u32]); 3] = [
    ("x:2 = / 1>1/!", &[0]),
    ("x:2 = / 0>1 0>2 1>3/ 0>0/! 1>3/! 0>3", &[0, 1, 2]),
    ("x:2 y:2 = / 0>2 3>1/ 0>0/ 0>3 1>1/!", &[0, 2, 3]),
];

// Whether zeros alone lead to these states in the table of a line.
fn lead_to(rt: &impl Abort, alloc: Global, line: &str, states: &[u32]) -> bool {
    let table = table(rt, alloc, line);
    given(rt, zero_closure(alloc, &table)).as_slice() == states
}

#[test]
fn zeros_lead_to_these_states(rt: HostRuntime) {
    for (line, states) in &AFTER_ZEROS {
        expect_so(&rt, line, lead_to(&rt, rt.alloc(), line, states));
    }
}

// Whether flags are those of these states.
fn are_flags_of(rt: &impl Abort, alloc: Global, flags: &[bool; 3], states: &[u32]) -> bool {
    given(rt, flagged(alloc, flags)).as_slice() == states
}

#[test]
fn flagged_states_are_listed(rt: HostRuntime) {
    let found = are_flags_of(&rt, rt.alloc(), &[true, false, true], &[0, 2]);
    expect_so(&rt, "flags", found);
}
