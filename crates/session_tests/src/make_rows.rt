//! Runs of generated scripts: the line that is printed, the status, and how many texts are stored.

use crate::given::{FailingRow, expect_failing, run_line_failing};
use crate::whole::{Outside, SURE, expect_run, over_sink, run_line};

/// A script that no such run reads.
const SCRIPT: &[u8] = b"prove;";

/// The line of the seed 0.
const LINE: &str = "made 0 commands 200 true 105 false 41 other 54 refused 0\n";

/// Command lines, what they print, the status, and how many texts are stored.
static MADE: [(&str, &str, u8, usize); 6] = [
    ("walnut --make 0", LINE, 0, 200),
    ("walnut --make=0 --stop", LINE, 0, 200),
    (
        "walnut --states 200000 --make 1",
        "made 1 commands 200 true 127 false 32 other 41 refused 0\n",
        0,
        200,
    ),
    (
        "walnut --make 18446744073709551615",
        "made 18446744073709551615 commands 200 true 106 false 44 other 50 refused 0\n",
        0,
        200,
    ),
    (
        "walnut --make 0 --states 16 --stop",
        "made 0 commands 5 true 0 false 0 other 4 refused 1\n",
        1,
        4,
    ),
    (
        "walnut --make 0 --states 15",
        "usage: walnut [--states N] [--stop] [--make SEED]\n",
        2,
        0,
    ),
];

#[test]
fn generated_scripts_are_summed_up_as_listed(rt: HostRuntime) {
    for (line, printed, code, count) in &MADE {
        let ran = run_line(&rt, rt.alloc(), line, SCRIPT, &SURE);
        expect_run(&rt, line, ran, printed, (*code, *count));
    }
}

/// A source that fails at its first call.
const UNREADABLE: Outside = Outside {
    failing_reads: &[1],
    ..SURE
};

#[test]
fn the_script_is_not_read_where_there_is_a_seed(rt: HostRuntime) {
    let ran = run_line(&rt, rt.alloc(), "walnut --make 0", SCRIPT, &UNREADABLE);
    expect_run(&rt, "unreadable", ran, LINE, (0, 200));
}

/// What is printed where a call of the store fails: without the morphism `h`, the word `T` is missing too.
static FAILING: [FailingRow; 2] = [
    (
        1,
        "made 0 commands 200 true 53 false 38 other 2 refused 107\n",
        3,
        93,
    ),
    (1_000_000, LINE, 0, 200),
];

#[test]
fn a_store_that_fails_refuses_commands_of_a_generated_script(rt: HostRuntime) {
    expect_failing(&rt, rt.alloc(), "", ("walnut --make 0", ""), &FAILING);
}

#[test]
fn a_store_that_fails_stops_a_generated_script(rt: HostRuntime) {
    let line = "walnut --make 18446744073709551615 --stop";
    let ran = run_line_failing(&rt, rt.alloc(), "", (line, ""), 1);
    let printed = "made 18446744073709551615 commands 1 true 0 false 0 other 0 refused 1\n";
    expect_run(&rt, line, ran, printed, (3, 0));
}

/// Lengths of pieces that a sink takes, its calls that fail, and what is printed of the line.
static CUT: [(&[usize], &[u64], &str); 3] = [
    (&[], &[1], ""),
    (&[3], &[2], "mad"),
    (&[5, 1, 0], &[], "made 0"),
];

#[test]
fn a_sink_that_fails_cuts_the_line(rt: HostRuntime) {
    for (writes, failing, printed) in &CUT {
        let ran = run_line(
            &rt,
            rt.alloc(),
            "walnut --make 0",
            SCRIPT,
            &over_sink(*writes, *failing),
        );
        expect_run(&rt, printed, ran, printed, (3, 200));
    }
}
