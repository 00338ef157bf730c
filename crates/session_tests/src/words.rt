//! Words of the command line.

use crate::whole::{Ran, SURE, expect_run, over_sink, run_line};
use std::alloc::Global;
use std::process::Abort;

const USAGE: &str = "usage: walnut [--states N] [--stop] [--make SEED]\n";

/// An automaton of 32 states, by a step with 33 values.
const SCRIPT: &[u8] = b"reg n {0,1} \"(0|1)*1(0|1)(0|1)(0|1)(0|1)\":";

const SHOWN: &str = "step 1 regex 33 32\n";

const EXCEEDED: &str = "error 1: F19 States step 1\n";

/// Command lines, what is printed of the script, and the status.
static WORDS: [(&str, &str, u8); 37] = [
    ("walnut", SHOWN, 0),
    ("walnut --states 33", SHOWN, 0),
    ("walnut --states=33", SHOWN, 0),
    ("walnut --states 32", EXCEEDED, 1),
    ("walnut --states=32", EXCEEDED, 1),
    ("walnut --states 16", EXCEEDED, 1),
    ("walnut --states 1000000", SHOWN, 0),
    ("walnut --states 33 --", SHOWN, 0),
    ("walnut --", SHOWN, 0),
    ("walnut --states 15", USAGE, 2),
    ("walnut --states 1000001", USAGE, 2),
    ("walnut --states 33 --states 33", USAGE, 2),
    ("walnut --states=33 --states=33", USAGE, 2),
    ("walnut --states", USAGE, 2),
    ("walnut --states=", USAGE, 2),
    ("walnut --states 033", USAGE, 2),
    ("walnut --states +33", USAGE, 2),
    ("walnut --states -33", USAGE, 2),
    ("walnut --states many", USAGE, 2),
    ("walnut --stop", SHOWN, 0),
    ("walnut --states 33 --stop", SHOWN, 0),
    ("walnut --stop --states=32", EXCEEDED, 1),
    ("walnut --stop --stop", USAGE, 2),
    ("walnut --stop=yes", USAGE, 2),
    ("walnut --make", USAGE, 2),
    ("walnut --make=", USAGE, 2),
    ("walnut --make 00", USAGE, 2),
    ("walnut --make +1", USAGE, 2),
    ("walnut --make -1", USAGE, 2),
    ("walnut --make some", USAGE, 2),
    ("walnut --make 18446744073709551616", USAGE, 2),
    ("walnut --make 0 --make 0", USAGE, 2),
    ("walnut --help", USAGE, 2),
    ("walnut -h", USAGE, 2),
    ("walnut --version", USAGE, 2),
    ("walnut 33", USAGE, 2),
    ("walnut -- 33", USAGE, 2),
];

#[test]
fn words_are_taken_or_refused_as_listed(rt: HostRuntime) {
    for (line, printed, code) in &WORDS {
        let ran = run_line(&rt, rt.alloc(), line, SCRIPT, &SURE);
        expect_run(&rt, line, ran, printed, (*code, usize::from(*code == 0)));
    }
}

/// Runs words that are refused over a sink that takes pieces of these lengths and fails at these calls.
fn run_refused(
    rt: &impl Abort,
    alloc: Global,
    writes: &'static [usize],
    failing_writes: &'static [u64],
) -> Ran {
    let outside = over_sink(writes, failing_writes);
    run_line(rt, alloc, "walnut --states 15", SCRIPT, &outside)
}

fn expect_usage(rt: &impl Abort, row: &str, ran: Ran, printed: &str) {
    expect_run(rt, row, ran, printed, (2, 0));
}

#[test]
fn refused_words_are_so_over_a_sink_that_fails(rt: HostRuntime) {
    expect_usage(&rt, "fails", run_refused(&rt, rt.alloc(), &[], &[1]), "");
    expect_usage(
        &rt,
        "takes nothing",
        run_refused(&rt, rt.alloc(), &[0], &[]),
        "",
    );
    expect_usage(
        &rt,
        "fails later",
        run_refused(&rt, rt.alloc(), &[3], &[2]),
        "usa",
    );
}
