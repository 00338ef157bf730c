//! Scripts in pieces, and calls of the outside that fail.

use crate::combine_rows::FOUR;
use crate::command_rows::COMMANDS;
use crate::rows::{expect_row, script_of};
use crate::set_rows::SETS;
use crate::tables::ROW_END;
use crate::whole::{
    Outside, Ran, SURE, count_in, expect, expect_ended, expect_run, is_stored, over_sink,
    printed_in, run_line, run_script,
};
use std::alloc::Global;
use std::process::Abort;
use wal_outside::Folder;

const THREE: &[u8] = b"reg p {0} \"0\"; reg q {0} \"0\";\nreg r {0} \"0\";";

const REFUSED: &[u8] = b"a;\nb;\nreg p {0} \"0\";\n";

const PRINTED: &str = "error 1: F01 Command\nerror 2: F01 Command\n";

static ONES: [usize; 128] = [1; 128];

static TWOS: [usize; 64] = [2; 64];

static THREES: [usize; 64] = [3; 64];

static SEVENS: [usize; 32] = [7; 32];

/// Whether texts are under `p`, `q` and `r` among the automata.
fn are_stored(ran: &Ran) -> [bool; 3] {
    [
        is_stored(ran, Folder::Automata, "p"),
        is_stored(ran, Folder::Automata, "q"),
        is_stored(ran, Folder::Automata, "r"),
    ]
}

/// Runs a script whose bytes come in pieces of these lengths.
fn run_in_pieces(rt: &impl Abort, alloc: Global, script: &[u8], reads: &'static [usize]) -> Ran {
    let outside = Outside { reads, ..SURE };
    run_line(rt, alloc, "walnut", script, &outside)
}

/// How many texts a run stored, which is let go.
fn count_of(ran: Ran) -> usize {
    count_in(&ran)
}

fn expect_same_in_pieces(rt: &impl Abort, alloc: Global, row: &str, reads: &'static [usize]) {
    let script = script_of(row);
    let ran = run_in_pieces(rt, alloc, script.as_bytes(), reads);
    let count = count_in(&ran);
    expect_row(rt, row, ran);
    let whole = count_of(run_script(rt, alloc, script.as_bytes()));
    expect(rt, script, &count, &whole);
}

fn expect_all_same_in_pieces(rt: &impl Abort, alloc: Global, rows: &str) {
    for row in rows.split_terminator(ROW_END) {
        expect_same_in_pieces(rt, alloc, row, &ONES);
        expect_same_in_pieces(rt, alloc, row, &TWOS);
        expect_same_in_pieces(rt, alloc, row, &THREES);
        expect_same_in_pieces(rt, alloc, row, &SEVENS);
    }
}

#[test]
fn pieces_change_nothing(rt: HostRuntime) {
    expect_all_same_in_pieces(&rt, rt.alloc(), COMMANDS);
    expect_all_same_in_pieces(&rt, rt.alloc(), SETS);
}

/// Runs a script of which a source gives so many bytes, and fails at its second call.
fn run_to_failure(rt: &impl Abort, alloc: Global, script: &[u8], reads: &'static [usize]) -> Ran {
    let outside = Outside {
        reads,
        failing_reads: &[2],
        ..SURE
    };
    run_line(rt, alloc, "walnut", script, &outside)
}

/// Asserts that a run of three commands printed this and ended so, and which of them stored their texts, and lets it go.
fn expect_three(rt: &impl Abort, ran: Ran, printed: &str, end: (u8, usize), stored: [bool; 3]) {
    expect(rt, "three", &are_stored(&ran), &stored);
    expect_run(rt, "three", ran, printed, end);
}

#[test]
fn a_source_that_fails_leaves_what_was_answered(rt: HostRuntime) {
    let answered = run_to_failure(&rt, rt.alloc(), THREE, &[15]);
    expect_three(&rt, answered, "", (3, 1), [true, false, false]);
    let refused = run_to_failure(&rt, rt.alloc(), REFUSED, &[6]);
    expect_run(&rt, "refused", refused, PRINTED, (3, 0));
}

#[test]
fn a_command_that_did_not_come_whole_is_not_begun(rt: HostRuntime) {
    let ran = run_to_failure(&rt, rt.alloc(), THREE, &[13]);
    expect_run(&rt, "three", ran, "", (3, 0));
}

/// Runs three commands over a store whose call of this number fails.
fn run_over_failing_store(rt: &impl Abort, alloc: Global, failing_store: &'static [u64]) -> Ran {
    let outside = Outside {
        failing_store,
        ..SURE
    };
    run_line(rt, alloc, "walnut", THREE, &outside)
}

/// Which call of the store fails, what is printed, the status and how many texts are stored, and whether these are under
/// `p`, `q` and `r`.
type StoreRow = (&'static [u64], &'static str, (u8, usize), [bool; 3]);

static STORES: [StoreRow; 4] = [
    (
        &[1],
        "error 1: F26 Store Automata Library/p\n",
        (3, 2),
        [false, true, true],
    ),
    (
        &[2],
        "error 1: F26 Store Automata Library/q\n",
        (3, 2),
        [true, false, true],
    ),
    (
        &[3],
        "error 2: F26 Store Automata Library/r\n",
        (3, 2),
        [true, true, false],
    ),
    (&[4], "", (0, 3), [true, true, true]),
];

#[test]
fn a_store_that_fails_refuses_its_command_alone(rt: HostRuntime) {
    for (failing, printed, end, stored) in &STORES {
        let ran = run_over_failing_store(&rt, rt.alloc(), failing);
        expect_three(&rt, ran, printed, *end, *stored);
    }
}

/// Runs refused commands, and one that is not, over a sink that takes pieces of these lengths and fails at these calls.
fn run_over_sink(
    rt: &impl Abort,
    alloc: Global,
    writes: &'static [usize],
    failing_writes: &'static [u64],
) -> Ran {
    run_line(
        rt,
        alloc,
        "walnut",
        REFUSED,
        &over_sink(writes, failing_writes),
    )
}

#[test]
fn a_sink_that_fails_or_takes_nothing_ends_the_run(rt: HostRuntime) {
    let failed = run_over_sink(&rt, rt.alloc(), &[], &[1]);
    expect_run(&rt, "fails", failed, "", (3, 0));
    let stuck = run_over_sink(&rt, rt.alloc(), &[5, 0], &[]);
    let is_prefix = PRINTED.as_bytes().starts_with(printed_in(&stuck));
    expect(&rt, "takes nothing", &is_prefix, &true);
    expect_ended(&rt, "takes nothing", stuck, (3, 0));
}

#[test]
fn a_sink_that_takes_a_byte_at_a_time_gets_all(rt: HostRuntime) {
    let ran = run_over_sink(&rt, rt.alloc(), &ONES, &[]);
    expect_three(&rt, ran, PRINTED, (1, 1), [true, false, false]);
}

/// Runs two automata, their word and a formula with it over such objects.
fn run_four(rt: &impl Abort, alloc: Global, outside: &Outside) -> Ran {
    run_line(rt, alloc, "walnut", FOUR.as_bytes(), outside)
}

/// How bytes come and go, what is printed, the status, and how many texts are stored.
fn comings() -> [(Outside, &'static str, (u8, usize)); 6] {
    let in_bytes = Outside {
        reads: &ONES,
        ..SURE
    };
    [
        (in_bytes, "TRUE\n", (0, 4)),
        (over_sink(&ONES, &[]), "TRUE\n", (0, 4)),
        (over_sink(&[0], &[]), "", (3, 4)),
        (over_sink(&[2], &[2]), "TR", (3, 4)),
        (over_sink(&[4, 0], &[]), "TRUE", (3, 4)),
        (over_sink(&[], &[1]), "", (3, 4)),
    ]
}

/// Asserts that such a run printed this, ended so and stored the result, and lets it go.
fn expect_four(rt: &impl Abort, ran: Ran, printed: &str, end: (u8, usize)) {
    expect(rt, printed, &is_stored(&ran, Folder::Results, "t"), &true);
    expect_run(rt, printed, ran, printed, end);
}

#[test]
fn an_answer_goes_in_pieces_or_ends_the_run(rt: HostRuntime) {
    for (outside, printed, end) in &comings() {
        let ran = run_four(&rt, rt.alloc(), outside);
        expect_four(&rt, ran, printed, *end);
    }
}
