//! Expressions with large automata: the lines of their steps.

use crate::answers::given;
use crate::whole::{Ran, expect_prints, expect_stores, run_script};
use std::alloc::Global;
use std::process::Abort;
use wal_outside::Folder;

/// An expression, and the line of its one step.
struct LargeRow {
    sets: &'static str,
    before: &'static str,
    repeated: &'static str,
    times: usize,
    after: &'static str,
    printed: &'static str,
}

/// A chain of letters, a cycle, the sets of the last sixteen letters, and six tracks with three letters a state.
static ROWS: [LargeRow; 4] = [
    LargeRow {
        sets: "{0}",
        before: "",
        repeated: "0",
        times: 30000,
        after: "",
        printed: "step 1 regex 30002 30001\n",
    },
    LargeRow {
        sets: "{0}",
        before: "(",
        repeated: "0",
        times: 30000,
        after: ")*",
        printed: "step 1 regex 30001 30000\n",
    },
    LargeRow {
        sets: "{0,1}",
        before: "(0|1)*1",
        repeated: "(0|1)",
        times: 15,
        after: "",
        printed: "step 1 regex 65537 65536\n",
    },
    LargeRow {
        sets: "{0,1,2,3,4,5} {0,1,2,3,4,5} {0,1,2,3,4,5} {0,1,2,3,4,5} {0,1,2,3,4,5} {0,1,2,3,4,5}",
        before: "",
        repeated: "([0,1,2,3,4,5]|[5,4,3,2,1,0]|[3,3,3,3,3,3])",
        times: 400,
        after: "",
        printed: "step 1 regex 1202 401\n",
    },
];

/// Runs the `reg` of a row.
fn run_row(rt: &impl Abort, alloc: Global, row: &LargeRow) -> Ran {
    let LargeRow {
        sets,
        before,
        after,
        ..
    } = row;
    let repeated = given(rt, row.repeated.repeat(alloc, row.times));
    let script = given(
        rt,
        format!(in alloc; "reg p {sets} \"{before}{repeated}{after}\":"),
    );
    run_script(rt, alloc, script.as_bytes())
}

#[test]
fn large_automata_have_these_steps(rt: HostRuntime) {
    for row in &ROWS {
        let ran = run_row(&rt, rt.alloc(), row);
        expect_prints(&rt, row.repeated, ran, row.printed);
    }
}

/// Runs a `reg` of the empty word over sixteen tracks.
fn run_empty_word(rt: &impl Abort, alloc: Global) -> Ran {
    let sets = given(rt, "{0,1} ".repeat(alloc, 16));
    let script = given(rt, format!(in alloc; "reg w {sets}\"()\";"));
    run_script(rt, alloc, script.as_bytes())
}

// The header, a blank line, and the one state without transitions.
#[test]
fn the_empty_word_over_sixteen_tracks_has_no_transition(rt: HostRuntime) {
    let header =
        "{0,1} {0,1} {0,1} {0,1} {0,1} {0,1} {0,1} {0,1} {0,1} {0,1} {0,1} {0,1} {0,1} {0,1} {0,1} {0,1}\n\n0 1\n";
    let ran = run_empty_word(&rt, rt.alloc());
    expect_stores(&rt, ran, (Folder::Automata, "w"), header);
}
