//! Formulas at their limits, and over a source, a sink and a store that fail.

use crate::answers::{given, no_answer};
use crate::tables::{ROW_END, first_field, table};
use crate::whole::{
    Outside, Ran, SURE, expect_ended, expect_names, expect_run, expect_stores, over_sink, run_line,
    run_script,
};
use std::alloc::Global;
use std::process::Abort;
use wal_outside::Folder;

/// What opens nesting, what closes it, and the fault of 129 of these.
const NESTING: &str = table![
    ("(", ")", "error 1: F06 Depth in formula at 128\n"),
    ("~", "", "error 1: F06 Depth in formula at 128\n"),
    ("Ex ", "", "error 1: F06 Depth in formula at 384\n"),
    ("A y ", "", "error 1: F06 Depth in formula at 512\n"),
];

/// Runs a `def` of `x=1` inside so many of these.
fn run_nested(rt: &impl Abort, alloc: Global, open: &str, close: &str, depth: usize) -> Ran {
    let before = given(rt, open.repeat(alloc, depth));
    let after = given(rt, close.repeat(alloc, depth));
    let script = given(rt, format!(in alloc; "def d \"{before}x=1{after}\";"));
    run_script(rt, alloc, script.as_bytes())
}

// Of each 128 may be within one another, and 129 may not.
#[test]
fn formulas_nest_128_deep(rt: HostRuntime) {
    for row in NESTING.split_terminator(ROW_END) {
        let (open, rest) = first_field(row);
        let (close, fault) = first_field(rest);
        let most = run_nested(&rt, rt.alloc(), open, close, 128);
        expect_ended(&rt, open, most, (0, 1));
        let more = run_nested(&rt, rt.alloc(), open, close, 129);
        expect_run(&rt, open, more, fault, (1, 0));
    }
}

/// A `def` whose text has 65,536 bytes: a chain of atoms.
fn longest(rt: &impl Abort, alloc: Global) -> String {
    let chain = given(rt, "&x=y".repeat(alloc, 16_380));
    given(rt, format!(in alloc; "def d \"x=y{chain}     \";"))
}

/// Runs it, if it has 65,536 bytes and its terminator.
fn run_longest(rt: &impl Abort, alloc: Global) -> Ran {
    let script = longest(rt, alloc);
    if script.len() == 65_537 {
        run_script(rt, alloc, script.as_bytes())
    } else {
        no_answer(rt)
    }
}

#[test]
fn a_chain_may_fill_a_command(rt: HostRuntime) {
    let ran = run_longest(&rt, rt.alloc());
    expect_stores(&rt, ran, (Folder::Automata, "d"), EQUAL);
}

/// The pairs of equal numbers in base 2.
const EQUAL: &str = "msd_2 msd_2\n\n0 1\n0 0 -> 0\n1 1 -> 0\n";

/// Runs three commands over a store whose second call fails.
fn run_over_store(rt: &impl Abort, alloc: Global) -> Ran {
    let outside = Outside {
        failing_store: &[2],
        ..SURE
    };
    let script = b"def p \"x=0\"; def q \"x=1\"; def r \"x=2\";";
    run_line(rt, alloc, "walnut", script, &outside)
}

// The second write fails, and the commands beside it are answered.
#[test]
fn a_store_that_fails_refuses_its_formula_alone(rt: HostRuntime) {
    let ran = run_over_store(&rt, rt.alloc());
    let printed = "error 1: F26 Store Automata Library/q\n";
    let names = [
        (Folder::Automata, "p", true),
        (Folder::Automata, "q", false),
        (Folder::Automata, "r", true),
    ];
    expect_names(&rt, "three commands", ran, (printed, 3), &names);
}

/// Runs four commands over a sink whose second call fails.
fn run_over_sink(rt: &impl Abort, alloc: Global) -> Ran {
    let script = b"def p \"x=0\"; eval a \"1=1\"; eval b \"1=2\"; def q \"x=1\";";
    run_line(rt, alloc, "walnut", script, &over_sink(&[], &[2]))
}

// The second verdict cannot be printed: its command was stored before, and none after it is answered.
#[test]
fn a_sink_that_fails_at_a_verdict_ends_the_run(rt: HostRuntime) {
    let ran = run_over_sink(&rt, rt.alloc());
    let names = [
        (Folder::Automata, "p", true),
        (Folder::Results, "a", true),
        (Folder::Results, "b", true),
        (Folder::Automata, "q", false),
    ];
    expect_names(&rt, "four commands", ran, ("TRUE\n", 3), &names);
}

/// Runs a command of a source whose second call fails.
fn run_over_source(rt: &impl Abort, alloc: Global) -> Ran {
    let outside = Outside {
        failing_reads: &[2],
        ..SURE
    };
    run_line(rt, alloc, "walnut", b"def p \"x=0\"; ", &outside)
}

// The source fails after the first command, which was answered.
#[test]
fn a_source_that_fails_leaves_the_formula_before(rt: HostRuntime) {
    let ran = run_over_source(&rt, rt.alloc());
    let names = [(Folder::Automata, "p", true)];
    expect_names(&rt, "one command", ran, ("", 3), &names);
}
