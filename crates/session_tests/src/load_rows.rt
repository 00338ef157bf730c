//! Files of commands that scripts load, and ends of runs.

use crate::answers::given;
use crate::given::{FailingRow, expect_failing, run_given, run_outside};
use crate::tables::files;
use crate::whole::{Outside, Ran, SURE, expect_run, run_over};
use std::alloc::Global;
use std::process::Abort;
use wal_outside::{Folder, MemStore};

/// Which files of commands a store has.
#[derive(Clone, Copy)]
enum Given {
    Nothing,
    Eight,
    Nine,
    Faulty,
    Open,
    Ending,
    Making,
    Itself,
    Quitting,
    TwoFaults,
}

/// The files that a store has.
fn files_of(given: Given) -> &'static str {
    match given {
        Given::Nothing => "",
        Given::Eight => EIGHT,
        Given::Nine => NINE,
        Given::Faulty => FAULTY,
        Given::Open => OPEN,
        Given::Ending => ENDING,
        Given::Making => MAKING,
        Given::Itself => ITSELF,
        Given::Quitting => QUITTING,
        Given::TwoFaults => TWO_FAULTS,
    }
}

/// Files, a script, what it prints, the status, and how many texts the store has then.
type LoadRow = (Given, &'static str, &'static str, u8, usize);

/// Eight files, each of which loads the next.
const EIGHT: &str = files![
    (Folder::Commands, "a1", "load a2;"),
    (Folder::Commands, "a2", "load a3;"),
    (Folder::Commands, "a3", "load a4;"),
    (Folder::Commands, "a4", "load a5;"),
    (Folder::Commands, "a5", "load a6;"),
    (Folder::Commands, "a6", "load a7;"),
    (Folder::Commands, "a7", "load a8;"),
    (Folder::Commands, "a8", "prove;"),
];

/// The same, where the last one loads a ninth that is not there.
const NINE: &str = files![
    (Folder::Commands, "a1", "load a2;"),
    (Folder::Commands, "a2", "load a3;"),
    (Folder::Commands, "a3", "load a4;"),
    (Folder::Commands, "a4", "load a5;"),
    (Folder::Commands, "a5", "load a6;"),
    (Folder::Commands, "a6", "load a7;"),
    (Folder::Commands, "a7", "load a8;"),
    (Folder::Commands, "a8", "load a9;"),
];

/// A file with faults on its own lines.
const FAULTY: &str = files![(Folder::Commands, "c", "\n\nprove;\n def p \"x<\";")];

/// A file that ends within a command.
const OPEN: &str = files![(Folder::Commands, "c", "prove; eval t \"1=1")];

/// A file that loads one that ends the run.
const ENDING: &str = files![
    (Folder::Commands, "c", "load d; prove;"),
    (Folder::Commands, "d", "eval t \"1=1\"; exit; prove;"),
];

/// A file that makes something.
const MAKING: &str = files![(Folder::Commands, "c", "eval t \"1=1\";")];

/// A file that loads itself.
const ITSELF: &str = files![(Folder::Commands, "l", "load l;")];

/// A file that ends the run at once.
const QUITTING: &str = files![(Folder::Commands, "c", "quit")];

/// Loads and ends.
static ROWS: [LoadRow; 14] = [
    (
        Given::Eight,
        "load a1; prove;",
        "error 1: F01 Command\nerror 1: F01 Command\n",
        1,
        8,
    ),
    (
        Given::Nine,
        "load a1; prove;",
        "error 1: F25 LoadDepth a9\nerror 1: F01 Command\n",
        1,
        8,
    ),
    (
        Given::Faulty,
        "prove;\nload c;\nprove;",
        "error 1: F01 Command\nerror 3: F01 Command\nerror 4: F02 Syntax in formula at 2\nerror 3: F01 Command\n",
        1,
        1,
    ),
    (
        Given::Open,
        "load c; prove;",
        "error 1: F01 Command\nerror 1: F02 Syntax in command at 11\nerror 1: F01 Command\n",
        1,
        1,
    ),
    (Given::Ending, "load c; prove;", "TRUE\n", 0, 3),
    (
        Given::Nothing,
        "load; load a b; load a.tx; load a.txtx; load a=1; exit now; exit\"a\";",
        "error 1: F02 Syntax in command at 4\nerror 1: F02 Syntax in command at 7\nerror 1: F02 Syntax in command at 6\nerror 1: F02 Syntax in command at 10\nerror 1: F02 Syntax in command at 5\nerror 1: F02 Syntax in command at 5\nerror 1: F02 Syntax in command at 4\n",
        1,
        0,
    ),
    (
        Given::Making,
        "load c.txt; exit; eval u \"1=1\";",
        "TRUE\n",
        0,
        2,
    ),
    (Given::Making, "load c; load c;", "TRUE\nTRUE\n", 0, 2),
    (Given::Itself, "load l;", "error 1: F25 LoadDepth l\n", 1, 1),
    (
        Given::Nothing,
        "load x; prove;",
        "error 1: F11 Unknown Command Files/x\nerror 1: F01 Command\n",
        1,
        0,
    ),
    (
        Given::Quitting,
        "load c; prove;",
        "error 1: F02 Syntax in command at 4\nerror 1: F01 Command\n",
        1,
        1,
    ),
    (Given::Nothing, "quit ; prove;", "", 0, 0),
    (
        Given::Nothing,
        "prove; exit:: prove;",
        "error 1: F01 Command\n",
        1,
        0,
    ),
    (
        Given::Nothing,
        "load exit; quitexit;",
        "error 1: F11 Unknown Command Files/exit\nerror 1: F01 Command\n",
        1,
        0,
    ),
];

/// Asserts that each script of a table, with the words of this command line, prints what is listed, and ends so.
fn expect_loads(rt: &impl Abort, alloc: Global, line: &str, rows: &[LoadRow]) {
    for (given, script, printed, code, count) in rows {
        let ran = run_given(rt, alloc, files_of(*given), line, script);
        expect_run(rt, script, ran, printed, (*code, *count));
    }
}

#[test]
fn files_are_loaded_and_runs_end_as_listed(rt: HostRuntime) {
    expect_loads(&rt, rt.alloc(), "walnut", &ROWS);
}

/// Pieces of one byte.
static ONES: [usize; 128] = [1; 128];

#[test]
fn loads_are_the_same_where_bytes_come_and_go_one_by_one(rt: HostRuntime) {
    let outside = Outside {
        reads: &ONES,
        writes: &ONES,
        ..SURE
    };
    for (given, script, printed, code, count) in &ROWS {
        let ran = run_outside(&rt, rt.alloc(), files_of(*given), script, &outside);
        expect_run(&rt, script, ran, printed, (*code, *count));
    }
}

/// A script that loads a file twice.
const TWICE: &str = "load c; load c; eval u \"1=1\";";

/// What is printed where one call of the store fails: it reads the file and writes the text of `t`, both twice, and then that of `u`.
static FAILING: [FailingRow; 6] = [
    (1, "error 1: F26 Store Command Files/c\nTRUE\nTRUE\n", 3, 3),
    (2, "error 1: F26 Store Result/t\nTRUE\nTRUE\n", 3, 3),
    (3, "TRUE\nerror 1: F26 Store Command Files/c\nTRUE\n", 3, 3),
    (4, "TRUE\nerror 1: F26 Store Result/t\nTRUE\n", 3, 3),
    (5, "TRUE\nTRUE\nerror 1: F26 Store Result/u\n", 3, 2),
    (6, "TRUE\nTRUE\nTRUE\n", 0, 3),
];

#[test]
fn each_store_call_of_a_load_may_fail(rt: HostRuntime) {
    expect_failing(&rt, rt.alloc(), MAKING, ("walnut", TWICE), &FAILING);
}

/// A file with two faults.
const TWO_FAULTS: &str = files![(Folder::Commands, "c", "prove a; prove c;")];

/// Runs that end with the first refusal.
static STOPPING: [LoadRow; 9] = [
    (
        Given::Nothing,
        "prove a; eval t \"1=1\";",
        "error 1: F01 Command\n",
        1,
        0,
    ),
    (
        Given::Nothing,
        "eval t \"1=1\"; prove a; eval u \"1=1\";",
        "TRUE\nerror 1: F01 Command\n",
        1,
        1,
    ),
    (
        Given::TwoFaults,
        "load c; prove b;",
        "error 1: F01 Command\n",
        1,
        1,
    ),
    (
        Given::Nothing,
        "load x; eval t \"1=1\";",
        "error 1: F11 Unknown Command Files/x\n",
        1,
        0,
    ),
    (
        Given::Nine,
        "load a1; prove;",
        "error 1: F25 LoadDepth a9\n",
        1,
        8,
    ),
    (
        Given::Open,
        "load c; prove;",
        "error 1: F01 Command\n",
        1,
        1,
    ),
    (
        Given::Nothing,
        "eval t \"1=1\";\n eval u \"1=1",
        "TRUE\nerror 2: F02 Syntax in command at 11\n",
        1,
        1,
    ),
    (Given::Ending, "load c; prove;", "TRUE\n", 0, 3),
    (Given::Nothing, "exit; prove;", "", 0, 0),
];

#[test]
fn runs_stop_at_the_first_refusal_as_listed(rt: HostRuntime) {
    expect_loads(&rt, rt.alloc(), "walnut --stop", &STOPPING);
}

/// What is printed of a run that ends with the first refusal, where a call of the store fails.
static STOPPED: [FailingRow; 4] = [
    (1, "error 1: F26 Store Command Files/c\n", 3, 1),
    (2, "error 1: F26 Store Result/t\n", 3, 1),
    (3, "TRUE\nerror 1: F26 Store Command Files/c\n", 3, 2),
    (5, "TRUE\nTRUE\nerror 1: F26 Store Result/u\n", 3, 2),
];

#[test]
fn a_store_that_fails_stops_a_run(rt: HostRuntime) {
    expect_failing(&rt, rt.alloc(), MAKING, ("walnut --stop", TWICE), &STOPPED);
}

/// Runs a script over a store with a file `c` of so many blanks, and perhaps a file `d` that loads it.
fn run_blanks(rt: &impl Abort, alloc: Global, script: &str, length: usize) -> Ran {
    let blanks = given(rt, " ".repeat(alloc, length));
    let mut store = MemStore::new(alloc, Vec::new(alloc));
    given(rt, store.put(Folder::Commands, "c", blanks.as_bytes()));
    given(
        rt,
        store.put(Folder::Commands, "d", b"prove;\n load c; prove;"),
    );
    run_over(rt, alloc, "walnut", (script.as_bytes(), &SURE), store)
}

/// Scripts over a file of so many bytes, what they print, and the status.
static LIMITS: [(&str, usize, &str, u8); 5] = [
    ("load c;", 16_777_209, "", 0),
    ("load c;", 16_777_210, "error 1: F28 ScriptLimit\n", 1),
    ("load c; ", 16_777_209, "error 1: F28 ScriptLimit\n", 1),
    (
        "load c; prove;",
        16_777_217,
        "error 1: F12 File Command Files/c too long\nerror 1: F01 Command\n",
        1,
    ),
    (
        "load d; prove;",
        16_777_196,
        "error 1: F01 Command\nerror 2: F28 ScriptLimit\n",
        1,
    ),
];

#[test]
fn bytes_of_scripts_and_of_files_count_together(rt: HostRuntime) {
    for (script, length, printed, code) in &LIMITS {
        let ran = run_blanks(&rt, rt.alloc(), script, *length);
        expect_run(&rt, script, ran, printed, (*code, 2));
    }
}
