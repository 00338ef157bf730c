//! Language commands at their greatest width and at one less, and over stores that fail.

use crate::given::{FailingRow, expect_failing, expect_scripts, run_given};
use crate::language_files::{FIFTH, languages};
use crate::tables::table;
use crate::whole::expect_run;

/// Scripts under a limit of 20.
const WITHIN_20: &str = table![
    (
        "reg a {0,1} \"(0000)*\"; reg b {0,1} \"(00000)*\"; union m a b:",
        "error 1: F19 States step 3\n",
        1,
        3,
    ),
    (
        "reg a {0,1} \"(0000)*\"; reg b {0,1} \"(00000)*\"; intersect m a b:",
        "error 1: F19 States step 3\n",
        1,
        3,
    ),
    (
        "reg a {0,1} \"(0000)*\"; reg b {0,1} \"(00000)*\"; concat m a b:",
        "error 1: F19 States step 3\n",
        1,
        3,
    ),
];

/// Scripts under a limit of 21.
const WITHIN_21: &str = table![
    (
        "reg a {0,1} \"(0000)*\"; reg b {0,1} \"(00000)*\"; union m a b:",
        "step 1 read 5 4\nstep 2 read 6 5\nstep 3 product 21 20\n",
        0,
        4,
    ),
    (
        "reg a {0,1} \"(0000)*\"; reg b {0,1} \"(00000)*\"; intersect m a b:",
        "step 1 read 5 4\nstep 2 read 6 5\nstep 3 product 21 20\n",
        0,
        4,
    ),
    (
        "reg a {0,1} \"(0000)*\"; reg b {0,1} \"(00000)*\"; concat m a b b:",
        "step 1 read 5 4\nstep 2 read 6 5\nstep 3 concat 21 13\nstep 4 concat 18 13\n",
        0,
        4,
    ),
];

/// Scripts under a limit of 30.
const WITHIN_30: &str = table![(
    "reg a {0,1} \"(00)*\"; reg b {0,1} \"(000)*\"; reg c {0,1} \"(00000)*\"; intersect m a b c:",
    "error 1: F19 States step 5\n",
    1,
    4,
)];

/// Scripts under a limit of 31.
const WITHIN_31: &str = table![
    (
        "reg a {0,1} \"(00)*\"; reg b {0,1} \"(000)*\"; reg c {0,1} \"(00000)*\"; intersect m a b c:",
        "step 1 read 3 2\nstep 2 read 4 3\nstep 3 read 6 5\nstep 4 product 7 6\nstep 5 product 31 30\n",
        0,
        5,
    ),
    ("union m fifth:", "error 1: F19 States step 1\n", 1, 1),
];

/// Scripts under a limit of 32.
const WITHIN_32: &str = table![
    ("union m fifth:", "step 1 read 32 32\n", 0, 2),
    (
        "reg s {0,1} \"00000|0000000\"; star m s:",
        "error 1: F19 States step 2\n",
        1,
        2,
    ),
];

/// Scripts under a limit of 33.
const WITHIN_33: &str = table![(
    "reg s {0,1} \"00000|0000000\"; star m s:",
    "step 1 read 9 8\nstep 2 star 33 25\n",
    0,
    3,
)];

#[test]
fn languages_past_the_limit_are_refused(rt: HostRuntime) {
    let alloc = rt.alloc();
    expect_scripts(&rt, alloc, FIFTH, "walnut --states 20", WITHIN_20);
    expect_scripts(&rt, alloc, FIFTH, "walnut --states 21", WITHIN_21);
    expect_scripts(&rt, alloc, FIFTH, "walnut --states 30", WITHIN_30);
    expect_scripts(&rt, alloc, FIFTH, "walnut --states 31", WITHIN_31);
    expect_scripts(&rt, alloc, FIFTH, "walnut --states 32", WITHIN_32);
    expect_scripts(&rt, alloc, FIFTH, "walnut --states 33", WITHIN_33);
}

/// The reversal of a language whose last letter but eleven is 1 has 4096 states.
static REVERSED: &str = "reg a {0,1} \"...........1.*\"; reverse r a:";

#[test]
fn a_reversal_has_its_width_as_limit(rt: HostRuntime) {
    let exact = run_given(&rt, rt.alloc(), "", "walnut --states 4096", REVERSED);
    let printed = "step 1 read 14 13\nstep 2 reverse 4096 4096\n";
    expect_run(&rt, "exact", exact, printed, (0, 2));
    let less = run_given(&rt, rt.alloc(), "", "walnut --states 4095", REVERSED);
    expect_run(&rt, "less", less, "error 1: F19 States step 2\n", (1, 1));
}

/// A call of the store that fails, what is printed then, the status, and how many texts the store has.
static FAILING: [FailingRow; 4] = [
    (1, "error 1: F26 Store Automata Library/ab\n", 3, 18),
    (2, "error 1: F26 Store Automata Library/one\n", 3, 18),
    (3, "error 1: F26 Store Automata Library/m\n", 3, 18),
    (4, "", 0, 19),
];

// Each file is read once, in the order in which the names are listed first.
#[test]
fn each_file_of_a_language_command_is_read_once(rt: HostRuntime) {
    expect_failing(
        &rt,
        rt.alloc(),
        languages(),
        ("walnut", "union m ab ab one ab;"),
        &FAILING,
    );
}
