//! Systems of users in commands: files that are none of a system, and stores that fail at files.

use crate::answers::given;
use crate::tables::{ROW_END, first_field, table};
use crate::user_system_files::{BINARY, CARRIES, run_over_files};
use crate::whole::{Ran, SURE, code_of, expect, expect_printed, expect_prints, run_over};
use std::alloc::Global;
use std::process::Abort;
use wal_outside::{Folder, MemStore, TEXT_LIMIT};

/// Languages and adders, and what is printed where they are asked.
static PAIRS: [(&str, &str, &str); 34] = [
    (
        "# c\n\n  # d\n{0,2}\n0 1\n* -> 0\n",
        CARRIES,
        "error 1: F12 File Custom Bases/msd_X line 4\n",
    ),
    (
        "msd_2\n0 1\n* -> 0\n",
        CARRIES,
        "error 1: F12 File Custom Bases/msd_X line 1\n",
    ),
    (
        "true\n",
        CARRIES,
        "error 1: F12 File Custom Bases/msd_X line 1\n",
    ),
    (
        "{1,2}\n0 1\n* -> 0\n",
        CARRIES,
        "error 1: F12 File Custom Bases/msd_X line 1\n",
    ),
    (
        "{-1,0,1}\n0 1\n",
        CARRIES,
        "error 1: F12 File Custom Bases/msd_X line 1\n",
    ),
    (
        "{0,1} {0,1}\n0 1\n",
        CARRIES,
        "error 1: F12 File Custom Bases/msd_X line 1\n",
    ),
    (
        "{0,1,0}\n0 1\n",
        CARRIES,
        "error 1: F12 File Custom Bases/msd_X line 1\n",
    ),
    ("", CARRIES, "error 1: F12 File Custom Bases/msd_X line 1\n"),
    (
        "{0,1}\n",
        CARRIES,
        "error 1: F12 File Custom Bases/msd_X line 2\n",
    ),
    (
        "{0,1}\n0 1\n2 -> 0\n",
        CARRIES,
        "error 1: F12 File Custom Bases/msd_X line 3\n",
    ),
    (
        "{0,1}\n0 1\n0 0 -> 0\n",
        CARRIES,
        "error 1: F12 File Custom Bases/msd_X line 3\n",
    ),
    (
        "{0,1}\n0 1\n0 -> 1\n",
        CARRIES,
        "error 1: F12 File Custom Bases/msd_X line 3\n",
    ),
    (
        "{0,1}\n0 1\n0 -> 0\n0 0\n",
        CARRIES,
        "error 1: F12 File Custom Bases/msd_X line 4\n",
    ),
    (
        "{0,1}\n{0,1}\n0 1\n",
        CARRIES,
        "error 1: F12 File Custom Bases/msd_X line 2\n",
    ),
    (
        "false\n",
        "true\n",
        "error 1: F12 File Custom Bases/msd_X line 1\n",
    ),
    (
        BINARY,
        "true\n",
        "error 1: F12 File Custom Bases/msd_X_addition line 1\n",
    ),
    (
        BINARY,
        "{0,1} {0,1}\n0 1\n",
        "error 1: F12 File Custom Bases/msd_X_addition line 1\n",
    ),
    (
        BINARY,
        "{0,1} {0,1} {0,1} {0,1}\n0 1\n",
        "error 1: F12 File Custom Bases/msd_X_addition line 1\n",
    ),
    (
        BINARY,
        "{0,1,2} {0,1,2} {0,1,2}\n0 1\n",
        "error 1: F12 File Custom Bases/msd_X_addition line 1\n",
    ),
    (
        BINARY,
        "{0,1} {0,2} {0,1}\n0 1\n",
        "error 1: F12 File Custom Bases/msd_X_addition line 1\n",
    ),
    (
        BINARY,
        "msd_2 msd_2 msd_2\n0 1\n",
        "error 1: F12 File Custom Bases/msd_X_addition line 1\n",
    ),
    (
        BINARY,
        "\n# c\n{0,1} {0,1}\n0 1\n",
        "error 1: F12 File Custom Bases/msd_X_addition line 3\n",
    ),
    (
        BINARY,
        "",
        "error 1: F12 File Custom Bases/msd_X_addition line 1\n",
    ),
    (
        BINARY,
        "{0,1} {0,1} {0,1}\n",
        "error 1: F12 File Custom Bases/msd_X_addition line 2\n",
    ),
    (
        BINARY,
        "{0,1} {0,1} {0,1}\n0 1\n0 0 -> 0\n",
        "error 1: F12 File Custom Bases/msd_X_addition line 3\n",
    ),
    (
        BINARY,
        "{0,1} {0,1} {0,1}\n0 1\n0 0 2 -> 0\n",
        "error 1: F12 File Custom Bases/msd_X_addition line 3\n",
    ),
    (
        BINARY,
        "{0,1} {0,1} {0,1}\n0 1\n0 0 0 -> 1\n",
        "error 1: F12 File Custom Bases/msd_X_addition line 3\n",
    ),
    (
        "{0}\n0 1\n0 -> 0\n",
        CARRIES,
        "error 1: F12 File Custom Bases/msd_X_addition line 1\n",
    ),
    (
        "{0,1,2,3,4}\n0 1\n* -> 0\n",
        CARRIES,
        "error 1: F12 File Custom Bases/msd_X_addition line 1\n",
    ),
    (
        "{0,1}\n0 0\n0 -> 0\n1 -> 1\n1 1\n0 -> 1\n1 -> 1\n",
        "true\n",
        "error 1: F12 File Custom Bases/msd_X_addition line 1\n",
    ),
    (
        "{0}\n0 1\n0 -> 0\n",
        "{0} {0} {0}\n0 1\n* * * -> 0\n",
        "error 1: F15 NotAdmitted msd_X Finite\n",
    ),
    ("{0,1}\r\n0 1\r\n* -> 0\r\n", CARRIES, "TRUE\n"),
    ("# c\n { 1 , 0 }\t\n7 -3\n* -> 7", CARRIES, "TRUE\n"),
    (
        BINARY,
        "{1,0}{0,1} {1,0}\r\n0 1\r\n0 0 0 -> 0\r\n0 1 1 -> 0\r\n1 0 1 -> 0\r\n0 0 1 -> 1\r\n1 0\r\n1 1 1 -> 1\r\n0 1 0 -> 1\r\n1 0 0 -> 1\r\n1 1 0 -> 0\r\n",
        "TRUE\n",
    ),
];

/// Scripts, the number of the store's call that fails, what is printed, and the status.
const FAILING: &str = table![
    (
        "def f \"?lsd_bin x=1\"; eval t \"$f(1)\";",
        1,
        "error 1: F26 Store Custom Bases/lsd_bin\nerror 1: F11 Unknown Automata Library/f\n",
        3,
    ),
    (
        "def f \"?lsd_bin x=1\"; eval t \"$f(1)\";",
        2,
        "error 1: F26 Store Custom Bases/msd_bin\nerror 1: F11 Unknown Automata Library/f\n",
        3,
    ),
    (
        "def f \"?lsd_bin x=1\"; eval t \"$f(1)\";",
        3,
        "error 1: F26 Store Custom Bases/msd_bin_addition\nerror 1: F11 Unknown Automata Library/f\n",
        3,
    ),
    (
        "def f \"?lsd_bin x=1\"; eval t \"$f(1)\";",
        4,
        "error 1: F26 Store Automata Library/f\nerror 1: F11 Unknown Automata Library/f\n",
        3,
    ),
    (
        "def f \"?lsd_bin x=1\"; eval t \"$f(1)\";",
        5,
        "error 1: F26 Store Automata Library/f\n",
        3,
    ),
    (
        "def f \"?lsd_bin x=1\"; eval t \"$f(1)\";",
        6,
        "error 1: F26 Store Custom Bases/lsd_bin\n",
        3,
    ),
    (
        "def f \"?lsd_bin x=1\"; eval t \"$f(1)\";",
        7,
        "error 1: F26 Store Custom Bases/msd_bin\n",
        3,
    ),
    (
        "def f \"?lsd_bin x=1\"; eval t \"$f(1)\";",
        8,
        "error 1: F26 Store Custom Bases/msd_bin_addition\n",
        3,
    ),
    (
        "def f \"?lsd_bin x=1\"; eval t \"$f(1)\";",
        9,
        "error 1: F26 Store Result/t\n",
        3,
    ),
    ("def f \"?lsd_bin x=1\"; eval t \"$f(1)\";", 10, "TRUE\n", 0),
    (
        "eval t \"(?msd_bin 0=0) & (?lsd_bin 0=0) & ?msd_bin 0=0\";",
        1,
        "error 1: F26 Store Custom Bases/msd_bin\n",
        3,
    ),
    (
        "eval t \"(?msd_bin 0=0) & (?lsd_bin 0=0) & ?msd_bin 0=0\";",
        2,
        "error 1: F26 Store Custom Bases/msd_bin_addition\n",
        3,
    ),
    (
        "eval t \"(?msd_bin 0=0) & (?lsd_bin 0=0) & ?msd_bin 0=0\";",
        3,
        "error 1: F26 Store Custom Bases/lsd_bin\n",
        3,
    ),
    (
        "eval t \"(?msd_bin 0=0) & (?lsd_bin 0=0) & ?msd_bin 0=0\";",
        4,
        "error 1: F26 Store Result/t\n",
        3,
    ),
    (
        "eval t \"(?msd_bin 0=0) & (?lsd_bin 0=0) & ?msd_bin 0=0\";",
        5,
        "TRUE\n",
        0,
    ),
    (
        "reg t msd_bin msd_own \"[0,0]\";",
        3,
        "error 1: F26 Store Custom Bases/msd_own\n",
        3,
    ),
    (
        "eval t \"?msd_wrong 0=0\";",
        3,
        "error 1: F15 NotAdmitted msd_wrong SuccessorLaw\n",
        1,
    ),
    (
        "eval t \"?msd_spoilt 0=0\";",
        3,
        "error 1: F12 File Custom Bases/lsd_spoilt line 1\n",
        1,
    ),
    (
        "eval t \"?msd_bin 0=\";",
        1,
        "error 1: F02 Syntax in formula at 11\n",
        1,
    ),
    (
        "eval t \"?msd_2a 0=0\";",
        1,
        "error 1: F14 SystemUnknown msd_2a\n",
        1,
    ),
    (
        "eval t \"?msd_41 0=0\";",
        1,
        "error 1: F14 SystemUnknown msd_41\n",
        1,
    ),
    (
        "eval t \"?msd_2 0=0\";",
        1,
        "error 1: F26 Store Result/t\n",
        3,
    ),
    (
        "eval t \"?msd_fib 0=0\";",
        1,
        "error 1: F26 Store Result/t\n",
        3,
    ),
];

/// Asks whether 6 is a double in the system of these two files.
fn ask_files(rt: &impl Abort, alloc: Global, language: &[u8], adder: &[u8]) -> Ran {
    let mut store = MemStore::new(alloc, Vec::new(alloc));
    given(rt, store.put(Folder::Bases, "msd_X", language));
    given(rt, store.put(Folder::Bases, "msd_X_addition", adder));
    let script = b"eval a \"?msd_X Ex x+x=6\";";
    run_over(rt, alloc, "walnut", (script, &SURE), store)
}

#[test]
fn files_of_systems_are_read_as_listed(rt: HostRuntime) {
    for (language, adder, printed) in &PAIRS {
        let ran = ask_files(&rt, rt.alloc(), language.as_bytes(), adder.as_bytes());
        expect_prints(&rt, printed, ran, printed);
    }
}

/// Asks it where the language is so many line ends.
fn ask_long_language(rt: &impl Abort, alloc: Global, length: usize) -> Ran {
    let text = given(rt, vec![in alloc; b'\n'; length]);
    ask_files(rt, alloc, &text, CARRIES.as_bytes())
}

/// Asks it where the adder is so many line ends.
fn ask_long_adder(rt: &impl Abort, alloc: Global, length: usize) -> Ran {
    let text = given(rt, vec![in alloc; b'\n'; length]);
    ask_files(rt, alloc, BINARY.as_bytes(), &text)
}

#[test]
fn files_of_systems_have_at_most_16777216_bytes(rt: HostRuntime) {
    let language = ask_long_language(&rt, rt.alloc(), TEXT_LIMIT + 1);
    let printed = "error 1: F12 File Custom Bases/msd_X too long\n";
    expect_prints(&rt, "a long language", language, printed);
    let adder = ask_long_adder(&rt, rt.alloc(), TEXT_LIMIT + 1);
    let printed = "error 1: F12 File Custom Bases/msd_X_addition too long\n";
    expect_prints(&rt, "a long adder", adder, printed);
}

/// Asserts that the script of a row prints this, and has this status, where a call of the store fails: the fields are the script, the
/// number of the call, what is printed, and the status.
fn expect_failing_at(rt: &impl Abort, alloc: Global, row: &str) {
    let (script, rest) = first_field(row);
    let (failing, rest) = first_field(rest);
    let (printed, code) = first_field(rest);
    let ran = run_over_files(rt, alloc, "walnut", script, given(rt, failing.parse()));
    expect_printed(rt, script, &ran, printed);
    expect(rt, script, &code_of(&ran), &given(rt, code.parse()));
}

#[test]
fn a_store_that_fails_at_files_of_systems(rt: HostRuntime) {
    for row in FAILING.split_terminator(ROW_END) {
        expect_failing_at(&rt, rt.alloc(), row);
    }
}
