//! Calls of automata: what is printed of scripts over stores that hold files.

use crate::answers::given;
use crate::tables::{ROW_END, first_field, table};
use crate::whole::{Ran, SURE, expect_names, expect_prints, run_over, run_script};
use std::alloc::Global;
use std::process::Abort;
use wal_outside::{Folder, MemStore, TEXT_LIMIT};

/// A file among the automata, by its name and its text.
type FileRow = (&'static str, &'static str);

/// Scripts that call what they made before, and what they print.
const CALLS: &str = table![
    (
        "reg one msd_2 \"1\"; eval t \"$one(1) & ~$one(2)\";",
        "TRUE\n",
    ),
    (
        "def f \"x=1\"; def g \"$f(x)\"; def f \"x=2\"; eval t \"$g(1)\";",
        "TRUE\n",
    ),
    (
        "def f \"x=1\"; eval t \"$f(1,2)\";",
        "error 1: F13 Arity f 1 2\n",
    ),
    (
        "reg ab {0,1} \"0*1\"; eval t \"$ab(1)\";",
        "error 1: F21 Plain ab\n",
    ),
    (
        "def f \"x=y+1\"; def g \"$f(x,x)\":",
        "step 1 read 3 2\nstep 2 pad 4 2\nstep 3 valid 3 2\n",
    ),
    (
        "def f \"x=y+1\"; def h \"$f(x,3)\":",
        "step 1 read 3 2\nstep 2 pad 4 2\nstep 3 valid 3 2\nstep 4 const 4 3\nstep 5 product 12 4\nstep 6 project 5 4\n",
    ),
    (
        "def f \"x=y+1\"; def k \"$f(2*x,y+1)\":",
        "step 1 read 3 2\nstep 2 pad 4 2\nstep 3 valid 3 2\nstep 4 const 3 2\nstep 5 product 9 3\nstep 6 project 3 2\nstep 7 product 9 4\nstep 8 project 4 3\nstep 9 product 12 4\nstep 10 project 5 4\n",
    ),
    (
        "def a \"x=1\"; def a \"$a(x-1)\"; def a \"$a(x-1)\": eval t \"$a(3) & ~$a(1)\";",
        "step 1 read 4 3\nstep 2 pad 4 3\nstep 3 valid 4 3\nstep 4 const 3 2\nstep 5 product 9 3\nstep 6 project 3 2\nstep 7 product 12 3\nstep 8 project 4 3\nTRUE\n",
    ),
    (
        "def s \"1=1\"; eval t \"$s() & Ex x=1\":",
        "TRUE\nstep 1 const 3 2\nstep 2 project 1 1\nstep 3 product 1 1\nTRUE\n",
    ),
    (
        "def s \"1=1\"; eval u \"$s(1)\";",
        "TRUE\nerror 1: F13 Arity s 0 1\n",
    ),
    (
        "eval s \"1=1\"; eval t \"$s()\";",
        "TRUE\nerror 1: F11 Unknown Automata Library/s\n",
    ),
    (
        "eval t \"$q(1) & $r(1)\";",
        "error 1: F11 Unknown Automata Library/q\n",
    ),
    (
        "eval t \"0=0 & ~?msd_3 x=1 & ?msd_77 1=1 & $q(1)\";",
        "error 1: F11 Unknown Automata Library/q\n",
    ),
    (
        "def f \"x=1\"; eval t \"$f(x) & $q(x)\";",
        "error 1: F11 Unknown Automata Library/q\n",
    ),
    (
        "def f \"x=1\"; eval t \"$f(x,y) & ?msd_77 z=z\";",
        "error 1: F14 SystemUnknown msd_77\n",
    ),
    (
        "def f \"?msd_3 x=1\"; eval t \"?msd_2 x=1 & $f(x)\";",
        "error 1: F16 Clash x msd_2 msd_3\n",
    ),
    (
        "def f \"?lsd_2 x=1\"; eval t \"?msd_2 x=1 & $f(y)\";",
        "error 1: F17 Direction msd_2 lsd_2\n",
    ),
    (
        "def f \"?msd_fib x=5\"; eval t \"?msd_fib Ex $f(x+1) & x=4\";",
        "TRUE\n",
    ),
    (
        "def lt \"x<y\"; eval t \"Ax,y,z ($lt(x,y) & $lt(y,z)) => $lt(x,z)\";",
        "TRUE\n",
    ),
    (
        "def e \"Ey x=y+y\"; eval t \"Ax $e(x) <=> ~$e(x+1)\";",
        "TRUE\n",
    ),
    (
        "def e \"Ey x=y+y\"; eval t \"Ex $e(x-1) & x=0\";",
        "FALSE\n",
    ),
    (
        "def T \"x=1\"; eval t \"$T(1) & T[0]=@0\";",
        "error 1: F11 Unknown Word Automata Library/T\n",
    ),
];

/// A file, a script that calls it, and what this prints.
static FILES: [(FileRow, &str, &str); 14] = [
    (
        ("b", "msd_2\n\n0 1\n0 -> 1\n"),
        "eval w \"$b(0)\";",
        "error 1: F12 File Automata Library/b line 4\n",
    ),
    (
        ("b", "msd_2\n0 1\n0 -> 0\n0 0\n"),
        "eval w \"$b(0)\";",
        "error 1: F12 File Automata Library/b line 4\n",
    ),
    (
        ("b", "msd_2\n0 1\n2 -> 0\n"),
        "eval w \"$b(0)\";",
        "error 1: F12 File Automata Library/b line 3\n",
    ),
    (
        ("b", "msd_2\n0 -> 0\n"),
        "eval w \"$b(0)\";",
        "error 1: F12 File Automata Library/b line 2\n",
    ),
    (
        ("b", ""),
        "eval w \"$b(0)\";",
        "error 1: F12 File Automata Library/b line 1\n",
    ),
    (
        ("b", "msd_2\r\n0 1\r\n0 -> 0\r\n"),
        "eval w \"$b(0)\";",
        "TRUE\n",
    ),
    (("b", "true\n"), "eval w \"$b()\";", "TRUE\n"),
    (("b", "false"), "eval w \"$b() | 1=2\";", "FALSE\n"),
    (
        ("b", "true\n"),
        "eval w \"$b(x)\";",
        "error 1: F13 Arity b 0 1\n",
    ),
    (
        ("b", "{0,1}\n0 1\n"),
        "eval w \"$b(1)\";",
        "error 1: F21 Plain b\n",
    ),
    (
        ("b", "msd_nope\n0 1\n"),
        "eval w \"$b(1)\";",
        "error 1: F14 SystemUnknown msd_nope\n",
    ),
    (
        ("b", "msd_2 lsd_2\n0 1\n"),
        "eval w \"$b(1,1)\";",
        "error 1: F12 File Automata Library/b line 1\n",
    ),
    (
        ("b", "msd_2\n# c\n7 1\n* -> 7\n"),
        "eval w \"Ax $b(x)\":",
        "step 1 read 1 1\nstep 2 pad 2 1\nstep 3 valid 1 1\nstep 4 complement 1 1\nstep 5 project 1 1\nstep 6 complement 1 1\nTRUE\n",
    ),
    (
        (
            "b",
            "msd_2\n0 1\n0 -> 0\n0 -> 1\n1 -> 1\n1 1\n0 1\n0 -> 0\n",
        ),
        "eval w \"$b(0)\";",
        "error 1: F12 File Automata Library/b line 7\n",
    ),
];

/// A store with this text among the automata.
fn store_with(rt: &impl Abort, alloc: Global, name: &str, text: &[u8]) -> MemStore {
    let mut store = MemStore::new(alloc, Vec::new(alloc));
    given(rt, store.put(Folder::Automata, name, text));
    store
}

/// Runs a script over a store with this text among the automata.
fn run_with(rt: &impl Abort, alloc: Global, name: &str, text: &[u8], script: &str) -> Ran {
    let store = store_with(rt, alloc, name, text);
    run_over(rt, alloc, "walnut", (script.as_bytes(), &SURE), store)
}

#[test]
fn calls_print_as_listed(rt: HostRuntime) {
    for row in CALLS.split_terminator(ROW_END) {
        let (script, printed) = first_field(row);
        let ran = run_script(&rt, rt.alloc(), script.as_bytes());
        expect_prints(&rt, script, ran, printed);
    }
}

#[test]
fn files_are_called_as_listed(rt: HostRuntime) {
    for ((name, text), script, printed) in &FILES {
        let ran = run_with(&rt, rt.alloc(), name, text.as_bytes(), script);
        expect_prints(&rt, script, ran, printed);
    }
}

/// Four commands, each of which calls the one before it.
const CHAIN: &str =
    "def a \"x=1\"; def b \"$a(x-1)\"; def c \"$b(x-1) | $a(x)\"; eval t \"$c(3)\";";

/// The number of the store's call that fails, what is printed, and the status.
static FAILING: [(u64, &str, u8); 9] = [
    (
        1,
        "error 1: F26 Store Automata Library/a\nerror 1: F11 Unknown Automata Library/a\nerror 1: F11 Unknown Automata Library/b\nerror 1: F11 Unknown Automata Library/c\n",
        3,
    ),
    (
        2,
        "error 1: F26 Store Automata Library/a\nerror 1: F11 Unknown Automata Library/b\nerror 1: F11 Unknown Automata Library/c\n",
        3,
    ),
    (
        3,
        "error 1: F26 Store Automata Library/b\nerror 1: F11 Unknown Automata Library/b\nerror 1: F11 Unknown Automata Library/c\n",
        3,
    ),
    (
        4,
        "error 1: F26 Store Automata Library/b\nerror 1: F11 Unknown Automata Library/c\n",
        3,
    ),
    (
        5,
        "error 1: F26 Store Automata Library/a\nerror 1: F11 Unknown Automata Library/c\n",
        3,
    ),
    (
        6,
        "error 1: F26 Store Automata Library/c\nerror 1: F11 Unknown Automata Library/c\n",
        3,
    ),
    (7, "error 1: F26 Store Automata Library/c\n", 3),
    (8, "error 1: F26 Store Result/t\n", 3),
    (9, "TRUE\n", 0),
];

/// Runs the chain over a store whose call of this number fails.
fn run_to_call(rt: &impl Abort, alloc: Global, failing: u64) -> Ran {
    let store = MemStore::new(alloc, given(rt, vec![in alloc; failing]));
    run_over(rt, alloc, "walnut", (CHAIN.as_bytes(), &SURE), store)
}

#[test]
fn a_store_that_fails_at_each_call(rt: HostRuntime) {
    for (failing, printed, code) in &FAILING {
        let ran = run_to_call(&rt, rt.alloc(), *failing);
        expect_names(&rt, printed, ran, (printed, *code), &[]);
    }
}

/// Runs a script that calls a file of so many line ends.
fn run_long_file(rt: &impl Abort, alloc: Global, length: usize) -> Ran {
    let text = given(rt, vec![in alloc; b'\n'; length]);
    run_with(rt, alloc, "b", &text, "eval w \"$b(0)\";")
}

/// A file of one byte more than may be read is refused without a look at its format.
#[test]
fn a_file_has_at_most_16777216_bytes(rt: HostRuntime) {
    let ran = run_long_file(&rt, rt.alloc(), TEXT_LIMIT + 1);
    let printed = "error 1: F12 File Automata Library/b too long\n";
    expect_prints(&rt, "a long file", ran, printed);
}
