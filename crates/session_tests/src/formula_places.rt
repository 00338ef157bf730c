//! Faults at the begin, in the middle and at the end of a formula, among commands that are answered.

use crate::answers::given;
use crate::tables::{ROW_END, first_field, table};
use crate::whole::{Ran, count_in, expect, expect_prints, run_script};
use std::alloc::Global;
use std::process::Abort;

/// A formula, and what is printed of it and the true sentence after it.
const PLACES: &str = table![
    (
        "x+=1 & p=1 & q=2",
        "error 1: F02 Syntax in formula at 2\nTRUE\n",
    ),
    (
        "p=1 & x+=1 & q=2",
        "error 1: F02 Syntax in formula at 8\nTRUE\n",
    ),
    (
        "p=1 & q=2 & x+=1",
        "error 1: F02 Syntax in formula at 14\nTRUE\n",
    ),
    (
        "(x=1 | y=2 & z=3) & p=1 & q=2",
        "error 1: F03 MixedChain at 11\nTRUE\n",
    ),
    (
        "p=1 & (x=1 | y=2 & z=3) & q=2",
        "error 1: F03 MixedChain at 17\nTRUE\n",
    ),
    (
        "p=1 & q=2 & (x=1 | y=2 & z=3)",
        "error 1: F03 MixedChain at 23\nTRUE\n",
    ),
    (
        "18446744073709551616=x & p=1 & q=2",
        "error 1: F04 Number in formula at 0\nTRUE\n",
    ),
    (
        "p=1 & 18446744073709551616=x & q=2",
        "error 1: F04 Number in formula at 6\nTRUE\n",
    ),
    (
        "p=1 & q=2 & 18446744073709551616=x",
        "error 1: F04 Number in formula at 12\nTRUE\n",
    ),
    ("x*y=2 & p=1 & q=2", "error 1: F05 NotLinear at 1\nTRUE\n"),
    ("p=1 & x*y=2 & q=2", "error 1: F05 NotLinear at 7\nTRUE\n"),
    ("p=1 & q=2 & x*y=2", "error 1: F05 NotLinear at 13\nTRUE\n"),
    (
        "$f(x) & p=1 & q=2",
        "error 1: F11 Unknown Automata Library/f\nTRUE\n",
    ),
    (
        "p=1 & $f(x) & q=2",
        "error 1: F11 Unknown Automata Library/f\nTRUE\n",
    ),
    (
        "p=1 & q=2 & $f(x)",
        "error 1: F11 Unknown Automata Library/f\nTRUE\n",
    ),
    (
        "T[x]=@1 & p=1 & q=2",
        "error 1: F11 Unknown Word Automata Library/T\nTRUE\n",
    ),
    (
        "p=1 & T[x]=@1 & q=2",
        "error 1: F11 Unknown Word Automata Library/T\nTRUE\n",
    ),
    (
        "p=1 & q=2 & T[x]=@1",
        "error 1: F11 Unknown Word Automata Library/T\nTRUE\n",
    ),
    (
        "(?msd_41 x=1) & p=1 & q=2",
        "error 1: F14 SystemUnknown msd_41\nTRUE\n",
    ),
    (
        "p=1 & (?msd_41 x=1) & q=2",
        "error 1: F14 SystemUnknown msd_41\nTRUE\n",
    ),
    (
        "p=1 & q=2 & (?msd_41 x=1)",
        "error 1: F14 SystemUnknown msd_41\nTRUE\n",
    ),
    (
        "(?msd_3 w=1) & w=2 & p=1",
        "error 1: F16 Clash w msd_3 msd_2\nTRUE\n",
    ),
    (
        "p=1 & (?msd_3 w=1) & w=2",
        "error 1: F16 Clash w msd_3 msd_2\nTRUE\n",
    ),
    (
        "p=1 & w=2 & (?msd_3 w=1)",
        "error 1: F16 Clash w msd_2 msd_3\nTRUE\n",
    ),
    (
        "(?lsd_2 v=1) & p=1 & q=2",
        "error 1: F17 Direction lsd_2 msd_2\nTRUE\n",
    ),
    (
        "p=1 & (?lsd_2 v=1) & q=2",
        "error 1: F17 Direction msd_2 lsd_2\nTRUE\n",
    ),
    (
        "p=1 & q=2 & (?lsd_2 v=1)",
        "error 1: F17 Direction msd_2 lsd_2\nTRUE\n",
    ),
    (
        "?msd_10 a<b & b<c & c<d & d<e & p=1",
        "error 1: F18 Letters step 4\nTRUE\n",
    ),
];

/// Runs the command of this word and a formula, between two that are accepted.
fn run_between(rt: &impl Abort, alloc: Global, word: &str, formula: &str) -> Ran {
    let script = given(
        rt,
        format!(in alloc; "def a \"x=0\"; {word} b \"{formula}\"; eval c \"1=1\";"),
    );
    run_script(rt, alloc, script.as_bytes())
}

/// A formula was refused by its fault, and the commands before and after it were answered as without it.
fn expect_refused_alone(rt: &impl Abort, formula: &str, ran: Ran, printed: &str) {
    expect(rt, formula, &count_in(&ran), &2);
    expect_prints(rt, formula, ran, printed);
}

#[test]
fn faults_have_their_place(rt: HostRuntime) {
    for row in PLACES.split_terminator(ROW_END) {
        let (formula, printed) = first_field(row);
        let decided = run_between(&rt, rt.alloc(), "eval", formula);
        expect_refused_alone(&rt, formula, decided, printed);
        let defined = run_between(&rt, rt.alloc(), "def", formula);
        expect_refused_alone(&rt, formula, defined, printed);
    }
}
