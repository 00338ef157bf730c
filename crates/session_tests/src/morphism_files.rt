//! Files of rules that somebody wrote.

use crate::answers::given;
use crate::given::{expect_end, run_with};
use crate::tables::{ROW_END, first_field, table};
use crate::whole::{Ran, SURE, expect_prints, run_over};
use std::alloc::Global;
use std::process::Abort;
use wal_outside::{Folder, MemStore, TEXT_LIMIT};

/// Files of rules, what is printed where the fixed point is asked for, the status, and how many texts the store has then.
const READ: &str = table![
    ("0->01 1->10", "", 0, 2),
    ("0->01 1->10\n", "", 0, 2),
    ("0->01\n1->10\n", "", 0, 2),
    ("\n\n0->01\r\n\r\n1->10\r\n", "", 0, 2),
    ("0\n->\n01\n,\n1->10", "", 0, 2),
    ("1->10 , 0->01", "", 0, 2),
    ("", "error 1: F12 File Morphism Library/x line 1\n", 1, 1),
    ("\n", "error 1: F12 File Morphism Library/x line 2\n", 1, 1),
    (
        "\n\n  ",
        "error 1: F12 File Morphism Library/x line 3\n",
        1,
        1,
    ),
    (
        "0->01\n1->10\n,",
        "error 1: F12 File Morphism Library/x line 3\n",
        1,
        1,
    ),
    (
        "0->01\n1->10,\n",
        "error 1: F12 File Morphism Library/x line 3\n",
        1,
        1,
    ),
    (
        "0->01\n1->10,\n\n",
        "error 1: F12 File Morphism Library/x line 4\n",
        1,
        1,
    ),
    (
        "0->01,\n\n1",
        "error 1: F12 File Morphism Library/x line 3\n",
        1,
        1,
    ),
    (
        "0->01\n1",
        "error 1: F12 File Morphism Library/x line 2\n",
        1,
        1,
    ),
    (
        "0->01\n1->\n",
        "error 1: F12 File Morphism Library/x line 3\n",
        1,
        1,
    ),
    (
        "0->01\n1\n->\n\n",
        "error 1: F12 File Morphism Library/x line 5\n",
        1,
        1,
    ),
    (
        "0->01\n\n1->1a",
        "error 1: F12 File Morphism Library/x line 3\n",
        1,
        1,
    ),
    (
        "# comment\n0->01 1->10",
        "error 1: F12 File Morphism Library/x line 1\n",
        1,
        1,
    ),
    (
        "0->01 # x\n1->10",
        "error 1: F12 File Morphism Library/x line 1\n",
        1,
        1,
    ),
    (
        "0->01\n1->10\n0->01",
        "error 1: F12 File Morphism Library/x line 3\n",
        1,
        1,
    ),
    (
        "0->01\n1->10\n[0]->0a",
        "error 1: F12 File Morphism Library/x line 3\n",
        1,
        1,
    ),
    (
        "0->01\n1->[1\n]0",
        "error 1: F12 File Morphism Library/x line 2\n",
        1,
        1,
    ),
    (
        "0->01\n1->[1",
        "error 1: F12 File Morphism Library/x line 2\n",
        1,
        1,
    ),
    (
        "0->01\n1->[2147483648]0",
        "error 1: F12 File Morphism Library/x line 2\n",
        1,
        1,
    ),
    (
        "0->01\n[-2147483649]->10",
        "error 1: F12 File Morphism Library/x line 2\n",
        1,
        1,
    ),
    (
        "0->01\n1 ->10 2\n\n->",
        "error 1: F12 File Morphism Library/x line 4\n",
        1,
        1,
    ),
    (
        "0->01\r1->10\r\n2->",
        "error 1: F12 File Morphism Library/x line 2\n",
        1,
        1,
    ),
    (
        "\n,0->01",
        "error 1: F12 File Morphism Library/x line 2\n",
        1,
        1,
    ),
    (
        "0->01;\n1->10",
        "error 1: F12 File Morphism Library/x line 1\n",
        1,
        1,
    ),
    (
        "0->0\n1 1->10",
        "error 1: F12 File Morphism Library/x line 2\n",
        1,
        1,
    ),
    (
        "morphism h\n0->01",
        "error 1: F12 File Morphism Library/x line 1\n",
        1,
        1,
    ),
    ("0->0\n1->10", "error 1: F22 Morphism NotUniform 1\n", 1, 1),
    (
        "0->01\n\n1->1\n0",
        "error 1: F12 File Morphism Library/x line 4\n",
        1,
        1,
    ),
    (
        "0->01\n1->10\n2->2é",
        "error 1: F12 File Morphism Library/x line 3\n",
        1,
        1,
    ),
];

/// Asks for the fixed point of a file of rules.
fn promote_file(rt: &impl Abort, alloc: Global, text: &'static str) -> Ran {
    run_with(rt, alloc, (Folder::Morphisms, "x", text), "promote P x;")
}

#[test]
fn faults_of_files_of_rules_are_reported_by_line(rt: HostRuntime) {
    for row in READ.split_terminator(ROW_END) {
        let (text, rest) = first_field(row);
        let (printed, end) = first_field(rest);
        let ran = promote_file(&rt, rt.alloc(), text);
        expect_end(&rt, text, ran, printed, end);
    }
}

/// Asks for the fixed point of a file of so many line ends.
fn promote_long(rt: &impl Abort, alloc: Global, length: usize) -> Ran {
    let text = given(rt, vec![in alloc; b'\n'; length]);
    let mut store = MemStore::new(alloc, Vec::new(alloc));
    given(rt, store.put(Folder::Morphisms, "x", &text));
    run_over(rt, alloc, "walnut", (b"promote P x;", &SURE), store)
}

#[test]
fn files_of_rules_have_at_most_16777216_bytes(rt: HostRuntime) {
    let long = promote_long(&rt, rt.alloc(), TEXT_LIMIT + 1);
    let printed = "error 1: F12 File Morphism Library/x too long\n";
    expect_prints(&rt, "too long", long, printed);
}
