//! Rules of morphisms: how they are printed, and their first faults.

use crate::answers::{Asked, expect_answers};
use crate::given::given;
use crate::long_texts::string_of;
use crate::text_rows::table;
use morph_words::Morphism;
use std::alloc::Global;
use std::process::Abort;

/// The rules of a text as they are printed.
pub(crate) fn rules_of(rt: &impl Abort, alloc: Global, text: &str) -> String {
    let morphism = given(rt, Morphism::parse(alloc, text.as_bytes()));
    string_of(rt, alloc, &given(rt, morphism.print(alloc)))
}

// Texts, and their rules as they are printed.
const PRINTED: &str = table![
    ("0->01 1->10", "0->01 1->10\n"),
    ("0->01,1->10", "0->01 1->10\n"),
    ("0->01 , , 1->10", "0->01 1->10\n"),
    ("0->01 \t,\r\n1->10", "0->01 1->10\n"),
    ("  0->01 1->10\t\n", "0->01 1->10\n"),
    ("0 -> 01 1 ->10", "0->01 1->10\n"),
    ("0 \t->\n 01  1-> 10", "0->01 1->10\n"),
    ("1->10 0->01", "0->01 1->10\n"),
    ("2->2,0->0,1->1", "0->0 1->1 2->2\n"),
    ("5->56", "5->56\n"),
    ("0->0123456789", "0->0123456789\n"),
    ("[12]->[-1]3", "[12]->[-1]3\n"),
    ("[-1]->[-1] [10]->[9]", "[-1]->[-1] [10]->9\n"),
    ("9->9 [10]->[10] [-5]->9", "[-5]->9 9->9 [10]->[10]\n"),
    (
        "[-10]->0 [-9]->0 [100]->0 [11]->0",
        "[-10]->0 [-9]->0 [11]->0 [100]->0\n",
    ),
    ("[007]->[5]", "7->5\n"),
    ("[-0]->[-00]", "0->0\n"),
    (
        "[2147483647]->[-2147483648]",
        "[2147483647]->[-2147483648]\n",
    ),
    (
        "[-2147483648]->1 [2147483647]->2",
        "[-2147483648]->1 [2147483647]->2\n",
    ),
];

#[test]
fn rules_are_printed(rt: HostRuntime) {
    expect_answers(&rt, rt.alloc(), Asked::Rules, PRINTED);
}

// Texts, and the fault of each.
const FAULTS: &str = table![
    ("", "Syntax(0)"),
    ("   ", "Syntax(3)"),
    (",", "Syntax(0)"),
    ("0", "Syntax(1)"),
    ("0 ", "Syntax(2)"),
    ("0-", "Syntax(1)"),
    ("0->", "Syntax(3)"),
    ("0-> ", "Syntax(4)"),
    ("0->,1->0", "Syntax(3)"),
    ("0-> 1->0", "Syntax(5)"),
    ("0->1 1->", "Syntax(8)"),
    ("->0", "Syntax(0)"),
    (",0->1", "Syntax(0)"),
    (" ,0->1", "Syntax(1)"),
    ("0->1,", "Syntax(5)"),
    ("0->1 , ", "Syntax(7)"),
    ("0->1 0->2", "Syntax(5)"),
    ("0->1 [0]->2", "Syntax(5)"),
    ("0->1 [-0]->2", "Syntax(5)"),
    ("[12]->1 2->1 [012]->2", "Syntax(13)"),
    ("0->1 0-x", "Syntax(5)"),
    ("0->1 0->[99999999999]", "Syntax(5)"),
    ("0->01 1->10 [1]->0", "Syntax(12)"),
    ("0->1 1->0 0", "Syntax(10)"),
    ("0->1 1", "Syntax(6)"),
    ("0->1 - 1->0", "Syntax(5)"),
    ("01->1", "Syntax(1)"),
    ("0 1->1", "Syntax(2)"),
    ("0,->1", "Syntax(1)"),
    ("0--> 1", "Syntax(1)"),
    ("0- >1", "Syntax(1)"),
    ("0->1->2", "Syntax(4)"),
    ("a->0", "Syntax(0)"),
    ("0->a", "Syntax(3)"),
    ("0->1;1->0", "Syntax(4)"),
    ("[2147483648]->0", "Number(1)"),
    ("[-2147483649]->0", "Number(1)"),
    ("0->[99999999999999999999]", "Number(4)"),
    ("0->1[4294967296", "Number(5)"),
    ("[2147483648 ]->0", "Number(1)"),
    ("0->1 [18446744073709551616]->0", "Number(6)"),
    ("0[2147483648]->0", "Syntax(1)"),
    ("[ 1]->0", "Syntax(1)"),
    ("[1 ]->0", "Syntax(2)"),
    ("[- 1]->0", "Syntax(1)"),
    ("[-]->0", "Syntax(1)"),
    ("[+1]->0", "Syntax(1)"),
    ("[]->0", "Syntax(1)"),
    ("[", "Syntax(1)"),
    ("[12", "Syntax(3)"),
    ("[1,2]->0", "Syntax(2)"),
    ("[1]]->0", "Syntax(3)"),
    ("0->1[", "Syntax(5)"),
    ("0->1[-", "Syntax(5)"),
    ("0->1 [x]->1", "Syntax(6)"),
    ("0[x]->1", "Syntax(1)"),
];

#[test]
fn rules_have_these_faults(rt: HostRuntime) {
    expect_answers(&rt, rt.alloc(), Asked::RulesFault, FAULTS);
}
