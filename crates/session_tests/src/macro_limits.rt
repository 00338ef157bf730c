//! Macros at their limits, in long texts, and over stores that fail.

use crate::answers::given;
use crate::given::{FailingRow, expect_failing, run_given};
use crate::macro_rows::macros;
use crate::tables::{ROW_END, first_field, table};
use crate::whole::{Ran, SURE, expect_prints, run_over};
use std::alloc::Global;
use std::process::Abort;
use wal_outside::{Folder, MemStore, TEXT_LIMIT};

/// What calls within one another open with, how many they are, what is inside, and what is printed.
static NESTED: [(&str, usize, &str, &str); 16] = [
    ("#one(", 16, "1=1", "TRUE\n"),
    ("#one(", 17, "1=1", "error 1: F09 MacroDepth one\n"),
    ("#tri(", 17, "1=1", "error 1: F09 MacroDepth tri\n"),
    (
        "#tri(",
        16,
        "1=1",
        "error 1: F11 Unknown Macro Library/tri\n",
    ),
    ("#dbl(", 17, "1", "error 1: F09 MacroDepth dbl\n"),
    ("#dbl(", 16, "1", "error 1: F08 MacroArgs dbl 1 1\n"),
    ("#two(", 5, "1=1", "TRUE\n"),
    ("#two(", 14, "1=1", "error 1: F10 MacroLong 65536\n"),
    ("#e(", 16, "1=1", "error 1: F02 Syntax in formula at 0\n"),
    (
        "#e(",
        14,
        "#tri()",
        "error 1: F11 Unknown Macro Library/tri\n",
    ),
    ("#yes(", 16, "#", "error 1: F02 Syntax in macro at 0\n"),
    (
        "#one(",
        15,
        "#one(1=1) & #one(#one(1=1))",
        "error 1: F09 MacroDepth one\n",
    ),
    ("#one(", 15, "#one(1=1) & #one(2=2)", "TRUE\n"),
    ("#two(", 13, "x", "error 1: F02 Syntax in formula at 2\n"),
    ("#deep(", 16, "1=1", "TRUE\n"),
    (
        "#deep(",
        16,
        "(1=1)",
        "error 1: F06 Depth in formula at 128\n",
    ),
];

/// How many blanks a macro has, a formula that calls it, and what is printed.
static LONG: [(usize, &str, &str); 12] = [
    (65533, "#m()1=1", "TRUE\n"),
    (65534, "#m()1=1", "error 1: F10 MacroLong 65536\n"),
    (65536, "#m()", "error 1: F02 Syntax in formula at 65536\n"),
    (65537, "#m()", "error 1: F10 MacroLong 65536\n"),
    (65537, "#tri(#m())", "error 1: F10 MacroLong 65536\n"),
    (
        65537,
        "#m(#tri())",
        "error 1: F11 Unknown Macro Library/tri\n",
    ),
    (
        32768,
        "#m()#m()",
        "error 1: F02 Syntax in formula at 65536\n",
    ),
    (32768, "#m()#m()x", "error 1: F10 MacroLong 65536\n"),
    (32768, "#m()#m()#", "error 1: F02 Syntax in macro at 8\n"),
    (0, "#m()1=1", "TRUE\n"),
    (TEXT_LIMIT, "#m()", "error 1: F10 MacroLong 65536\n"),
    (
        TEXT_LIMIT + 1,
        "1=1 #m() #",
        "error 1: F12 File Macro Library/m too long\n",
    ),
];

/// Formulas with four calls of a macro that is 16,383 calls, which makes 65,536.
const CALLS: &str = table![
    ("#m()#m()#m()#m()1=1", "TRUE\n"),
    ("#m()#m()#m()#m()1=1#e()", "error 1: F10 MacroLong 65536\n"),
    ("#m()#m()#m()#m()#tri()", "error 1: F10 MacroLong 65536\n"),
    ("#m()#m()#m()#m()#", "error 1: F02 Syntax in macro at 16\n"),
    ("#m()#m()#m()#m()x", "error 1: F02 Syntax in formula at 1\n"),
];

/// A macro, a formula that calls it twice, and one that calls what this defines.
const THREE: &str = "macro m \"x=1\"; def a \"#m() & #m()\"; eval t \"$a(1) & ~$a(2)\";";

/// Which call of the store fails, what is printed of these, the status, and how many texts the store has then. The macro is
/// read once by its command.
static FAILING: [FailingRow; 7] = [
    (
        1,
        "error 1: F26 Store Macro Library/m\nerror 1: F11 Unknown Macro Library/m\nerror 1: F11 Unknown Automata Library/a\n",
        3,
        0,
    ),
    (
        2,
        "error 1: F26 Store Macro Library/m\nerror 1: F11 Unknown Automata Library/a\n",
        3,
        1,
    ),
    (
        3,
        "error 1: F26 Store Automata Library/a\nerror 1: F11 Unknown Automata Library/a\n",
        3,
        1,
    ),
    (4, "error 1: F26 Store Automata Library/a\n", 3, 2),
    (5, "error 1: F26 Store Result/t\n", 3, 2),
    (6, "TRUE\n", 0, 3),
    (7, "TRUE\n", 0, 3),
];

/// Runs the command that decides a formula of so many calls within one another.
fn run_nested(rt: &impl Abort, alloc: Global, opened: &str, count: usize, inside: &str) -> Ran {
    let calls = given(rt, opened.repeat(alloc, count));
    let closed = given(rt, ")".repeat(alloc, count));
    let script = given(rt, format!(in alloc; "eval a \"{calls}{inside}{closed}\";"));
    run_given(rt, alloc, macros(), "walnut", &script)
}

#[test]
fn calls_nest_16_deep(rt: HostRuntime) {
    for (opened, count, inside, printed) in &NESTED {
        let ran = run_nested(&rt, rt.alloc(), opened, *count, inside);
        expect_prints(&rt, inside, ran, printed);
    }
}

/// A store with two macros, an empty one and one with this text.
fn store_with(rt: &impl Abort, alloc: Global, text: &[u8]) -> MemStore {
    let mut store = MemStore::new(alloc, Vec::new(alloc));
    given(rt, store.put(Folder::Macros, "e", b""));
    given(rt, store.put(Folder::Macros, "m", text));
    store
}

/// Runs the command that decides a formula, over such a store.
fn run_with(rt: &impl Abort, alloc: Global, text: &[u8], formula: &str) -> Ran {
    let store = store_with(rt, alloc, text);
    let script = given(rt, format!(in alloc; "eval a \"{formula}\";"));
    run_over(rt, alloc, "walnut", (script.as_bytes(), &SURE), store)
}

/// Runs it where the macro is so many blanks.
fn run_with_blanks(rt: &impl Abort, alloc: Global, length: usize, formula: &str) -> Ran {
    let text = given(rt, vec![in alloc; b' '; length]);
    run_with(rt, alloc, &text, formula)
}

#[test]
fn expanded_texts_have_at_most_65536_bytes(rt: HostRuntime) {
    for (length, formula, printed) in &LONG {
        let ran = run_with_blanks(&rt, rt.alloc(), *length, formula);
        expect_prints(&rt, formula, ran, printed);
    }
}

/// Runs it where the macro is 16,383 calls.
fn run_with_calls(rt: &impl Abort, alloc: Global, formula: &str) -> Ran {
    let text = given(rt, "#e()".repeat(alloc, 16383));
    run_with(rt, alloc, text.as_bytes(), formula)
}

#[test]
fn a_command_has_at_most_65536_calls(rt: HostRuntime) {
    for row in CALLS.split_terminator(ROW_END) {
        let (formula, printed) = first_field(row);
        let ran = run_with_calls(&rt, rt.alloc(), formula);
        expect_prints(&rt, formula, ran, printed);
    }
}

#[test]
fn a_store_that_fails_at_macros(rt: HostRuntime) {
    expect_failing(&rt, rt.alloc(), "", ("walnut", THREE), &FAILING);
}
