//! Formulas and their resolution: the free variables with their systems, `-` where there is none, or the fault with what it
//! keeps; and the files and systems that formulas mention.

use crate::answers::{Asked, Repeated, expect_answers, expect_long, expect_repeated};
use crate::given::given;
use crate::long_texts::repeated;
use crate::text_rows::table;
use crate::written::Written;
use formula_parse::tree::Formula;
use formula_resolve::{
    File, Headers, ResolveFault, Variable, first_files, first_systems, mentions, resolve,
};
use std::alloc::{AllocError, Global};
use std::process::Abort;

// Texts, and the resolution of each.
const RESOLUTIONS: &str = table![
    // Free variables.
    ("x=1", "x msd_2"),
    ("0=0", "-"),
    ("y=x", "x msd_2, y msd_2"),
    ("x+y=z & 3*x=w", "w msd_2, x msd_2, y msd_2, z msd_2"),
    ("Ex x=y", "y msd_2"),
    ("Ex,x x=1", "-"),
    ("x=1 & Ax x=2", "x msd_2"),
    // One system under each binding.
    ("x=1 & (?msd_3 x=1)", "Clash x msd_2 msd_3"),
    ("(?msd_3 x=1) & x=1", "Clash x msd_3 msd_2"),
    ("x=1 & Ex (?msd_3 x=1)", "x msd_2"),
    ("(Ex x=1) & Ex (?msd_3 x=1)", "-"),
    ("Ex (x=1 & (?msd_3 x=1))", "Clash x msd_2 msd_3"),
    ("Ex (x=1 & Ex (?msd_3 x=1))", "-"),
    (
        "Ex (x=1 & (Ex (?msd_3 x=1)) & (?msd_3 x=2))",
        "Clash x msd_2 msd_3",
    ),
    ("Ey (x=1 & (?msd_3 y=1 & x=2))", "Clash x msd_2 msd_3"),
    ("?msd_2 x=1 & (?lsd_2 x=1)", "Clash x msd_2 lsd_2"),
    // One direction in each chain.
    ("?msd_2 x=1 & (?lsd_2 y=1)", "Direction msd_2 lsd_2"),
    ("?lsd_2 x=1 & (?msd_2 y=1)", "Direction lsd_2 msd_2"),
    ("x=1 & y=1 & (?lsd_3 z=1)", "Direction msd_2 lsd_3"),
    ("x=1 => (?lsd_2 y=1)", "Direction msd_2 lsd_2"),
    ("x=1 <=> (?lsd_2 y=1)", "Direction msd_2 lsd_2"),
    ("~(x=1 | (?lsd_2 y=1))", "Direction msd_2 lsd_2"),
    ("Ex (x=1 & (?lsd_2 y=1))", "Direction msd_2 lsd_2"),
    ("x=1 & (?lsd_2 1=1)", "x msd_2"),
    ("x=1 & (?lsd_2 Ey y=1)", "x msd_2"),
    ("(?lsd_2 1=1) & x=1 & (?lsd_2 Ey y=1)", "x msd_2"),
    ("x=1 & Ey (?lsd_2 y=1 & z=1)", "Direction msd_2 lsd_2"),
    ("?lsd_2 x=1 & y=1", "x lsd_2, y lsd_2"),
    ("x=1 & (?msd_3 y=1)", "x msd_2, y msd_3"),
    ("x=1 & (?lsd_2 y=1) & (?msd_3 x=2)", "Clash x msd_2 msd_3"),
    (
        "x=1 & ((?lsd_2 y=1) & (?msd_3 z=1))",
        "Direction lsd_2 msd_3",
    ),
    (
        "((?lsd_2 a=1) & b=1) & ((?msd_3 c=1) & (?lsd_3 d=1))",
        "Direction lsd_2 msd_2",
    ),
    (
        "(b=1 & (?msd_3 a=1)) & (?lsd_2 c=1)",
        "Direction msd_3 lsd_2",
    ),
    (
        "a=1 & ((?lsd_2 c=1) & (?lsd_3 b=1))",
        "Direction msd_2 lsd_3",
    ),
    ("0=0 & ~?lsd_77 1=1", "-"),
    ("?msd_3 ?lsd_2 x=1", "x lsd_2"),
    // Calls.
    ("$f(x,y)", "x msd_2, y msd_2"),
    ("$f(y,x+1)", "x msd_2, y msd_2"),
    ("$f(x,x)", "x msd_2"),
    ("$f(1,2)", "-"),
    ("$f(x)", "Arity f 2 1"),
    ("$f()", "Arity f 2 0"),
    ("$f(1,2,3)", "Arity f 2 3"),
    ("$s()", "-"),
    ("$s(x)", "Arity s 0 1"),
    ("$ab(1,2)", "Plain ab"),
    ("$ab(1)", "Plain ab"),
    ("$ab()", "Plain ab"),
    ("$f(1) & $ab(1)", "Arity f 2 1"),
    ("$ab(1) & $f(1)", "Plain ab"),
    ("x=1 & (?msd_3 x=1) & $f(1)", "Arity f 2 1"),
    ("x=1 & (?lsd_2 y=1) & $ab(1)", "Plain ab"),
    ("?lsd_2 $g(x) & x=1", "x lsd_2"),
    ("$g(x) & x=1", "Clash x lsd_2 msd_2"),
    ("$q(x) & (?msd_3 x=1)", "x msd_3"),
    ("x=1 & $q(x)", "Clash x msd_2 msd_3"),
    ("$f(x,y) & (?lsd_2 z=1)", "Direction msd_2 lsd_2"),
    // Words.
    ("T[x]=@1", "x msd_2"),
    ("@1<T[x+y]", "x msd_2, y msd_2"),
    ("T[x][y]=@1", "Arity T 1 2"),
    ("@1=U[x]", "Arity U 2 1"),
    ("U[x][y]=T[z]", "x msd_2, y msd_2, z msd_2"),
    ("T[x]=L[y]", "Direction msd_2 lsd_2"),
    ("L[x]=T[y]", "Direction lsd_2 msd_2"),
    ("T[0]=L[0]", "Direction msd_2 lsd_2"),
    ("T[x]=L[x]", "Clash x msd_2 lsd_2"),
    ("T[x]=W[x]", "Clash x msd_2 msd_3"),
    ("T[x]=W[y]", "x msd_2, y msd_3"),
    ("T[x][1]=L[y]", "Arity T 1 2"),
    (
        "(T[0]=L[0]) & (?msd_3 x=1) & (?lsd_3 y=1)",
        "Direction msd_2 lsd_2",
    ),
    ("T[T]=@0 & T=3", "T msd_2"),
    ("Ex T[x]=L[0]", "Direction msd_2 lsd_2"),
];

// Texts with names and systems, and the files that they mention.
const FILES: &str = table![
    (
        "$g(1) & T[0]=@0 & (?msd_3 $f(1,2)) & $g(0) & ~?lsd_77 1=1",
        "$g T $f"
    ),
    (
        "$T(0) & T[0]=@0 & ?msd_41 $f(1,2) & U[0][0]=W[1]",
        "$T T $f U W"
    ),
];

// The same texts, and the systems that they mention.
const SYSTEMS: &str = table![
    (
        "$g(1) & T[0]=@0 & (?msd_3 $f(1,2)) & $g(0) & ~?lsd_77 1=1",
        "lsd_2 msd_2 msd_3 lsd_77"
    ),
    (
        "$T(0) & T[0]=@0 & ?msd_41 $f(1,2) & U[0][0]=W[1]",
        "msd_2 msd_41 msd_3"
    ),
];

// Variables with their systems, or `-`.
fn written(rt: &impl Abort, alloc: Global, variables: &[Variable]) -> String {
    let mut out = Written::new(alloc);
    for variable in variables {
        out.put_next(", ", variable.name.as_str());
        out.put(" ");
        out.put(variable.system.as_str());
    }
    if variables.is_empty() {
        out.put("-");
    }
    out.whole(rt)
}

// A fault with what it keeps.
fn line_of(alloc: Global, fault: &ResolveFault) -> Result<String, AllocError> {
    match fault {
        ResolveFault::Plain(name) => {
            let name = name.as_str();
            format!(in alloc; "Plain {name}")
        }
        ResolveFault::Arity(name, tracks, given) => {
            let name = name.as_str();
            format!(in alloc; "Arity {name} {tracks} {given}")
        }
        ResolveFault::Clash(name, first, other) => {
            let name = name.as_str();
            let first = first.as_str();
            let other = other.as_str();
            format!(in alloc; "Clash {name} {first} {other}")
        }
        ResolveFault::Direction(first, other) => {
            let first = first.as_str();
            let other = other.as_str();
            format!(in alloc; "Direction {first} {other}")
        }
        ResolveFault::Memory => String::from_str(alloc, "Memory"),
    }
}

// The resolution of a formula, or its fault.
pub(crate) fn resolution_of(
    rt: &impl Abort,
    alloc: Global,
    formula: &Formula,
    headers: &Headers,
) -> String {
    match resolve(alloc, formula, headers) {
        Ok(resolved) => written(rt, alloc, &resolved.variables),
        Err(fault) => given(rt, line_of(alloc, &fault)),
    }
}

#[test]
fn texts_have_this_resolution(rt: HostRuntime) {
    expect_answers(&rt, rt.alloc(), Asked::Resolution, RESOLUTIONS);
}

// A chain, with its resolution.
static LONG: [Repeated; 1] = [("x=1&", 16383, "x=12", "", "65536 bytes: x msd_2")];

#[test]
fn a_chain_of_65536_bytes_is_resolved(rt: HostRuntime) {
    expect_repeated(&rt, rt.alloc(), Asked::Resolution, &LONG);
}

// Parentheses 128 deep, which a chain follows.
#[test]
fn a_nested_text_of_65536_bytes_is_resolved(rt: HostRuntime) {
    let alloc = rt.alloc();
    let mut text = repeated(&rt, alloc, ("(", 128, "x=1", "&x=1)"));
    let chain = repeated(&rt, alloc, ("&x=1", 16190, "&x=12", ""));
    given(&rt, text.push_str(&chain));
    expect_long(&rt, alloc, Asked::Resolution, &text, "65536 bytes: x msd_2");
}

// The files that a formula mentions, each once, an automaton with `$` before its name.
pub(crate) fn files_in(rt: &impl Abort, alloc: Global, formula: &Formula) -> String {
    let mentioned = given(rt, mentions(alloc, formula));
    let files = given(rt, first_files(alloc, &mentioned));
    let mut out = Written::new(alloc);
    for file in &files {
        match file {
            File::Automaton(name) => {
                out.put_next(" ", "$");
                out.put(name.as_str());
            }
            File::Word(name) => out.put_next(" ", name.as_str()),
        }
    }
    out.whole(rt)
}

// The systems that a formula mentions, each once.
pub(crate) fn systems_in(
    rt: &impl Abort,
    alloc: Global,
    formula: &Formula,
    headers: &Headers,
) -> String {
    let mentioned = given(rt, mentions(alloc, formula));
    let systems = given(rt, first_systems(alloc, &mentioned, headers));
    let mut out = Written::new(alloc);
    for system in &systems {
        out.put_next(" ", system.as_str());
    }
    out.whole(rt)
}

#[test]
fn texts_mention_these_files(rt: HostRuntime) {
    expect_answers(&rt, rt.alloc(), Asked::Files, FILES);
}

#[test]
fn texts_mention_these_systems(rt: HostRuntime) {
    expect_answers(&rt, rt.alloc(), Asked::Systems, SYSTEMS);
}
