//! Formulas, and the steps by which they are decided. A step is written by its kind; `const` with its number and track, `project`
//! with its track. A fresh track is written by its number after `#`.

use crate::answers::{Asked, Repeated, expect_answers, expect_repeated};
use crate::given::given;
use crate::text_rows::table;
use crate::written::Written;
use formula_parse::tree::Formula;
use formula_plan::plan;
use formula_resolve::Headers;
use std::alloc::Global;
use std::process::Abort;
use term_plans::{Making, Track};

// Terms and comparisons.
const TERMS: &str = table![
    ("x=x", ""),
    ("x!=y", ""),
    ("x-1=y", "const 1 #0, product, project #0"),
    ("x=x+1", "const 1 #0, product, project #0"),
    ("18446744073709551615=x", "const 18446744073709551615 #0"),
    ("x=1000000", "const 1000000 #0"),
    ("3*x=y", "product, project #1"),
    (
        "0*x=0",
        "const 0 #0, product, const 0 #1, product, project #0, product, project #1",
    ),
    (
        "2*3=x",
        "const 2 #0, product, project #2, product, project #0",
    ),
    ("x=2*y", ""),
    ("x=2*y*2", "product, project #0"),
    ("2*y*3=x", "product, project #2, product, project #0"),
    (
        "7*x<y",
        "product, project #3, product, project #2, product, project #1, product, project #0",
    ),
    (
        "1=1",
        "const 1 #0, const 1 #1, product, project #0, product, project #1",
    ),
    (
        "x-x=0",
        "const 0 #1, product, project #0, product, project #1",
    ),
    (
        "x+x=0",
        "const 0 #1, product, project #0, product, project #1",
    ),
    (
        "?msd_10 a+b=c+d",
        "product, project #0, product, project #1",
    ),
    (
        "?msd_40 a+b=3",
        "const 3 #1, product, project #0, product, project #1",
    ),
    ("x!=1", "const 1 #0, product, project #0"),
    ("1<x", "const 1 #0, product, project #0"),
    ("x+y-z=u", "product, project #0"),
    ("x/1=y", ""),
    (
        "x/2=y",
        "product, project #1, const 2 #3, product, project #3, product, project #2",
    ),
    (
        "6/2=x",
        "const 6 #0, product, project #2, const 2 #4, product, project #4, product, project #3, product, project #0",
    ),
    (
        "2*x/3*4=y",
        "product, project #5, product, project #2, const 3 #4, product, project #4, product, project #3, product, project #0, product, project #7, product, project #1",
    ),
    (
        "0*(x-1)=0 & x=0",
        "const 1 #0, product, project #0, const 0 #2, product, product, project #1, const 0 #3, product, project #2, product, project #3, const 0 #4, product",
    ),
];

// Chains, negations and quantifiers.
const FORMULAS: &str = table![
    (
        "Ex x+x=0",
        "const 0 #1, product, project #0, product, project #1, project x",
    ),
    ("~x=y", "complement"),
    (
        "x=1 | y=2 | z=3",
        "const 1 #0, const 2 #1, const 3 #2, product, product",
    ),
    (
        "x=1 <=> y=1 <=> z=1",
        "const 1 #0, const 1 #1, const 1 #2, product, product",
    ),
    ("?msd_10 a=b & c=d & e=a", "product, product"),
    ("?msd_10 a<b & b<c & c<d & d<e", "product, product, product"),
    ("Ex,x x=y", "project x"),
    ("Ex,y x=y", "project y, project x"),
    ("Ey,x x=y", "project x, project y"),
    ("Ex,z,y x=y", "project y, project x"),
    ("Ax,y x=x", "complement, project x, complement"),
    ("Ax,y x=y", "complement, project y, project x, complement"),
    ("Ax y=1", "const 1 #0"),
    ("Ex y=1", "const 1 #0"),
    ("Ax Ey y>x", "project y, complement, project x, complement"),
    ("?lsd_2 Ex x=2", "const 2 #0, project x"),
    (
        "Ix x<y",
        "product, project x, complement, project #0, complement",
    ),
    ("Ix y=1", "const 1 #0"),
    (
        "~Ix Ey x=2*y",
        "project y, product, project x, complement, project #1, complement, complement",
    ),
    (
        "(Ex x=1) & (?lsd_3 Ex x=2)",
        "const 1 #0, project x, const 2 #1, project x, product",
    ),
    ("Ex (x=y & Ex x=z)", "project x, product, project x"),
    ("Ex x=y & Ex x=z", "project x, product, project x"),
    (
        "Ex,y x<y & y<x+2 & x!=y-1",
        "const 2 #0, product, project #0, product, project #1, const 1 #2, product, project #2, product, project #3, product, product, project y, project x",
    ),
];

// Calls and words.
const NAMES: &str = table![
    ("$f(x,y)", ""),
    (
        "$f(x,x+1)",
        "const 1 #0, product, project #0, product, project #1",
    ),
    (
        "$f(1,x,2)",
        "const 1 #0, const 2 #1, product, project #0, product, project #1",
    ),
    ("T[x]=@1", ""),
    ("@0<T[1]", "const 1 #0, product, project #0"),
    ("T[x]=U[y]", "product"),
    (
        "T[x]=U[y+1]",
        "const 1 #0, product, project #0, product, product, project #1",
    ),
    ("Ex $f(x) & T[x]!=@0", "product, project x"),
];

fn write_track(alloc: Global, track: &Track, out: &mut Written) {
    match track {
        Track::Own(name) => out.put(name.as_str()),
        Track::Fresh(number) => out.put_made("#", number.to_string(alloc)),
    }
}

// The step by which a relation is made, after those before it; nothing where there is none.
fn write_step(alloc: Global, making: &Making, out: &mut Written) {
    let Some(kind) = making.kind() else {
        return;
    };
    out.put_next(", ", kind.name());
    if let Making::Constant(_, number, _) = making {
        out.put_made(" ", number.to_string(alloc));
    }
    if let Making::Constant(_, _, track) | Making::Projected(track, _) = making {
        out.put(" ");
        write_track(alloc, track, out);
    }
}

// The steps of a formula over names without headers.
pub(crate) fn steps(rt: &impl Abort, alloc: Global, formula: &Formula) -> String {
    let planned = given(rt, plan(alloc, formula, &Headers::new(alloc)));
    let mut out = Written::new(alloc);
    for making in planned.plans.makings() {
        write_step(alloc, making, &mut out);
    }
    out.whole(rt)
}

#[test]
fn terms_have_these_steps(rt: HostRuntime) {
    expect_answers(&rt, rt.alloc(), Asked::Steps, TERMS);
}

#[test]
fn formulas_have_these_steps(rt: HostRuntime) {
    expect_answers(&rt, rt.alloc(), Asked::Steps, FORMULAS);
}

#[test]
fn calls_and_words_have_these_steps(rt: HostRuntime) {
    expect_answers(&rt, rt.alloc(), Asked::Steps, NAMES);
}

// How many relations are made for a formula, by steps or without.
pub(crate) fn relations(rt: &impl Abort, alloc: Global, formula: &Formula) -> String {
    let planned = given(rt, plan(alloc, formula, &Headers::new(alloc)));
    given(rt, planned.plans.makings().len().to_string(alloc))
}

// A chain and a sum of 65,536 bytes, and quantifiers 128 deep, each with how many relations are made for it.
static LONG: [Repeated; 3] = [
    ("x=1&", 16383, "x=12", "", "65536 bytes: 49151"),
    ("x+", 32766, "x=12", "", "65536 bytes: 98302"),
    ("Ax Ey ", 64, "x<y", "", "387 bytes: 5"),
];

#[test]
fn long_texts_and_quantifiers_128_deep_are_planned(rt: HostRuntime) {
    expect_repeated(&rt, rt.alloc(), Asked::Relations, &LONG);
}
