//! Formulas, and the numbers for which they are true, worked by arithmetic.

use crate::answers::{Asked, expect_answers};
use crate::given::given;
use crate::text_rows::table;
use crate::written::Written;
use digit_tuple::name::Name;
use formula_parse::tree::Formula;
use formula_truth::{Given, holds_below};
use std::alloc::Global;
use std::process::Abort;

// Texts, their free variables, and the numbers below 6 for these for which they are true, a digit for each variable: comparisons of terms.
const TERMS: &str = table![
    ("x=3", "x", "3"),
    ("x!=3", "x", "0 1 2 4 5"),
    ("x<3", "x", "0 1 2"),
    ("x>3", "x", "4 5"),
    ("x<=3", "x", "0 1 2 3"),
    ("3<=x", "x", "3 4 5"),
    (
        "x>=y",
        "xy",
        "00 10 11 20 21 22 30 31 32 33 40 41 42 43 44 50 51 52 53 54 55",
    ),
    ("x-1=y", "xy", "10 21 32 43 54"),
    (
        "x-1!=y",
        "xy",
        "11 12 13 14 15 20 22 23 24 25 30 31 33 34 35 40 41 42 44 45 50 51 52 53 55",
    ),
    (
        "~x-1=y",
        "xy",
        "00 01 02 03 04 05 11 12 13 14 15 20 22 23 24 25 30 31 33 34 35 40 41 42 44 45 50 51 52 53 55",
    ),
    (
        "x-y<=2",
        "xy",
        "00 10 11 20 21 22 31 32 33 42 43 44 53 54 55",
    ),
    ("0*(x-1)=0", "x", "1 2 3 4 5"),
    ("x-x=0", "x", "0 1 2 3 4 5"),
    ("5-x-y=1", "xy", "04 13 22 31 40"),
    ("5-(x-y)=4", "xy", "10 21 32 43 54"),
    ("x-2+3=y", "xy", "23 34 45"),
    ("2*x=y", "xy", "00 12 24"),
    ("2*x*2=y", "xy", "00 14"),
    ("2*3=x", "x", ""),
    ("x/2=y", "xy", "00 10 21 31 42 52"),
    ("x/1=y", "xy", "00 11 22 33 44 55"),
    ("x/2/2=y", "xy", "00 10 20 30 41 51"),
    ("2*x/3*4=y", "xy", "00 10 24"),
    ("6/4=x", "x", "1"),
    ("(x-1)/2=0", "x", "1 2"),
    ("3*x+1=2*y", "xy", "12 35"),
    ("x+y=5", "xy", "05 14 23 32 41 50"),
    (
        "x+y=y+x",
        "xy",
        "00 01 02 03 04 05 10 11 12 13 14 15 20 21 22 23 24 25 30 31 32 33 34 35 40 41 42 43 44 45 50 51 52 53 54 55",
    ),
];

// Chains and negations.
const CONNECTIVES: &str = table![
    ("x=1 & y=2", "xy", "12"),
    ("x=1 | y=2", "xy", "02 10 11 12 13 14 15 22 32 42 52"),
    ("x=1 ^ y=2", "xy", "02 10 11 13 14 15 22 32 42 52"),
    (
        "x=1 => y=2",
        "xy",
        "00 01 02 03 04 05 12 20 21 22 23 24 25 30 31 32 33 34 35 40 41 42 43 44 45 50 51 52 53 54 55",
    ),
    (
        "x=1 <=> y=2",
        "xy",
        "00 01 03 04 05 12 20 21 23 24 25 30 31 33 34 35 40 41 43 44 45 50 51 53 54 55",
    ),
    (
        "x=1 <=> y=1 <=> x=y",
        "xy",
        "00 01 10 11 12 13 14 15 21 22 31 33 41 44 51 55",
    ),
    (
        "x<2 => (y<2 => x=y)",
        "xy",
        "00 02 03 04 05 11 12 13 14 15 20 21 22 23 24 25 30 31 32 33 34 35 40 41 42 43 44 45 50 51 52 53 54 55",
    ),
    ("x=1 & y=2 | x=y", "xy", "00 11 12 22 33 44 55"),
    ("~x=1 & y=2", "xy", "02 22 32 42 52"),
    (
        "~(x=1 & y=2)",
        "xy",
        "00 01 02 03 04 05 10 11 13 14 15 20 21 22 23 24 25 30 31 32 33 34 35 40 41 42 43 44 45 50 51 52 53 54 55",
    ),
    (
        "x=0 ^ y=0 ^ x=y",
        "xy",
        "00 01 02 03 04 05 10 11 20 22 30 33 40 44 50 55",
    ),
    ("?msd_3 x=2 & (?lsd_2 y=1)", "xy", "21"),
    ("x=y & y=z", "xyz", "000 111 222 333 444 555"),
    ("x+y=z & z=4", "xyz", "044 134 224 314 404"),
];

// Quantifiers.
const QUANTIFIERS: &str = table![
    ("Ey y+y=x", "x", "0 2 4"),
    ("Ey x=2*y+1", "x", "1 3 5"),
    ("Ey,z x=2*y+3*z & y>0 & z>0", "x", "5"),
    ("Ay y<x => y<=2", "x", "0 1 2 3"),
    ("Ay Ez z+z=y | z+z=y+1", "x", "0 1 2 3 4 5"),
    ("Ey Az y<=x+z", "x", "0 1 2 3 4 5"),
    ("Ax x=y", "y", ""),
    ("Ex,x x=y", "y", "0 1 2 3 4 5"),
    ("Ex (x=y & Ex x=y+1)", "y", "0 1 2 3 4 5"),
    (
        "Ez x+z=y",
        "xy",
        "00 01 02 03 04 05 11 12 13 14 15 22 23 24 25 33 34 35 44 45 55",
    ),
    (
        "Ez x-z=y",
        "xy",
        "00 10 11 20 21 22 30 31 32 33 40 41 42 43 44 50 51 52 53 54 55",
    ),
    (
        "Az x<z | z<=y",
        "xy",
        "00 01 02 03 04 05 11 12 13 14 15 22 23 24 25 33 34 35 44 45 55",
    ),
    ("~Ey y+y=x", "x", "1 3 5"),
    ("Ey (y<x & Az (z<x => z<=y))", "x", "1 2 3 4 5"),
];

// Calls and words, which mean nothing here.
const NAMES: &str = table![
    ("$f(x)", "x", ""),
    (
        "~$f(x,y)",
        "xy",
        "00 01 02 03 04 05 10 11 12 13 14 15 20 21 22 23 24 25 30 31 32 33 34 35 40 41 42 43 44 45 50 51 52 53 54 55",
    ),
    ("T[x]=@0", "x", ""),
    ("T[x]!=U[y]", "xy", ""),
];

// Numbers below 6 for some variables, by their digits.
fn numbers_of(rt: &impl Abort, alloc: Global, variables: &str, mut digits: u64) -> Vec<Given> {
    let mut numbers = Vec::new(alloc);
    for variable in variables.chars().rev() {
        let name = given(rt, variable.to_string(alloc));
        let one = Given {
            name: given(rt, Name::new(alloc, &name)),
            number: digits % 6,
        };
        given(rt, numbers.push(one));
        digits /= 6;
    }
    numbers
}

// Adds the digits of numbers below 6, one for each variable.
fn show(alloc: Global, numbers: &[Given], out: &mut Written) {
    out.put_next(" ", "");
    for one in numbers.iter().rev() {
        out.put_made("", one.number.to_string(alloc));
    }
}

// The numbers below 6 for some variables for which a formula is true.
pub(crate) fn true_of(
    rt: &impl Abort,
    alloc: Global,
    formula: &Formula,
    variables: &str,
) -> String {
    let lists = match variables.len() {
        1 => 6,
        2 => 36,
        _ => 216,
    };
    let mut out = Written::new(alloc);
    for digits in 0..lists {
        let numbers = numbers_of(rt, alloc, variables, digits);
        if given(rt, holds_below(alloc, formula, &numbers, 40)) {
            show(alloc, &numbers, &mut out);
        }
    }
    out.whole(rt)
}

#[test]
fn comparisons_of_terms_are_true_of_these_numbers(rt: HostRuntime) {
    expect_answers(&rt, rt.alloc(), Asked::Numbers, TERMS);
}

#[test]
fn chains_are_true_of_these_numbers(rt: HostRuntime) {
    expect_answers(&rt, rt.alloc(), Asked::Numbers, CONNECTIVES);
}

#[test]
fn quantified_formulas_are_true_of_these_numbers(rt: HostRuntime) {
    expect_answers(&rt, rt.alloc(), Asked::Numbers, QUANTIFIERS);
}

#[test]
fn names_without_meaning_are_true_of_these_numbers(rt: HostRuntime) {
    expect_answers(&rt, rt.alloc(), Asked::Numbers, NAMES);
}
