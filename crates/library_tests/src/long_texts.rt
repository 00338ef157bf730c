//! Texts as long as a command's are read.

use crate::answers::{Asked, Repeated, expect_long, expect_repeated};
use crate::given::given;
use formula_parse::tree::{Fact, Formula, Term};
use std::alloc::Global;
use std::process::Abort;

// A part so many times, what follows once, and what then follows as often.
pub(crate) fn repeated(
    rt: &impl Abort,
    alloc: Global,
    (part, times, middle, closing): (&str, usize, &str, &str),
) -> String {
    let mut text = given(rt, part.repeat(alloc, times));
    given(rt, text.push_str(middle));
    given(rt, text.push_str(&given(rt, closing.repeat(alloc, times))));
    text
}

// Bytes as a text.
pub(crate) fn string_of(rt: &impl Abort, alloc: Global, bytes: &[u8]) -> String {
    let mut text = String::new(alloc);
    for byte in bytes {
        given(rt, text.push(char::from(*byte)));
    }
    text
}

// How many operands come before a chain's last, addends before the last of an atom's left side, or factors and divisors are
// on its right.
pub(crate) fn parts_in(formula: &Formula) -> usize {
    match formula {
        Formula::Chain(operands, _) => operands.len(),
        Formula::Atom(atom) => match &atom.fact {
            Fact::Compare(Term::Sum(addends, _), _, _) => addends.len(),
            Fact::Compare(_, _, Term::Product(factors)) => factors.len(),
            _ => 0,
        },
        _ => 0,
    }
}

// A chain and a sum, each with how many parts come before its last, and a product with how many it has.
static LONG: [Repeated; 3] = [
    ("x=1&", 16383, "x=12", "", "65536 bytes: 16383"),
    ("x+", 32766, "x=12", "", "65536 bytes: 32766"),
    ("", 32766, "12=x", "/2", "65536 bytes: 32767"),
];

#[test]
fn chains_sums_and_products_of_65536_bytes(rt: HostRuntime) {
    expect_repeated(&rt, rt.alloc(), Asked::Parts, &LONG);
}

// Equations in parentheses 128 deep, again and again: how many come before the last of theirs.
#[test]
fn parentheses_128_deep_again_and_again(rt: HostRuntime) {
    let alloc = rt.alloc();
    let mut part = repeated(&rt, alloc, ("(", 128, "x=1", ")"));
    given(&rt, part.push('&'));
    let text = repeated(&rt, alloc, (part.as_str(), 252, "x=1234567 & y=12", ""));
    expect_long(&rt, alloc, Asked::Parts, &text, "65536 bytes: 253");
}
